//! The C interface: two questions about the bytes of a board file.
#![tactic(auto)]

ghost use Rattle.std.specs.Prelude.{◌≡◌, ◌≤◌, length, ◌==◌};
ghost use Rattle.units.specs.Crews.{crew_kind};
ghost use Rattle.units.specs.Stocks.{stock_kind};
ghost use Rattle.boardfile.specs.Bytes.{number_at};
ghost use Rattle.boardfile.specs.Filings.{crew_filing, stock_filing};
ghost use Rattle.board.specs.Views.{holding};
ghost use Rattle.office.specs.Office.{file_check, file_free};
ghost use Rattle.office.specs.Telling.{free_before, told_as, file_told};

use board::board::Board;
use board::setup::blank_row;
use boardfile::filed::Filed;
use bookings::refusal::Refusal;
use bookings::row::Row;
use slots::slot::Slot;
use units::crew::Crew;
use units::kind::Units;
use units::stock::Stock;

const ROWS: usize = 256;

const RECORDS: usize = 512;

// Stays: C has no `Option`, so its header gives "no answer" a number, and "no fault" the number 0.
const NO_ANSWER: u32 = 4_294_967_295;

// Does the file say that its board is one of stock? One too short to say so is no board's, whichever kind it is read as.
fn says_stock(bytes: &[u8]) -> bool
    ensures { 4 ≤ length bytes.now → result ≡ (number_at 0 4 bytes.now == stock_filing.code) }
{
    bytes.first_chunk().is_some_and(|kind| u32::from_le_bytes(*kind) == <Stock as Filed>::code())
}

// The units that a board has free at a minute, if that is before its horizon.
fn free_on<L: Units>(board: &Board<'_, L>, minute: u32) -> Option<u32>
    ensures { result ≡ free_before L.kind (holding board.now).book minute }
{
    if minute < board.horizon() {
        Some(board.load_at(minute).free(board.capacity()))
    } else {
        None
    }
}

// A slot that says nothing of its minute.
fn blank_slot<L: Copy>(nothing: L) -> Slot<L> {
    Slot {
        minute: 0,
        value: nothing,
    }
}

// The units that are free at a minute of a file, if that is before its horizon, or why the file is refused; by a board of the file's kind over that memory.
fn told<L: Filed>(
    rows: &mut [Row<L>],
    slots: &mut [Slot<L>],
    bytes: &[u8],
    minute: u32,
) -> Result<Option<u32>, Refusal>
    requires { (1 ≤ L.Units.kind.most) × ((length rows.old ≡ 256) × (length slots.old ≡ 512)) }
    ensures { result ≡ told_as L.Units.kind L.Filed.filing bytes.now minute }
{
    let mut board = Board::make(1, 1, rows, slots);
    board.load(bytes)?;
    Ok(free_on(&board, minute))
}

// The same by a crew board, in memory that is made for it.
// Stays: this and the next differ in a type alone. In a function of any kind the arrays would have elements of no known size, and no proof bounds theirs; where one function made both, each call would set both up.
fn crew_told(bytes: &[u8], minute: u32) -> Result<Option<u32>, Refusal>
    ensures { result ≡ told_as crew_kind crew_filing bytes.now minute }
{
    let nobody = Crew { mask: 0 };
    let mut rows = [blank_row(nobody); ROWS];
    let mut slots = [blank_slot(nobody); RECORDS];
    told(&mut rows, &mut slots, bytes, minute)
}

// The same by a stock board.
fn stock_told(bytes: &[u8], minute: u32) -> Result<Option<u32>, Refusal>
    ensures { result ≡ told_as stock_kind stock_filing bytes.now minute }
{
    let none = Stock { count: 0 };
    let mut rows = [blank_row(none); ROWS];
    let mut slots = [blank_slot(none); RECORDS];
    told(&mut rows, &mut slots, bytes, minute)
}

// The same of a file by its own kind.
fn asked(bytes: &[u8], minute: u32) -> Result<Option<u32>, Refusal>
    ensures { result ≡ file_told bytes.now minute }
{
    if says_stock(bytes) {
        stock_told(bytes, minute)
    } else {
        crew_told(bytes, minute)
    }
}

// Is the file one that a board of its kind with 256 rows would load? 0, or the number of the refusal, 14 to 19.
#[unsafe(no_mangle)]
pub extern "C" fn board_file_check(bytes: &[u8]) -> u32
    ensures { result ≡ file_check bytes.now }
{
    match asked(bytes, 0) {
        Ok(_) => 0,
        Err(refusal) => u32::from(refusal),
    }
}

// How many units are free at `minute`, or 4,294,967,295 where the file is refused or the minute is not before its horizon.
#[unsafe(no_mangle)]
pub extern "C" fn board_file_free(bytes: &[u8], minute: u32) -> u32
    ensures { result ≡ file_free bytes.now minute }
{
    asked(bytes, minute).unwrap_or(None).unwrap_or(NO_ANSWER)
}
