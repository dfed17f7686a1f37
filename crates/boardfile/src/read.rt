// Reading a board file: its header, and each row.
ghost use Rattle.std.specs.Prelude.{◌≡◌, ◌≤◌, length};
ghost use Rattle.boardfile.specs.Files.{row_in, state_numbered};
ghost use Rattle.boardfile.specs.Faults.{header_allowed, row_allowed, settled, between};
ghost use Rattle.boardfile.specs.Reading.{FirstHeader, RowsBehind, Opens, read_row};

use crate::filed::Filed;
use crate::header::Header;
use bookings::booking::Booking;
use bookings::refusal::FileFault;
use bookings::row::{Row, State};
use units::kind::Units;

const MOST_MINUTES: u32 = 1_048_576;

const MOST_NEXT: u32 = 100_000;

const ROWS_AT: u32 = 24;

// Does each field but the count have a value that is allowed?
fn header_allowed<L: Filed>(header: Header) -> bool
    ensures { result ≡ header_allowed L.Units.kind L.Filed.filing header }
{
    header.kind == L::code()
        && (1..=L::most()).contains(&header.capacity)
        && (1..=MOST_MINUTES).contains(&header.horizon)
        && (1..=MOST_NEXT).contains(&header.next)
        && header.offset == ROWS_AT
}

// Is the booking confirmed or under way?
fn is_settled(state: State) -> bool
    ensures { result ≡ settled state }
{
    matches!(state, State::Confirmed | State::UnderWay)
}

// Stays: no row is refused here; that a number is no state's shows where the row's rules are tested.
// The state of that number; a number that is no state's counts as blank, which no row of a file may be.
fn state_numbered(number: u32) -> State
    ensures { result ≡ state_numbered number }
{
    State::try_from(number).unwrap_or(State::Blank)
}

// The row that 24 bytes write.
// Stays: an impl of `From` between bytes and rows would stand with neither its trait nor its types.
fn row_in<L: Filed>(bytes: &[u8; 24]) -> Row<L>
    ensures { result ≡ row_in L.filing bytes.now }
{
    let (numbers, _) = bytes.as_chunks();
    let (words, _) = bytes.as_chunks();
    Row {
        number: u32::from_le_bytes(numbers[0]),
        booking: Booking {
            start: u32::from_le_bytes(numbers[1]),
            end: u32::from_le_bytes(numbers[2]),
            claim: L::of_word(u64::from_le_bytes(words[2])),
        },
        state: state_numbered(u32::from_le_bytes(numbers[3])),
    }
}

// Does the row keep the rules for rows, where the numbers from `low` on are to be had?
fn row_allowed<L: Units>(row: &Row<L>, header: Header, low: u32) -> bool
    ensures { result ≡ row_allowed L.kind header low row.now }
{
    let claim = row.booking.claim;
    (low..header.next).contains(&row.number)
        && row.booking.start < row.booking.end
        && row.booking.end <= header.horizon
        && is_settled(row.state)
        && 1 <= claim.size()
        && L::nothing().is_clear(claim, header.capacity)
}

// The row that the bytes write, or the fault of the row with that index.
pub fn read_row<L: Filed>(
    bytes: &[u8; 24],
    header: Header,
    low: u32,
    index: usize,
) -> Result<Row<L>, FileFault>
    ensures { result ≡ read_row L.Units.kind L.Filed.filing header low index bytes.now }
{
    let row = row_in(bytes);
    if row_allowed(&row, header, low) {
        Ok(row)
    } else {
        Err(FileFault::Row(index))
    }
}

// The header that a file begins with.
fn first_header(bytes: &[u8]) -> Result<Header, FileFault>
    ensures { FirstHeader bytes.now result }
{
    bytes
        .first_chunk()
        .map(Header::from)
        .ok_or(FileFault::Short)
}

// The bytes of each row behind the header, where there are as many as the count says and nothing is left over.
fn rows_behind(bytes: &[u8], count: u32) -> Result<&[[u8; 24]], FileFault>
    requires { 24 ≤ length bytes.now }
    ensures { RowsBehind bytes.now count result }
{
    let (rows, rest) = bytes[24..].as_chunks();
    if rows.len() == count as usize && rest.is_empty() {
        Ok(rows)
    } else {
        Err(FileFault::Length)
    }
}

// The header and the bytes of each row, where nothing stands against the file of a board with so many rows before they are read.
pub fn open_file<'a, L: Filed>(
    bytes: &'a [u8],
    room: usize,
) -> Result<(Header, &'a [[u8; 24]]), FileFault>
    ensures { Opens L.Units.kind L.Filed.filing room bytes.now result }
{
    let header = first_header(bytes)?;
    if !header_allowed::<L>(header) {
        return Err(FileFault::Header);
    }
    let rows = rows_behind(bytes, header.count)?;
    if room < header.count as usize {
        return Err(FileFault::Room);
    }
    Ok((header, rows))
}
