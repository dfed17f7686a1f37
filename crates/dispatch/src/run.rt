// A whole sheet, from a fresh board to the text of all answers.
ghost use Rattle.std.specs.Prelude.{◌≡◌, ◌++◌, map, IfOk, string_bytes, OnOk};
ghost use Rattle.board.specs.Views.{holding};
ghost use Rattle.sheet.specs.Lines.{lines};
ghost use Rattle.sheet.specs.Orders.{content};
ghost use Rattle.dispatch.specs.Calling.{CallsAreALine};
ghost use Rattle.dispatch.specs.Running.{texts, sheet_text};

use crate::entry::run_line;
use board::board::Board;
use board::setup::blank_row;
use bookings::refusal::Refusal;
use sheet::answer::Answer;
use sheet::reader::SheetReader;
use slots::slot::Slot;
use std::alloc::{AllocError, Global};
use units::crew::Crew;

const MOST_BYTES: usize = 65_536;

const MECHANICS: u32 = 8;

const HORIZON: u32 = 10_080;

const ROWS: usize = 64;

const RECORDS: usize = 128;

// Runs the lines of a sheet one after the other, and appends the text of each answer to `out`.
fn run_lines(board: &mut Board<'_, Crew>, sheet: &[u8], out: &mut String) -> Result<(), AllocError>
    ensures { OnOk result (string_bytes out.new ≡ string_bytes out.old ++ texts (holding board.old) (map content (lines sheet.now))) }
{
    for item in SheetReader::new(sheet) {
        let answer = run_line(board, item);
        answer.write_to(board.slots(), out)?;
    }
    Ok(())
}

// The calls that a sheet makes are a line of calls, on which the board keeps its promise. It does nothing: what it tells is for the contract below.
fn calls_are_a_line(sheet: &[u8])
    ensures { CallsAreALine (map content (lines sheet.now)) }
{}

// All that a sheet is answered, on a fresh board of 8 mechanics, bookings that end by minute 10,080, and 64 rows.
pub fn run(heap: Global, sheet: &[u8]) -> Result<String, AllocError>
    ensures text { IfOk result (λ text. string_bytes text ≡ sheet_text sheet.now) }
    ensures line { CallsAreALine (map content (lines sheet.now)) }
{
    calls_are_a_line(sheet);
    if MOST_BYTES < sheet.len() {
        let refused = Answer::Refused(u32::from(Refusal::SheetTooLong));
        return refused.text(heap, &[]);
    }
    let nobody = Crew { mask: 0 };
    let mut rows = [blank_row(nobody); ROWS];
    let mut slots = [Slot {
        minute: 0,
        value: nobody,
    }; RECORDS];
    let mut board = Board::make(MECHANICS, HORIZON, &mut rows, &mut slots);
    let mut text = String::new(heap);
    run_lines(&mut board, sheet, &mut text)?;
    Ok(text)
}
