// Saving a board into memory.
ghost use Rattle.std.specs.Prelude.{◌≡◌, ◌≤◌, length};
ghost use Rattle.boardfile.specs.Files.{file_length, header_of};
ghost use Rattle.board.specs.Files.{is_held, some_held, save_check, save_result, save_leaves};
ghost use Rattle.board.specs.FileSteps.{rows_over, file_over};
ghost use Rattle.board.specs.Results.{allowed};
ghost use Rattle.board.specs.Views.{holding};

use crate::board::Board;
use boardfile::filed::Filed;
use boardfile::header::Header;
use boardfile::write::row_bytes;
use bookings::refusal::Refusal;
use bookings::row::{Row, State};
use units::kind::Units;

// Is a booking held?
fn is_held(state: State) -> bool
    ensures { result ≡ is_held state }
{
    matches!(state, State::Held)
}

// Is some booking held?
fn some_held<L: Copy>(rows: &[Row<L>]) -> bool
    ensures { result ≡ some_held rows.now }
{
    for row in rows {
        if is_held(row.state) {
            return true;
        }
    }
    false
}

// Writes rows into the memory behind the header's bytes.
fn write_rows<L: Filed>(rows: &[Row<L>], out: &mut [u8])
    requires { file_length (length rows.now) ≤ length out.old }
    ensures { out.new ≡ rows_over L.Filed.filing rows.now out.old }
{
    for (i, row) in rows.iter().enumerate() {
        let at = 24 + 24 * i;
        out[at..at + 24].copy_from_slice(&row_bytes(*row));
    }
}

// Writes a header and rows over the front of the memory.
fn write_file<L: Filed>(header: Header, rows: &[Row<L>], out: &mut [u8])
    requires { file_length (length rows.now) ≤ length out.old }
    ensures { out.new ≡ file_over L.Filed.filing header rows.now out.old }
{
    out[0..24].copy_from_slice(&<[u8; 24]>::from(header));
    write_rows(rows, out);
}

impl<'m, L: Units> Board<'m, L> {
    // How many bytes the board's file has.
    pub fn file_length(&self) -> usize
        ensures { result ≡ file_length (length (holding self.now).book.rows) }
    {
        24 + 24 * self.rows.items().len()
    }

    // What stands against saving the board into so many bytes.
    pub fn save_check(&self, memory: usize) -> Result<(), Refusal>
        ensures { result ≡ allowed (save_check (holding self.now).book memory) }
    {
        if self.capacity == 0 || some_held(self.rows()) {
            return Err(Refusal::NotSettled);
        }
        if memory < self.file_length() {
            return Err(Refusal::Buffer);
        }
        Ok(())
    }
}

impl<'m, L: Filed> Board<'m, L> {
    // The header of the board's file.
    fn header(&self) -> Header
        ensures { result ≡ header_of L.Filed.filing (holding self.now).book }
    {
        Header {
            kind: L::code(),
            capacity: self.capacity,
            horizon: self.horizon,
            next: self.next,
            count: self.rows.items().len() as u32,
            offset: 24,
        }
    }

    // Writes the board's file over the front of the memory and says how many bytes that are, or what stands against it.
    pub fn save(&self, out: &mut [u8]) -> Result<usize, Refusal>
        ensures answer { result ≡ save_result (holding self.now).book (length out.old) }
        ensures memory { out.new ≡ save_leaves L.Filed.filing (holding self.now).book out.old }
    {
        self.save_check(out.len())?;
        write_file(self.header(), self.rows(), out);
        Ok(self.file_length())
    }
}
