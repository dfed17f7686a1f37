// The reader of a sheet. What it says of its steps stands in `walk`.
ghost use Rattle.std.specs.Prelude.{◌≤◌, length};

mod walk;

pub use walk::items;

// Stays: the reader holds the sheet and its place, by a rule of the project.
// Goes over a sheet from line to line without copying it: the sheet, and the place of the next line.
#[derive(Drop)]
pub struct SheetReader<'a> {
    sheet: &'a [u8],
    at: usize,
    ghost inside: { at ≤ length sheet.now },
}
