// The steps of the reader.
ghost use Rattle.std.specs.Prelude.{◌≡◌, ◌-◌, ◌<◌, length, IfOk};
ghost use Rattle.sheet.specs.Lines.{line_at, place_after};
ghost use Rattle.sheet.specs.Reading.{Steps, Whole};
ghost use Rattle.std.specs.Iterator.{at_most};

use super::SheetReader;
use crate::bytes::length_before;
use crate::item::Item;
use crate::line::Line;
use crate::theorems::no_line_is_lost;
use std::alloc::{AllocError, Global};

// The line that begins at `at`, and the place of the one behind it.
fn cut<'a>(sheet: &'a [u8], at: usize) -> (Line<'a>, usize)
    requires { at < length sheet.now }
    ensures place { result.0.at ≡ at }
    ensures bytes { result.0.bytes.now ≡ line_at sheet.now at }
    ensures next { result.1 ≡ place_after sheet.now at }
{
    let rest = &sheet[at..];
    let length = length_before(rest, b'\n');
    let line = Line {
        at,
        bytes: &rest[..length],
    };
    (line, sheet.len().min(at + length + 1))
}

impl<'a> SheetReader<'a> {
    pub fn new(sheet: &'a [u8]) -> Self
        ensures sheet { result.sheet.now ≡ sheet.now }
        ensures place { result.at ≡ 0 }
    {
        SheetReader { sheet, at: 0 }
    }

    // The item of the line at the reader's place, which then is that of the next line; or none at the end.
    pub fn next_item(&mut self) -> Option<Item<'a>>
        ensures { Steps self.old result self.new }
    {
        if self.at == self.sheet.len() {
            return None;
        }
        let (line, next) = cut(self.sheet, self.at);
        self.at = next;
        Some(Item::of(line))
    }
}

impl<'a> Iterator for SheetReader<'a> {
    type Item = Item<'a>;

    ghost remaining = { λ s. at_most (length s.sheet.now - s.at) };

    ghost next_gives = { Steps };

    fn next(&mut self) -> Option<Item<'a>> {
        self.next_item()
    }
}

// All items of a sheet.
pub fn items<'a>(heap: Global, sheet: &'a [u8]) -> Result<Vec<Item<'a>>, AllocError>
    ensures { IfOk result (λ v. Whole sheet.now v.items) }
{
    // The theorem on the reader's runs, from which the contract follows.
    no_line_is_lost();
    SheetReader::new(sheet).collect(heap)
}
