// The answers to the lines of a sheet, and their text.
ghost use Rattle.std.specs.Prelude.{◌≡◌, ◌++◌, is_ok, IfOk, if◌then◌else◌, string_bytes, Some};
ghost use Rattle.sheet.specs.Answers.{text_of, list_text, slot_text};

use slots::slot::Slot;
use std::alloc::{AllocError, Global};
use std::fmt;
use units::crew::Crew;

#[derive(Clone, Copy, PartialEq, Eq, Debug)]
pub enum Answer {
    // A hold was granted and confirmed.
    Granted { number: u32, start: u32, claim: u64 },
    // A hold was granted with a start that is not welcome, and released.
    Late { number: u32, start: u32 },
    // A booking was cancelled, begun or finished.
    Done,
    // The line was refused, for the reason with this number.
    // Stays: a number, so that an answer can be printed whatever its reason is; a `Refusal` in its place would take fewer.
    Refused(u32),
    // The slot list was asked for.
    Listed,
    // There is nothing to say.
    Silent,
}

// A record of the slot list as it is printed, in a line of its own.
#[derive(Clone, Copy)]
struct RecordLine<'a>(&'a Slot<Crew>);

impl fmt::Display for RecordLine<'_> {
    ghost output = { λ line. Some (slot_text line.0.now) };

    fn fmt<W: fmt::Write>(&self, f: &mut fmt::Formatter<W>) -> fmt::Result {
        let minute = self.0.minute;
        let load = self.0.value.mask;
        writeln!(f, "{minute} {load}")
    }
}

// The slot list as it is printed: how many records it has, and a line for each.
#[derive(Clone, Copy)]
struct Listing<'a>(&'a [Slot<Crew>]);

impl fmt::Display for Listing<'_> {
    ghost output = { λ list. Some (list_text list.0.now) };

    fn fmt<W: fmt::Write>(&self, f: &mut fmt::Formatter<W>) -> fmt::Result {
        let count = self.0.len();
        writeln!(f, "list {count}")?;
        for slot in self.0 {
            let line = RecordLine(slot);
            write!(f, "{line}")?;
        }
        Ok(())
    }
}

// An answer as it is printed, each line with its end, where the slot list is `slots`.
#[derive(Clone, Copy)]
pub struct Printed<'a> {
    pub answer: Answer,
    pub slots: &'a [Slot<Crew>],
}

impl fmt::Display for Printed<'_> {
    ghost output = { λ printed. Some (text_of printed.slots.now printed.answer) };

    fn fmt<W: fmt::Write>(&self, f: &mut fmt::Formatter<W>) -> fmt::Result {
        match self.answer {
            Answer::Granted {
                number,
                start,
                claim,
            } => writeln!(f, "ok {number} {start} {claim}"),
            Answer::Late { number, start } => writeln!(f, "late {number} {start}"),
            Answer::Done => writeln!(f, "ok"),
            Answer::Refused(number) => writeln!(f, "no {number}"),
            Answer::Listed => {
                let list = Listing(self.slots);
                write!(f, "{list}")
            }
            Answer::Silent => Ok(()),
        }
    }
}

impl Answer {
    // The lines that the answer prints, each with its end, where the slot list is `slots`.
    pub fn text(&self, heap: Global, slots: &[Slot<Crew>]) -> Result<String, AllocError>
        ensures { IfOk result (λ s. string_bytes s ≡ text_of slots.now self.now) }
    {
        let printed = Printed {
            answer: *self,
            slots,
        };
        printed.to_string(heap)
    }

    // Appends the answer's text to `out`, or leaves `out` as it is where memory is short.
    // Stays: `write!` to the text would say nothing of it where memory is short.
    pub fn write_to(&self, slots: &[Slot<Crew>], out: &mut String) -> Result<(), AllocError>
        ensures { string_bytes out.new ≡ (if is_ok result then string_bytes out.old ++ text_of slots.now self.now else string_bytes out.old) }
    {
        let text = self.text(*out.allocator(), slots)?;
        out.push_str(&text)
    }
}
