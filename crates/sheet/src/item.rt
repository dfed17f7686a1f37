// The items of a sheet.
ghost use Rattle.std.specs.Prelude.{◌≡◌};
ghost use Rattle.sheet.specs.Orders.{content};
ghost use Rattle.sheet.specs.Items.{line_of, content_of};

use crate::line::Line;
use crate::order::Order;

// A line with what it is.
#[derive(Clone, Copy, Debug, PartialEq, Eq)]
pub enum Item<'a> {
    Entry(Line<'a>, Order),
    Remark(Line<'a>),
    Bad(Line<'a>),
}

impl<'a> Item<'a> {
    // The line's first letter decides what the line is.
    pub fn of(line: Line<'a>) -> Item<'a>
        ensures line { line_of result ≡ line.entry }
        ensures content { content_of result ≡ content line.entry.bytes.now }
    {
        let [letter, fields @ ..] = line.bytes else {
            return Item::Remark(line);
        };
        match char::from(*letter) {
            '#' => Item::Remark(line),
            letter => match Order::read(letter, fields) {
                Some(order) => Item::Entry(line, order),
                None => Item::Bad(line),
            },
        }
    }
}
