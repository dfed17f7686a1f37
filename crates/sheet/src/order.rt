// The orders of a sheet, and how each is read from its letter and the fields behind it.
ghost use Rattle.std.specs.Prelude.{◌≡◌, slice_index};
ghost use Rattle.std.specs.Option.{option_map};
ghost use Rattle.sheet.specs.Fields.{numbers_of, exactly};
ghost use Rattle.sheet.specs.Orders.{order_of};

use crate::field::numbers;

// What the writer of a sheet may ask for on a line.
#[derive(Clone, Copy, Debug, PartialEq, Eq)]
pub enum Order {
    // Hold `wanted` units for `duration` minutes between `ready` and `deadline`; confirm where they start by `welcome`, else release.
    Hold {
        ready: u32,
        duration: u32,
        deadline: u32,
        wanted: u32,
        welcome: u32,
    },
    Cancel(u32),
    Begin(u32),
    Finish(u32),
    List,
}

// The number of a line's only field.
fn one(fields: &[u8]) -> Option<u32>
    ensures { result ≡ option_map (λ ns. slice_index ns 0) (exactly 1 (numbers_of fields.now)) }
{
    let [number] = numbers::<1>(fields)?;
    Some(number)
}

impl Order {
    // The order that a letter makes of its numbers, where there are as many as it takes.
    pub(crate) fn read(letter: char, fields: &[u8]) -> Option<Order>
        ensures { result ≡ order_of letter (numbers_of fields.now) }
    {
        match letter {
            'P' => {
                let [ready, duration, deadline, wanted, welcome] = numbers::<5>(fields)?;
                Some(Order::Hold {
                    ready,
                    duration,
                    deadline,
                    wanted,
                    welcome,
                })
            }
            'C' => one(fields).map(Order::Cancel),
            'B' => one(fields).map(Order::Begin),
            'F' => one(fields).map(Order::Finish),
            'L' => {
                let [] = numbers::<0>(fields)?;
                Some(Order::List)
            }
            _ => None,
        }
    }
}
