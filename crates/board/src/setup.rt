// Setting a board up over lent memory.
ghost use Rattle.std.specs.Prelude.{◌≡◌, [], length};
ghost use Rattle.lent.specs.Memory.{laid};
ghost use Rattle.slots.specs.Stepped.{slot_of};
ghost use Rattle.bookings.specs.Rows.{blank_row};
ghost use Rattle.board.specs.Calls.{set_up_check, made};
ghost use Rattle.board.specs.Results.{allowed};
ghost use Rattle.board.specs.Views.{holding};

use crate::board::Board;
use bookings::booking::Booking;
use bookings::refusal::Refusal;
use bookings::row::{Row, State};
use lent::lent::Lent;
use slots::list::SlotList;
use slots::slot::Slot;
use std::marker::PhantomData;
use units::kind::Units;

const MOST_MINUTES: u32 = 1_048_576;

const MOST_ROWS: usize = 256;

// What stands against a board with these numbers, over so many rows and slot records.
pub fn set_up_check<L: Units>(
    capacity: u32,
    horizon: u32,
    rows: usize,
    records: usize,
) -> Result<(), Refusal>
    ensures { result ≡ allowed (set_up_check L.kind capacity horizon rows records) }
{
    if capacity == 0 || L::most() < capacity {
        return Err(Refusal::Capacity);
    }
    if horizon == 0 || MOST_MINUTES < horizon {
        return Err(Refusal::Horizon);
    }
    if rows == 0 || MOST_ROWS < rows || records < 2 * rows {
        return Err(Refusal::Memory);
    }
    Ok(())
}

// A row that holds no booking.
pub fn blank_row<L: Copy>(nothing: L) -> Row<L>
    ensures { result ≡ blank_row nothing }
{
    Row {
        number: 0,
        booking: Booking {
            start: 0,
            end: 0,
            claim: nothing,
        },
        state: State::Blank,
    }
}

impl<'m, L: Units> Board<'m, L> {
    // Stays: making can't fail, by the rules: where the numbers are refused there is a closed board, known by its capacity 0.
    // A board with no bookings over lent memory: open, or closed where the numbers are refused, which leaves the memory as it is.
    pub fn make(
        capacity: u32,
        horizon: u32,
        rows: &'m mut [Row<L>],
        slots: &'m mut [Slot<L>],
    ) -> Board<'m, L>
        ensures board { holding result ≡ made L.kind capacity horizon (length rows.old) (length slots.old) }
        ensures rows { result.rows.memory.now ≡ laid (blank_row L.kind.nothing) result.rows.room [] rows.old }
        ensures slots { result.slots.lent.memory.now ≡ laid (slot_of 0 L.kind.nothing) result.slots.lent.room [] slots.old }
        ensures lent { (result.rows.memory.ghost_name ≡ rows.entry.ghost_name) × (result.slots.lent.memory.ghost_name ≡ slots.entry.ghost_name) }
    {
        let (capacity, horizon, room) = match set_up_check::<L>(
            capacity,
            horizon,
            rows.len(),
            slots.len(),
        ) {
            Ok(()) => (capacity, horizon, rows.len()),
            Err(_) => (0, 0, 0),
        };
        let nothing = L::nothing();
        Board {
            capacity,
            horizon,
            next: 1,
            rows: Lent::new(rows, room, blank_row(nothing)),
            slots: SlotList::new(slots, 2 * room, nothing),
            of_bookings: PhantomData,
        }
    }
}
