// The board itself: its numbers, its rows and its slot list, and what they always keep.
ghost use Rattle.std.specs.Prelude.{◌≡◌, ◌*◌};
ghost use Rattle.lent.specs.Lists.{items};
ghost use Rattle.slots.specs.SlotLists.{records};
ghost use Rattle.bookings.specs.Rows.{blank_row};
ghost use Rattle.board.specs.Keeping.{Keeping, keeping_prop};

use bookings::booking::Booking;
use bookings::row::Row;
use lent::lent::Lent;
use slots::list::SlotList;
use std::marker::PhantomData;
use units::kind::Units;

// Stays: that a call leaves a board in the same memory ties two boards, so each call's clause says it, and no field can.
#[derive(Drop)]
pub struct Board<'m, L: Units> {
    pub(crate) capacity: u32,
    pub(crate) horizon: u32,
    pub(crate) next: u32,
    pub(crate) rows: Lent<'m, Row<L>>,
    pub(crate) slots: SlotList<'m, L>,
    // Of no size: without it the checker can't tell where a row's booking is declared when the memory is handed back.
    pub(crate) of_bookings: PhantomData<Booking<L>>,
    ghost rows_blank: { rows.blank ≡ blank_row slots.floor },
    ghost slots_room: { slots.lent.room ≡ 2 * rows.room },
    ghost keeping: { Keeping L.Units.kind capacity horizon next rows.room slots.floor (items rows) (records slots) } by { keeping_prop L.code L.Units.kind capacity horizon next rows.room slots.floor (items rows) (records slots) },
}
