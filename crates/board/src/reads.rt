// Reading a board, and handing its memory back.
ghost use Rattle.std.specs.Prelude.{◌≡◌};
ghost use Rattle.lent.specs.Memory.{laid};
ghost use Rattle.slots.specs.Stepped.{at, slot_of};
ghost use Rattle.bookings.specs.Rows.{blank_row, bookings};
ghost use Rattle.bookings.specs.Bookings.{load_at};
ghost use Rattle.board.specs.Keeping.{Kept};
ghost use Rattle.board.specs.Views.{holding};

use crate::board::Board;
use bookings::row::Row;
use slots::slot::Slot;
use units::kind::Units;

impl<'m, L: Units> Board<'m, L> {
    // What a board always keeps.
    pub fn keeps(&self)
        ensures { Kept L.kind L.kind.nothing (holding self.now) }
    {}

    // How many units there are: 0 where the board is closed.
    pub fn capacity(&self) -> u32
        ensures { result ≡ (holding self.now).book.capacity }
    {
        self.capacity
    }

    // By when every booking ends.
    pub fn horizon(&self) -> u32
        ensures { result ≡ (holding self.now).book.horizon }
    {
        self.horizon
    }

    // The number that the next booking gets.
    pub fn next_number(&self) -> u32
        ensures { result ≡ (holding self.now).book.next }
    {
        self.next
    }

    // How many bookings can stand at once.
    pub fn room(&self) -> usize
        ensures { result ≡ (holding self.now).book.room }
    {
        self.rows.room()
    }

    // The standing bookings, in the order of their numbers.
    pub fn rows(&self) -> &[Row<L>]
        ensures { result.now ≡ (holding self.now).book.rows }
    {
        self.rows.items()
    }

    // The slot list.
    pub fn slots(&self) -> &[Slot<L>]
        ensures { result.now ≡ (holding self.now).slots }
    {
        self.slots.records()
    }

    // The slot list says at `minute` what the standing bookings make.
    fn agrees_at(&self, minute: u32)
        ensures { at self.now.slots.floor (holding self.now).slots minute ≡ load_at L.kind self.now.capacity (bookings (holding self.now).book.rows) minute }
    {}

    // The load at `minute`: what the standing bookings make.
    pub fn load_at(&self, minute: u32) -> L
        ensures { result ≡ load_at L.kind self.now.capacity (bookings (holding self.now).book.rows) minute }
    {
        self.agrees_at(minute);
        self.slots.at(minute)
    }

    // The lent memory is the rows and the slot list, with blanks behind them.
    fn lies_in_order(&self)
        ensures rows { self.now.rows.memory.now ≡ laid (blank_row L.kind.nothing) self.now.rows.room (holding self.now).book.rows self.now.rows.memory.now }
        ensures slots { self.now.slots.lent.memory.now ≡ laid (slot_of 0 L.kind.nothing) self.now.slots.lent.room (holding self.now).slots self.now.slots.lent.memory.now }
    {}

    // Hands the memory back: the rows and the slot list, blanks behind them, and what was not the board's as it was.
    pub fn close(self) -> (&'m mut [Row<L>], &'m mut [Slot<L>])
        ensures rows { result.0.now ≡ laid (blank_row L.kind.nothing) self.entry.rows.room (holding self.entry).book.rows self.entry.rows.memory.now }
        ensures slots { result.1.now ≡ laid (slot_of 0 L.kind.nothing) self.entry.slots.lent.room (holding self.entry).slots self.entry.slots.lent.memory.now }
        ensures lent { (result.0.ghost_name ≡ self.entry.rows.memory.ghost_name) × (result.1.ghost_name ≡ self.entry.slots.lent.memory.ghost_name) }
    {
        self.lies_in_order();
        let Board {
            capacity: _,
            horizon: _,
            next: _,
            rows,
            slots,
            of_bookings: _,
        } = self;
        (rows.close(), slots.close())
    }
}
