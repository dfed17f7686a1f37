// One booking more on a board.
ghost use Rattle.std.specs.Prelude.{◌≡◌};
ghost use Rattle.bookings.specs.Bookings.{FitsBeside};
ghost use Rattle.bookings.specs.Rows.{bookings};
ghost use Rattle.board.specs.Adding.{MayEnter, with_row};
ghost use Rattle.board.specs.Views.{holding, SameMemory};

use crate::board::Board;
use crate::changes::Put;
use bookings::row::Row;
use slots::span::Span;
use units::kind::Units;

impl<'m, L: Units> Board<'m, L> {
    // Adds a row below the others, puts its claim on the slots of its span, and sets the next number.
    pub(crate) fn add(&mut self, row: Row<L>, next: u32)
        requires { (MayEnter L.kind (holding self.old) next row) × (FitsBeside L.kind self.old.capacity (bookings (holding self.old).book.rows) row.booking) }
        ensures board { holding self.new ≡ with_row L.kind (holding self.old) next row }
        ensures memory { SameMemory self.old self.new }
    {
        let below = self.rows.items().len();
        let _ = self.rows.insert(below, row);
        let put = Put {
            capacity: self.capacity,
            claim: row.booking.claim,
        };
        let span = Span {
            from: row.booking.start,
            until: row.booking.end,
        };
        let _ = self.slots.change(span, &put);
        self.next = next;
    }
}
