// A board that begins anew.
ghost use Rattle.std.specs.Prelude.{◌≡◌};
ghost use Rattle.board.specs.Adding.{NumbersFit, emptied};
ghost use Rattle.board.specs.Views.{holding, SameMemory};

use crate::board::Board;
use units::kind::Units;

impl<'m, L: Units> Board<'m, L> {
    // Takes all bookings out, and sets the board's numbers.
    pub(crate) fn reset(&mut self, capacity: u32, horizon: u32, next: u32)
        requires { NumbersFit L.kind capacity horizon next }
        ensures board { holding self.new ≡ emptied capacity horizon self.old.rows.room next }
        ensures memory { SameMemory self.old self.new }
    {
        self.rows.clear();
        self.slots.clear();
        self.capacity = capacity;
        self.horizon = horizon;
        self.next = next;
    }
}
