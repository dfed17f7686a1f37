ghost use Rattle.std.specs.Prelude.{◌≡◌};
ghost use Rattle.bookings.specs.Bookings.{stands, load_at};
ghost use Rattle.bookings.specs.Rows.{bookings};

use crate::booking::Booking;
use crate::row::Row;
use units::kind::Units;

impl<L: Copy> Booking<L> {
    // Is its claim taken at `minute`?
    pub fn stands_at(&self, minute: u32) -> bool
        ensures { result ≡ stands self.now minute }
    {
        (self.start..self.end).contains(&minute)
    }
}

// The load at `minute`: nothing, with the claims of the bookings that stand there put on in their order.
pub fn load_at<L: Units>(rows: &[Row<L>], capacity: u32, minute: u32) -> L
    ensures { result ≡ load_at L.kind capacity (bookings rows.now) minute }
{
    let mut load = L::nothing();
    for row in rows {
        if row.booking.stands_at(minute) {
            load = load.put(row.booking.claim, capacity);
        }
    }
    load
}
