// Where the row with a number stands.
ghost use Rattle.board.specs.Places.{Placed};

use bookings::row::Row;

// Its place, if there is such a row.
pub(crate) fn place_of<L: Copy>(rows: &[Row<L>], number: u32) -> Option<usize>
    ensures { Placed number rows.now result }
{
    for (i, row) in rows.iter().enumerate() {
        if row.number == number {
            return Some(i);
        }
    }
    None
}
