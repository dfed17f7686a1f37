// Writing the rows of a board file.
ghost use Rattle.std.specs.Prelude.{◌≡◌};
ghost use Rattle.boardfile.specs.Files.{row_bytes};

use crate::filed::Filed;
use bookings::row::Row;

// The bytes of a row.
// Stays: an impl of `From` between bytes and rows would stand with neither its trait nor its types.
pub fn row_bytes<L: Filed>(row: Row<L>) -> [u8; 24]
    ensures { result ≡ row_bytes L.filing row }
{
    let numbers = [
        row.number.to_le_bytes(),
        row.booking.start.to_le_bytes(),
        row.booking.end.to_le_bytes(),
        u32::from(row.state).to_le_bytes(),
    ];
    let mut bytes = [0; 24];
    bytes[..16].copy_from_slice(numbers.as_flattened());
    bytes[16..].copy_from_slice(&row.booking.claim.word().to_le_bytes());
    bytes
}
