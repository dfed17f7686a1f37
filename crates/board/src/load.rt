// Loading a board from a file.
ghost use Rattle.std.specs.Prelude.{◌≡◌, ◌<◌, ◌≤◌, [], map, length, if◌then◌else◌, Ok, Err, nat_lt};
ghost use Rattle.bookings.specs.Rows.{bookings};
ghost use Rattle.bookings.specs.declared.refusal.FileFault.TheVariants.{Clash};
ghost use Rattle.boardfile.specs.Faults.{fits_in, rows_fault};
ghost use Rattle.boardfile.specs.Files.{row_in};
ghost use Rattle.board.specs.Adding.{MayEnter, with_row, emptied};
ghost use Rattle.board.specs.Files.{load_answer, load_after};
ghost use Rattle.board.specs.FileSteps.{fault_result, for_fault, headed};
ghost use Rattle.board.specs.Results.{done_result};
ghost use Rattle.board.specs.Views.{holding, SameMemory};

use crate::board::Board;
use boardfile::filed::Filed;
use boardfile::header::Header;
use boardfile::read::{open_file, read_row};
use bookings::refusal::{FileFault, Refusal};
use bookings::row::Row;
use planning::walk::joined_over;
use units::kind::Units;

impl<'m, L: Units> Board<'m, L> {
    // Does a booking stand?
    fn stands(&self) -> bool
        ensures { result ≡ nat_lt 0 (length (holding self.now).book.rows) }
    {
        0 < self.rows.items().len()
    }

    // Is the row's claim clear of what stands at each of its minutes?
    fn fits_in(&self, row: Row<L>) -> bool
        requires { row.booking.start < row.booking.end }
        ensures { result ≡ fits_in L.kind self.now.capacity (bookings (holding self.now).book.rows) row.booking }
    {
        let start = row.booking.start;
        let duration = row.booking.end - start;
        let load = joined_over(self.slots.records(), start, duration);
        load.is_clear(row.booking.claim, self.capacity)
    }

    // Adds the row of a file that has that index, if it fits in.
    fn admit(&mut self, row: Row<L>, index: usize) -> Result<(), FileFault>
        requires { MayEnter L.kind (holding self.old) self.old.next row }
        ensures answer { result ≡ (if fits_in L.kind self.old.capacity (bookings (holding self.old).book.rows) row.booking then Ok tt else Err (Clash index)) }
        ensures board { result ≡ Ok tt → holding self.new ≡ with_row L.kind (holding self.old) self.old.next row }
        ensures room { self.new.rows.room ≡ self.old.rows.room }
        ensures memory { SameMemory self.old self.new }
    {
        if !self.fits_in(row) {
            return Err(FileFault::Clash(index));
        }
        let next = self.next;
        self.add(row, next);
        Ok(())
    }
}

impl<'m, L: Filed> Board<'m, L> {
    // Adds the rows of a file one after the other, up to the first that is at fault.
    fn admit_all(&mut self, header: Header, rows: &[[u8; 24]]) -> Result<(), FileFault>
        requires { (holding self.old ≡ emptied header.capacity header.horizon self.old.rows.room header.next) × ((header.next ≤ 100000) × (length rows.now ≤ self.old.rows.room)) }
        ensures answer { result ≡ fault_result (rows_fault L.Units.kind header 1 [] 0 (map (row_in L.Filed.filing) rows.now)) }
        ensures book { result ≡ Ok tt → (holding self.new).book ≡ headed header self.old.rows.room (map (row_in L.Filed.filing) rows.now) }
        ensures room { self.new.rows.room ≡ self.old.rows.room }
        ensures memory { SameMemory self.old self.new }
    {
        let mut low = 1;
        for (i, bytes) in rows.iter().enumerate() {
            let row = read_row::<L>(bytes, header, low, i)?;
            self.admit(row, i)?;
            low = row.number + 1;
        }
        Ok(())
    }

    // Takes the numbers and bookings of a file over, on a board with no bookings; where the file is at fault, the board is then as it was.
    fn take_over(&mut self, bytes: &[u8]) -> Result<(), FileFault>
        requires { (holding self.old).book.rows ≡ [] }
        ensures answer { for_fault result ≡ done_result (load_answer L.Units.kind L.Filed.filing (holding self.old) bytes.now) }
        ensures board { holding self.new ≡ load_after L.Units.kind L.Filed.filing (holding self.old) bytes.now }
        ensures memory { SameMemory self.old self.new }
    {
        let (header, rows) = open_file::<L>(bytes, self.room())?;
        let capacity = self.capacity;
        let horizon = self.horizon;
        let next = self.next;
        self.reset(header.capacity, header.horizon, header.next);
        let read = self.admit_all(header, rows);
        if read.is_err() {
            self.reset(capacity, horizon, next);
        }
        read
    }

    // The board of a file in place of this one, which has no bookings; or what stands against it, and then nothing is changed.
    pub fn load(&mut self, bytes: &[u8]) -> Result<(), Refusal>
        ensures answer { result ≡ done_result (load_answer L.Units.kind L.Filed.filing (holding self.old) bytes.now) }
        ensures board { holding self.new ≡ load_after L.Units.kind L.Filed.filing (holding self.old) bytes.now }
        ensures memory { SameMemory self.old self.new }
    {
        if self.stands() {
            return Err(Refusal::BookingStands);
        }
        self.take_over(bytes)?;
        Ok(())
    }
}
