ghost use Rattle.std.specs.Prelude.{◌≡◌, ◌-◌, min, length, [], ◌++◌, take, drop, if◌then◌else◌, is_ok, slice_get, slice_set, nat_lt};
ghost use Rattle.std.specs.List.{insert, remove};
ghost use Rattle.lent.specs.Memory.{Laid, laid};
ghost use Rattle.lent.specs.Sifting.{sifted};

use crate::moves::{close_at, fill, open_at, sift_from};
use crate::sieve::Sieve;

// Stays: the board has no heap, so its lists lie in memory that its caller lends, with their lengths beside it.
// A list in lent memory: the first `used` elements are its items, blanks stand behind them up to its room, and what lies beyond is not the list's.
#[derive(Drop)]
pub struct Lent<'m, T> {
    memory: &'m mut [T],
    used: usize,
    room: usize,
    blank: T,
    pub ghost laid_out: { Laid blank used room memory.now },
}

// There is no room for one item more.
#[derive(Clone, Copy, Debug, PartialEq, Eq)]
pub struct NoRoom;

impl<'m, T: Copy> Lent<'m, T> {
    ghost use Rattle.lent.specs.Lists.{items, Refilled};

    // A list with no items over the first `room` of the memory, or over all of it if it is shorter. It blanks those, and leaves the others.
    pub fn new(memory: &'m mut [T], room: usize, blank: T) -> Lent<'m, T>
        ensures items { items result ≡ [] }
        ensures room { result.room ≡ min room (length memory.old) }
        ensures blank { result.blank ≡ blank }
        ensures memory { result.memory.now ≡ laid blank result.room [] memory.old }
        ensures lent { result.memory.ghost_name ≡ memory.entry.ghost_name }
    {
        Lent::over(memory, 0, room, blank)
    }

    // The same, whose first `used` items stand in the memory already, or as many as there is room for. It blanks the room behind them.
    pub fn over(memory: &'m mut [T], used: usize, room: usize, blank: T) -> Lent<'m, T>
        ensures items { items result ≡ take (min used result.room) memory.old }
        ensures room { result.room ≡ min room (length memory.old) }
        ensures blank { result.blank ≡ blank }
        ensures memory { result.memory.now ≡ laid blank result.room (take (min used result.room) memory.old) memory.old }
        ensures lent { result.memory.ghost_name ≡ memory.entry.ghost_name }
    {
        let room = room.min(memory.len());
        let used = used.min(room);
        fill(&mut memory[used..room], blank);
        Lent {
            memory,
            used,
            room,
            blank,
        }
    }

    // Hands the memory back, with the items in front.
    pub fn close(self) -> &'m mut [T]
        ensures memory { result.now ≡ self.entry.memory.now }
        ensures lent { result.ghost_name ≡ self.entry.memory.ghost_name }
    {
        let Lent {
            memory,
            used: _,
            room: _,
            blank: _,
        } = self;
        memory
    }

    pub fn items(&self) -> &[T]
        ensures { result.now ≡ items self.now }
    {
        &self.memory[..self.used]
    }

    // How many items there can be.
    pub fn room(&self) -> usize
        ensures { result ≡ self.now.room }
    {
        self.room
    }

    // How many items more find room.
    pub fn spare(&self) -> usize
        ensures { result ≡ self.now.room - length (items self.now) }
    {
        self.room - self.used
    }

    // Puts `x` before the item at `i`, or behind the last one where there is none; where there is no room, nothing changes.
    pub fn insert(&mut self, i: usize, x: T) -> Result<(), NoRoom>
        ensures answer { is_ok result ≡ nat_lt (length (items self.old)) self.old.room }
        ensures list { Refilled self.old (if is_ok result then insert (items self.old) i x else items self.old) self.new }
    {
        let used = self.used;
        if used == self.room {
            return Err(NoRoom);
        }
        open_at(&mut self.memory[..used + 1], i.min(used), x);
        self.used += 1;
        Ok(())
    }

    // Takes the item at `i` out, if there is one.
    pub fn remove(&mut self, i: usize) -> Option<T>
        ensures answer { result ≡ slice_get (items self.old) i }
        ensures list { Refilled self.old (remove (items self.old) i) self.new }
    {
        let item = *self.items().get(i)?;
        close_at(&mut self.memory[..self.used], i, self.blank);
        self.used -= 1;
        Some(item)
    }

    // Puts `x` in place of the item at `i`, if there is one.
    pub fn replace(&mut self, i: usize, x: T)
        ensures { Refilled self.old (slice_set (items self.old) i x) self.new }
    {
        if i < self.used {
            self.memory[i] = x;
        }
    }

    // Passes the items from the one at `from` on through the sieve, and keeps what it leaves.
    pub fn sift<S: Sieve<T>>(&mut self, from: usize, sieve: &mut S)
        ensures { Refilled self.old (take from (items self.old) ++ sifted S.left S.after sieve.old (drop from (items self.old))) self.new }
    {
        let used = self.used;
        let own = &mut self.memory[..used];
        let left = sift_from(own, from.min(used), sieve);
        fill(&mut own[left..], self.blank);
        self.used = left;
    }

    // Takes all items out.
    pub fn clear(&mut self)
        ensures { Refilled self.old [] self.new }
    {
        fill(&mut self.memory[..self.used], self.blank);
        self.used = 0;
    }
}
