// A slot list whose memory and numbers are its caller's own.
ghost use Rattle.std.specs.Prelude.{◌≡◌, min, [], length, if◌then◌else◌};
ghost use Rattle.lent.specs.Memory.{laid};
ghost use Rattle.slots.specs.Stepped.{at, slot_of, edited};
ghost use Rattle.slots.specs.SlotLists.{changeable};
ghost use Rattle.slots.specs.Loose.{records, Tidy, Rewritten};

use crate::change::Change;
use crate::list::settle;
use crate::reads::{ends_of, value_at};
use crate::slot::Slot;
use crate::span::Span;
use crate::value::Value;
use lent::lent::Lent;
use std::mem::take;

// Values over the minutes: `floor` before the first of the first `used` records. The first `room` records are the list's own.
// Stays: beside `SlotList`, which is canonical by its type, for records that stand in memory already, in whatever order and with whatever numbers.
#[derive(Drop)]
pub struct LooseList<'m, V> {
    pub slots: &'m mut [Slot<V>],
    pub used: usize,
    pub room: usize,
    pub floor: V,
}

impl<'m, V: Copy> LooseList<'m, V> {
    // A list with no records over the first `room` of the lent ones, or all if fewer are lent. It blanks those, and leaves the others.
    pub fn new(slots: &'m mut [Slot<V>], room: usize, floor: V) -> LooseList<'m, V>
        ensures used { result.used ≡ 0 }
        ensures room { result.room ≡ min room (length slots.old) }
        ensures floor { result.floor ≡ floor }
        ensures slots { result.slots.now ≡ laid (slot_of 0 floor) result.room [] slots.old }
        ensures lent { result.slots.ghost_name ≡ slots.entry.ghost_name }
    {
        let room = room.min(slots.len());
        let blank = Slot {
            minute: 0,
            value: floor,
        };
        LooseList {
            slots: Lent::new(slots, room, blank).close(),
            used: 0,
            room,
            floor,
        }
    }

    // The lent memory.
    pub fn close(self) -> &'m mut [Slot<V>]
        ensures slots { result.now ≡ self.entry.slots.now }
        ensures lent { result.ghost_name ≡ self.entry.slots.ghost_name }
    {
        let LooseList {
            slots,
            used: _,
            room: _,
            floor: _,
        } = self;
        slots
    }

    // The records in use.
    pub fn records(&self) -> &[Slot<V>]
        ensures { result.now ≡ records self.now }
    {
        let used = self.used.min(self.slots.len());
        &self.slots[..used]
    }

    // The value at `minute`.
    pub fn at(&self, minute: u32) -> V
        ensures { result ≡ at self.now.floor (records self.now) minute }
    {
        value_at(self.records(), self.floor, minute)
    }

    // Takes all records out: blanks stand in the list's room.
    pub fn clear(&mut self)
        ensures list { Tidy self.old → Rewritten self.old [] self.new }
        ensures room { self.new.room ≡ self.old.room }
        ensures floor { self.new.floor ≡ self.old.floor }
        ensures len { length self.new.slots.now ≡ length self.old.slots.now }
        ensures lent { self.new.slots.ghost_name ≡ self.old.slots.ghost_name }
    {
        if self.room <= self.slots.len() {
            let blank = Slot {
                minute: 0,
                value: self.floor,
            };
            let slots = take(&mut self.slots);
            self.slots = Lent::new(slots, self.room, blank).close();
            self.used = 0;
        }
    }
}

impl<'m, V: Value> LooseList<'m, V> {
    // Changes the value at each minute from `from` on and before `until`, if there is one and the records at the ends find room, and says whether it did.
    pub fn change<C: Change<V>>(&mut self, from: u32, until: u32, how: &C) -> bool
        ensures answer { Tidy self.old → result ≡ changeable from until self.old.room (records self.old) }
        ensures list { Tidy self.old → Rewritten self.old (if result then edited V.alike (C.changed how.now) from until self.old.floor (records self.old) else records self.old) self.new }
        ensures room { self.new.room ≡ self.old.room }
        ensures floor { self.new.floor ≡ self.old.floor }
        ensures len { length self.new.slots.now ≡ length self.old.slots.now }
        ensures lent { self.new.slots.ghost_name ≡ self.old.slots.ghost_name }
    {
        if self.used > self.room || self.room > self.slots.len() || from >= until {
            return false;
        }
        let span = Span { from, until };
        let ends = ends_of(self.records(), self.floor, span);
        let more = ends.start.lacks() + ends.end.lacks();
        if self.room - self.used < more {
            return false;
        }
        let blank = Slot {
            minute: 0,
            value: self.floor,
        };
        let slots = take(&mut self.slots);
        let mut lent = Lent::over(slots, self.used, self.used + more, blank);
        settle(&mut lent, ends, span, how);
        self.used = lent.items().len();
        self.slots = lent.close();
        true
    }
}
