ghost use Rattle.std.specs.Prelude.{◌≡◌, ◌+◌, ◌≤◌, min, [], length, is_ok, if◌then◌else◌};
ghost use Rattle.lent.specs.Lists.{items, Refilled};
ghost use Rattle.lent.specs.Memory.{laid};
ghost use Rattle.slots.specs.Steps.{put_of, put_in, both_in, changed_from};
ghost use Rattle.slots.specs.Stepped.{at, slot_of, edited, Canonical, canonical_prop};

use crate::change::Change;
use crate::reads::{Ends, Spot, ends_of, value_at};
use crate::settling::Settling;
use crate::slot::Slot;
use crate::span::Span;
use crate::value::Value;
use lent::lent::Lent;

// Values over the minutes: `floor` before the first record, and each record's value from its minute on. No value repeats the one before it.
#[derive(Drop)]
pub struct SlotList<'m, V> {
    lent: Lent<'m, Slot<V>>,
    floor: V,
    pub ghost blank_is: { lent.blank ≡ slot_of 0 floor },
    pub ghost canonical: { Canonical 0 floor (items lent) } by { canonical_prop 0 floor (items lent) },
}

// Why a change is not made: there is no minute in the span, or the records at its ends find no room.
#[derive(Clone, Copy, Debug, PartialEq, Eq)]
pub enum Unchanged {
    NoMinute,
    NoRoom,
}

// Puts the record that is lacking at `place`, if it is.
fn put<V: Copy>(lent: &mut Lent<'_, Slot<V>>, place: usize, spot: Spot<V>)
    requires { length (items lent.old) + length (put_of spot) ≤ lent.old.room }
    ensures { Refilled lent.old (put_in place (put_of spot) (items lent.old)) lent.new }
{
    if let Some(s) = spot.lacking {
        let _ = lent.insert(place, s);
    }
}

// Puts in the records that lack at the ends of the span, changes those of the span, and takes out those that then repeat the value before them.
pub(crate) fn settle<V: Value, C: Change<V>>(
    lent: &mut Lent<'_, Slot<V>>,
    ends: Ends<V>,
    span: Span,
    how: &C,
)
    requires { (ends.start.place + ends.end.place ≤ length (items lent.old)) × (length (items lent.old) + (length (put_of ends.start) + length (put_of ends.end)) ≤ lent.old.room) }
    ensures { Refilled lent.old (changed_from V.alike (C.changed how.now) span.from span.until ends.start.place ends.start.before (both_in ends (items lent.old))) lent.new }
{
    let Ends { start, end } = ends;
    put(lent, start.place, start);
    put(lent, start.place + start.lacks() + end.place, end);
    lent.sift(
        start.place,
        &mut Settling {
            span,
            how,
            before: start.before,
        },
    );
}

impl<'m, V: Copy> SlotList<'m, V> {
    ghost use Rattle.slots.specs.SlotLists.{records, Rewritten};

    // A list with no records over the first `room` of the lent ones, or all if fewer are lent. It blanks those, and leaves the others.
    pub fn new(slots: &'m mut [Slot<V>], room: usize, floor: V) -> SlotList<'m, V>
        ensures records { records result ≡ [] }
        ensures room { result.lent.room ≡ min room (length slots.old) }
        ensures floor { result.floor ≡ floor }
        ensures slots { result.lent.memory.now ≡ laid (slot_of 0 floor) result.lent.room [] slots.old }
        ensures lent { result.lent.memory.ghost_name ≡ slots.entry.ghost_name }
    {
        let blank = Slot {
            minute: 0,
            value: floor,
        };
        SlotList {
            lent: Lent::new(slots, room, blank),
            floor,
        }
    }

    // The lent memory.
    pub fn close(self) -> &'m mut [Slot<V>]
        ensures slots { result.now ≡ self.entry.lent.memory.now }
        ensures lent { result.ghost_name ≡ self.entry.lent.memory.ghost_name }
    {
        let SlotList { lent, floor: _ } = self;
        lent.close()
    }

    // The records in use.
    pub fn records(&self) -> &[Slot<V>]
        ensures { result.now ≡ records self.now }
    {
        self.lent.items()
    }

    // How many records there can be.
    pub fn room(&self) -> usize
        ensures { result ≡ self.now.lent.room }
    {
        self.lent.room()
    }

    // The value before the first record.
    pub fn floor(&self) -> V
        ensures { result ≡ self.now.floor }
    {
        self.floor
    }

    // The value at `minute`.
    pub fn at(&self, minute: u32) -> V
        ensures { result ≡ at self.now.floor (records self.now) minute }
    {
        value_at(self.records(), self.floor, minute)
    }

    // Takes all records out.
    pub fn clear(&mut self)
        ensures list { Rewritten self.old [] self.new }
        ensures len { length self.new.lent.memory.now ≡ length self.old.lent.memory.now }
    {
        self.lent.clear();
    }
}

impl<'m, V: Value> SlotList<'m, V> {
    ghost use Rattle.slots.specs.SlotLists.{records, change_answer, Rewritten};

    // Changes the value at each minute of the span, if the records at its ends find room.
    pub fn change<C: Change<V>>(&mut self, span: Span, how: &C) -> Result<(), Unchanged>
        ensures answer { result ≡ change_answer span.from span.until self.old.lent.room (records self.old) }
        ensures list { Rewritten self.old (if is_ok result then edited V.alike (C.changed how.now) span.from span.until self.old.floor (records self.old) else records self.old) self.new }
        ensures len { length self.new.lent.memory.now ≡ length self.old.lent.memory.now }
    {
        if span.until <= span.from {
            return Err(Unchanged::NoMinute);
        }
        let ends = ends_of(self.records(), self.floor, span);
        if self.lent.spare() < ends.start.lacks() + ends.end.lacks() {
            return Err(Unchanged::NoRoom);
        }
        settle(&mut self.lent, ends, span, how);
        Ok(())
    }
}
