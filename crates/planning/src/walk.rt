ghost use Rattle.std.specs.Prelude.{◌≡◌, suc, ◌-◌, ◌≤◌, true, List, length, drop};
ghost use Rattle.planning.specs.Rectangles.{opening_of, closing_of};
ghost use Rattle.planning.specs.Search.{joined_over};
ghost use Rattle.planning.specs.Walks.{upto, last_value, IsAround};
ghost use Rattle.slots.specs.Stepped.{at, ascends, Ascending};
ghost use Rattle.slots.specs.declared.slot.Slot.{Slot};

use slots::slot::Slot;
use units::kind::Units;

// The records around a minute: those that stand at or before it, the load that stands there, and those after it.
#[derive(Clone, Copy)]
pub(crate) struct Around<'a, L> {
    minute: u32,
    before: &'a [Slot<L>],
    here: L,
    after: &'a [Slot<L>],
}

// How many records stand at or before `minute`. It looks from the last one back.
fn count_upto<L: Units>(slots: &[Slot<L>], minute: u32) -> usize
    ensures within { result ≤ length slots.now }
    ensures which { Ascending 0 slots.now → result ≡ upto minute slots.now }
{
    slots
        .iter()
        .rposition(|slot| slot.minute <= minute)
        .map_or(0, |i| i + 1)
}

// The load that stands from the last of these records on.
fn last_load<L: Units>(slots: &[Slot<L>]) -> L
    ensures { result ≡ last_value L.kind.nothing slots.now }
{
    slots.last().map_or(L::nothing(), |slot| slot.value)
}

// Does `load` add nothing to `over`?
fn silent<L: Units>(over: L, load: L) -> bool
    ensures { result ≡ L.kind.same (L.kind.joined over load) over }
{
    over.joined(load).same(over)
}

impl<'a, L: Units> Around<'a, L> {
    // None of the records from `hint` on stands at or before the minute.
    pub(crate) fn new(slots: &'a [Slot<L>], hint: usize, minute: u32) -> Around<'a, L>
        requires { hint ≤ length slots.now }
        ensures minute { result.minute ≡ minute }
        ensures around { Ascending 0 slots.now → Ascending (suc minute) (drop hint slots.now) → IsAround L.kind.nothing slots.now result }
    {
        let (before, after) = slots.split_at(count_upto(&slots[..hint], minute));
        Around {
            minute,
            before,
            here: last_load(before),
            after,
        }
    }

    // The joined loads of the `duration` minutes from the minute on.
    pub(crate) fn joined(&self, duration: u32) -> L
        ensures { (xs : List (Slot L)) → IsAround L.kind.nothing xs self.now → result ≡ joined_over L.kind (at L.kind.nothing xs) self.now.minute duration }
    {
        if duration == 0 {
            return L::nothing();
        }
        let mut over = self.here;
        for slot in self.after {
            if duration <= slot.minute.saturating_sub(self.minute) {
                return over;
            }
            over = over.joined(slot.value);
        }
        over
    }

    // The first minute from which on, up to the minute, no load adds to `over`.
    pub(crate) fn opening(&self, over: L) -> u32
        ensures { (xs : List (Slot L)) → IsAround L.kind.nothing xs self.now → result ≡ opening_of L.kind (at L.kind.nothing xs) over self.now.minute }
    {
        let mut open = self.minute;
        for slot in self.before.iter().rev() {
            if slot.minute < open {
                if !silent(over, slot.value) {
                    return open;
                }
                open = slot.minute;
            }
        }
        0
    }

    // The first minute from the minute on whose load adds to `over`, or the horizon.
    pub(crate) fn closing(&self, over: L, horizon: u32) -> u32
        ensures { (xs : List (Slot L)) → IsAround L.kind.nothing xs self.now → result ≡ closing_of L.kind (at L.kind.nothing xs) over self.now.minute (horizon - self.now.minute) }
    {
        if horizon <= self.minute || !silent(over, self.here) {
            return self.minute;
        }
        for slot in self.after {
            if !silent(over, slot.value) {
                return horizon.min(slot.minute);
            }
        }
        horizon
    }
}

// The joined loads of the `duration` minutes from `start` on.
pub fn joined_over<L: Units>(slots: &[Slot<L>], start: u32, duration: u32) -> L
    ensures { ascends 0 slots.now ≡ true → result ≡ joined_over L.kind (at L.kind.nothing slots.now) start duration }
{
    Around::new(slots, slots.len(), start).joined(duration)
}
