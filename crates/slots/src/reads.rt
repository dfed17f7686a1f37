// What the records say of a minute, and where a span's ends lie among them.
ghost use Rattle.std.specs.Prelude.{◌≡◌, ◌+◌, ◌≤◌, length, drop};
ghost use Rattle.slots.specs.Stepped.{at};
ghost use Rattle.slots.specs.Steps.{place, last_of, Found, put_of};

use crate::slot::Slot;
use crate::span::Span;

// Where a record at a minute stands, or goes: its place, the value that stands before it, and the record to put there, if none stands.
#[derive(Clone, Copy)]
pub(crate) struct Spot<V> {
    pub(crate) place: usize,
    pub(crate) before: V,
    pub(crate) lacking: Option<Slot<V>>,
}

// The spots of a span's start and end. The end's place is counted from the start's on.
#[derive(Clone, Copy)]
pub(crate) struct Ends<V> {
    pub(crate) start: Spot<V>,
    pub(crate) end: Spot<V>,
}

impl<V: Copy> Spot<V> {
    // How many records are to be put there.
    pub(crate) fn lacks(self) -> usize
        ensures { result ≡ length (put_of self) }
    {
        usize::from(self.lacking.is_some())
    }
}

// How many records stand before `minute`, up to the first that does not.
fn place_of<V: Copy>(slots: &[Slot<V>], minute: u32) -> usize
    ensures { result ≡ place minute slots.now }
{
    for (i, s) in slots.iter().enumerate() {
        if minute <= s.minute {
            return i;
        }
    }
    slots.len()
}

// The value after the records, where `floor` stands before them.
pub(crate) fn value_after<V: Copy>(slots: &[Slot<V>], floor: V) -> V
    ensures { result ≡ last_of floor slots.now }
{
    match slots.last() {
        Some(s) => s.value,
        None => floor,
    }
}

// The value at `minute`, where `floor` stands before the records.
pub(crate) fn value_at<V: Copy>(slots: &[Slot<V>], floor: V, minute: u32) -> V
    ensures { result ≡ at floor slots.now minute }
{
    let mut value = floor;
    for s in slots {
        if s.minute <= minute {
            value = s.value;
        }
    }
    value
}

// Where a record at `minute` stands, or goes.
fn spot_of<V: Copy>(slots: &[Slot<V>], floor: V, minute: u32) -> Spot<V>
    ensures found { Found minute floor slots.now result }
    ensures inside { result.place ≤ length slots.now }
{
    let place = place_of(slots, minute);
    let (front, rest) = slots.split_at(place);
    let before = value_after(front, floor);
    let lacking = match rest.first() {
        Some(s) if s.minute == minute => None,
        _ => Some(Slot {
            minute,
            value: before,
        }),
    };
    Spot {
        place,
        before,
        lacking,
    }
}

// The same of both ends of a span, where the end is looked for from the start on.
pub(crate) fn ends_of<V: Copy>(slots: &[Slot<V>], floor: V, span: Span) -> Ends<V>
    ensures start { Found span.from floor slots.now result.start }
    ensures end { Found span.until result.start.before (drop result.start.place slots.now) result.end }
    ensures inside { result.start.place + result.end.place ≤ length slots.now }
{
    let start = spot_of(slots, floor, span.from);
    let end = spot_of(&slots[start.place..], start.before, span.until);
    Ends { start, end }
}
