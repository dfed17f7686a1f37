// The trait of a kind of unit.
ghost use Rattle.std.specs.Prelude.{◌≡◌};
ghost use Rattle.units.specs.Kinds.{Kind, Lawful};

use slots::value::Value;

// The load of a kind of unit: what is taken at one minute. A claim, what one booking takes, has the same form.
pub trait Units: Value {
    ghost kind: { Kind Self };

    // The most units that a board of this kind may have.
    fn most() -> u32
        ensures { result ≡ kind.most };

    // The load of an idle minute.
    fn nothing() -> Self
        ensures { result ≡ kind.nothing };

    // One load that covers both.
    fn joined(self, other: Self) -> Self
        ensures { result ≡ kind.joined self other };

    // May the claim be put on this load?
    fn is_clear(self, claim: Self, capacity: u32) -> bool
        ensures { result ≡ kind.clear capacity claim self };

    // This load with the claim on it.
    fn put(self, claim: Self, capacity: u32) -> Self
        ensures { result ≡ kind.put capacity claim self };

    // This load without the claim.
    fn lift(self, claim: Self) -> Self
        ensures { result ≡ kind.lift claim self };

    // How many units this claim takes.
    fn size(self) -> u64
        ensures { result ≡ kind.size self };

    // How many units this load leaves.
    fn free(self, capacity: u32) -> u32
        ensures { result ≡ kind.free capacity self };

    // A claim of the wanted size that is clear of this load, or none where fewer units are free.
    fn pick(self, wanted: u32, capacity: u32) -> Option<Self>
        ensures { result ≡ kind.pick capacity wanted self };

    ghost keeps: { Lawful kind };
}
