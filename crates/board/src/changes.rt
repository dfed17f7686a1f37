// What a booking that comes or goes does to a load.
use slots::change::Change;
use units::kind::Units;

// Puts a claim on.
// Stays: this and `Lift` are two definitions of a kind, of which only one needs the capacity.
#[derive(Clone, Copy)]
pub struct Put<L> {
    pub capacity: u32,
    pub claim: L,
}

impl<L: Units> Change<L> for Put<L> {
    ghost changed = { λ p v. L.Units.kind.put p.capacity p.claim v };

    fn apply(&self, value: L) -> L {
        value.put(self.claim, self.capacity)
    }
}

// Lifts a claim.
#[derive(Clone, Copy)]
pub struct Lift<L> {
    pub claim: L,
}

impl<L: Units> Change<L> for Lift<L> {
    ghost changed = { λ p v. L.Units.kind.lift p.claim v };

    fn apply(&self, value: L) -> L {
        value.lift(self.claim)
    }
}
