ghost use Rattle.std.specs.Prelude.{◌≡◌, true};
ghost use Rattle.planning.specs.Policies.{Preference};
ghost use Rattle.planning.specs.Rules.{lower, turned};
ghost use Rattle.planning.specs.Tries.{EarlierFirst};

use crate::measure::{FreeUnits, Measure, Product, Start, Stretch};
use crate::rectangle::Rectangle;

// Stays: a closure in its place would ask of the caller that it may be called, and could not say that an earlier start goes first.
// Which of two rectangles is preferred.
pub trait Policy {
    ghost preference: { Self → Preference };

    fn prefers(&self, a: &Rectangle, b: &Rectangle) -> bool
        ensures { result ≡ (preference self.now).prefers a.now b.now };

    // Is no rectangle ever preferred to one that starts as early? A search may then pass over the later starts.
    fn earlier_first(&self) -> bool
        ensures { result ≡ true → EarlierFirst (preference self.now) }
    {
        false
    }
}

// The rectangle whose number is lower is preferred.
// Stays: this and `Most` are the two senses of one ranking, and a flag for the sense would hide which one a policy is.
#[derive(Clone, Copy)]
pub struct Least<M>(pub M);

impl<M: Measure> Policy for Least<M> {
    ghost preference = { λ _. lower M.number };

    fn prefers(&self, a: &Rectangle, b: &Rectangle) -> bool {
        self.0.of(a) < self.0.of(b)
    }

    fn earlier_first(&self) -> bool {
        self.0.rises_with_start()
    }
}

// The one whose number is higher.
#[derive(Clone, Copy)]
pub struct Most<M>(pub M);

impl<M: Measure> Policy for Most<M> {
    ghost preference = { λ _. turned (lower M.number) };

    fn prefers(&self, a: &Rectangle, b: &Rectangle) -> bool {
        self.0.of(a) > self.0.of(b)
    }
}

pub const EARLIEST_START: Least<Start> = Least(Start);

pub const FEWEST_FREE: Least<FreeUnits> = Least(FreeUnits);

pub const MOST_FREE: Most<FreeUnits> = Most(FreeUnits);

pub const SHORTEST_STRETCH: Least<Stretch> = Least(Stretch);

pub const LONGEST_STRETCH: Most<Stretch> = Most(Stretch);

pub const SMALLEST_PRODUCT: Least<Product> = Least(Product);

pub const LARGEST_PRODUCT: Most<Product> = Most(Product);
