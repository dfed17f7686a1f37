// The numbers of a rectangle by which a policy may rank it.
ghost use Rattle.std.specs.Prelude.{◌≡◌, ℕ, ◌≤◌, true};
ghost use Rattle.planning.specs.Rules.{stretch, product};
ghost use Rattle.planning.specs.declared.rectangle.Rectangle.{Rectangle};

use crate::rectangle::Rectangle;

// A number that is read off a rectangle.
// Stays: a closure in its place would ask of the caller that it may be called.
pub trait Measure {
    ghost number: { Rectangle → ℕ };

    fn of(&self, r: &Rectangle) -> u64
        ensures { result ≡ number r.now };

    // Is the number of a rectangle that starts no earlier never lower?
    fn rises_with_start(&self) -> bool
        ensures { result ≡ true → (q r : Rectangle) → r.start ≤ q.start → number r ≤ number q }
    {
        false
    }
}

// The minute at which it starts.
#[derive(Clone, Copy)]
pub struct Start;

impl Measure for Start {
    ghost number = { λ r. r.start };

    fn of(&self, r: &Rectangle) -> u64 {
        u64::from(r.start)
    }

    fn rises_with_start(&self) -> bool {
        true
    }
}

// Its free units.
#[derive(Clone, Copy)]
pub struct FreeUnits;

impl Measure for FreeUnits {
    ghost number = { λ r. r.units };

    fn of(&self, r: &Rectangle) -> u64 {
        u64::from(r.units)
    }
}

// How many minutes it lasts.
#[derive(Clone, Copy)]
pub struct Stretch;

impl Measure for Stretch {
    ghost number = { stretch };

    fn of(&self, r: &Rectangle) -> u64 {
        u64::from(r.closing.saturating_sub(r.opening))
    }
}

// Its free units times its minutes.
#[derive(Clone, Copy)]
pub struct Product;

impl Measure for Product {
    ghost number = { product };

    fn of(&self, r: &Rectangle) -> u64 {
        FreeUnits.of(r) * Stretch.of(r)
    }
}
