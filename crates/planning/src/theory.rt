//! The theorems of the search: the contract of each function is one, over every kind.
// Stays: a theorem is asked for by the contract of a function of its own.
ghost use Rattle.std.specs.Prelude.{◌≡◌};
ghost use Rattle.planning.specs.Rules.{earliest_start, fewest_free, most_free, shortest_stretch, longest_stretch, smallest_product, largest_product};
ghost use Rattle.planning.specs.Theorems.{FreeFalls, ClaimExists, FitsIsClear, Startable, SearchComplete, SearchSound, RectangleLongest, ChoiceBest, ChoiceOnly, AnyOrder};

use crate::measure::{FreeUnits, Product, Start, Stretch};
use crate::policy::*;

// A load that covers more leaves no more free.
pub fn free_falls<L>()
    ensures { FreeFalls L }
{}

// A claim of so many units exists exactly where as many are free.
pub fn claim_exists<L>()
    ensures { ClaimExists L }
{}

// A claim fits throughout a stretch exactly when it is clear of the joined loads.
pub fn fits_is_clear<L>()
    ensures { FitsIsClear L }
{}

// A request can start exactly where the units that it wants are free throughout.
pub fn startable<L>()
    ensures { Startable L }
{}

// Where a request can start in its window, some candidate is feasible.
pub fn search_complete<L>()
    ensures { SearchComplete L }
{}

// At each feasible candidate the request can start.
pub fn search_sound<L>()
    ensures { SearchSound L }
{}

// The rectangle of a start is the longest stretch around it that adds nothing.
pub fn rectangle_longest<L>()
    ensures { RectangleLongest L }
{}

// None is preferred to the rectangle that is chosen, and none as good is earlier.
pub fn choice_best()
    ensures { ChoiceBest }
{}

// No other start is so.
pub fn choice_only()
    ensures { ChoiceOnly }
{}

// The starts may be tried in any order.
pub fn any_order<L>()
    ensures { AnyOrder L }
{}

// Each policy prefers as the rules say of it.
pub fn policies_named()
    ensures earliest_start { ⟦<Least<Start> as Policy>⟧.preference EARLIEST_START ≡ earliest_start }
    ensures fewest_free { ⟦<Least<FreeUnits> as Policy>⟧.preference FEWEST_FREE ≡ fewest_free }
    ensures most_free { ⟦<Most<FreeUnits> as Policy>⟧.preference MOST_FREE ≡ most_free }
    ensures shortest_stretch { ⟦<Least<Stretch> as Policy>⟧.preference SHORTEST_STRETCH ≡ shortest_stretch }
    ensures longest_stretch { ⟦<Most<Stretch> as Policy>⟧.preference LONGEST_STRETCH ≡ longest_stretch }
    ensures smallest_product { ⟦<Least<Product> as Policy>⟧.preference SMALLEST_PRODUCT ≡ smallest_product }
    ensures largest_product { ⟦<Most<Product> as Policy>⟧.preference LARGEST_PRODUCT ≡ largest_product }
{}
