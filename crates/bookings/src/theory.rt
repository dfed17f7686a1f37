// What is shown of bookings and their slot list: each function's contract is a theorem, for every kind.
// Stays: a theorem is asked for by the contract of a function of its own.
ghost use Rattle.bookings.specs.Theorems.{OrderIsFree, SlotsOfClaims, RowsInAnyOrder, UnitsConserved, SlotsRight, SlotsOnly, RemovalSound, AdditionSound, SlotsFew, SlotsAfterAdding, SlotsAfterRemoving, GrantRight};

pub fn order_is_free<L>()
    ensures { OrderIsFree L }
{}

pub fn slots_of_claims<L>()
    ensures { SlotsOfClaims L }
{}

pub fn rows_in_any_order<L>()
    ensures { RowsInAnyOrder L }
{}

pub fn units_conserved<L>()
    ensures { UnitsConserved L }
{}

pub fn slots_right<L>()
    ensures { SlotsRight L }
{}

pub fn slots_only<L>()
    ensures { SlotsOnly L }
{}

pub fn removal_sound<L>()
    ensures { RemovalSound L }
{}

pub fn addition_sound<L>()
    ensures { AdditionSound L }
{}

pub fn slots_few<L>()
    ensures { SlotsFew L }
{}

pub fn slots_after_adding<L>()
    ensures { SlotsAfterAdding L }
{}

pub fn slots_after_removing<L>()
    ensures { SlotsAfterRemoving L }
{}

pub fn grant_right<L>()
    ensures { GrantRight L }
{}
