// What is shown of stepped lists: each function's contract is a theorem, and it does nothing.
// Stays: a theorem is asked for by the contract of a function of its own.
ghost use Rattle.slots.specs.Theorems.{EditedRight, SlotsUnique, RoomEnough};

pub fn slots_unique<V>()
    ensures { SlotsUnique V }
{}

pub fn edited_right<V>()
    ensures { EditedRight V }
{}

pub fn room_enough<V>()
    ensures { RoomEnough V }
{}
