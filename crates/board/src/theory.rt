// What is shown of every board: each function's contract is a theorem, for every kind.
// Stays: a theorem is asked for by the contract of a function of its own.
ghost use Rattle.board.specs.FileTheorems.{LoadsKeep, LoadsLeave, SavedLoads, AcceptedIsSaved};
ghost use Rattle.board.specs.Theorems.{CallsKeep, StayPut};

// Every call leaves a board whose slot list is the one of its rows, which are sound and in order.
pub fn calls_keep<L>()
    ensures { CallsKeep L }
{}

// No call moves or changes another booking's number, start, end or claim.
pub fn bookings_stay_put<L>()
    ensures { StayPut L }
{}

// So does the load of any bytes.
pub fn loads_keep<L>()
    ensures { LoadsKeep L }
{}

// While a booking stands, a load changes nothing.
pub fn loads_leave<L>()
    ensures { LoadsLeave L }
{}

// A saved board is loaded as its equal by any empty board of its kind with rows enough.
pub fn saved_boards_load<L>()
    ensures { SavedLoads L }
{}

// An accepted file is byte for byte what saving the loaded board writes.
pub fn accepted_files_are_saved<L>()
    ensures { AcceptedIsSaved L }
{}
