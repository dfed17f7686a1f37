//! The promise over whole lines of calls: each function's contract is a theorem.
#![tactic(auto)]

// Stays: a theorem is asked for by the contract of a function of its own.
ghost use Rattle.lines.specs.FiledLines.{FiledLine, Begins};
ghost use Rattle.lines.specs.FiledPromise.{FiledPromise, FiledLinesPromise};
ghost use Rattle.lines.specs.Lines.{Line};
ghost use Rattle.lines.specs.Promise.{Promise, LinesPromise};

use boardfile::filed::Filed;
use units::kind::Units;

// At every point of every line of calls, for every lawful kind and under any policies.
pub fn lines_keep_their_promise<L>()
    ensures { LinesPromise L }
{}

// The same for each kind of unit that boards are made of.
pub fn boards_keep_their_promise<L: Units>()
    ensures { (line : Line L) → Promise L.Units.kind line }
{}

// At every point of every line of calls and loads, however claims are filed.
pub fn lines_with_loads_keep_their_promise<L>()
    ensures { FiledLinesPromise L }
{}

// The same for each kind whose boards have files, with the files that they load and save.
pub fn filed_boards_keep_their_promise<L: Filed>()
    ensures { (line : FiledLine L) → Begins L.Units.kind line → FiledPromise L.Units.kind L.Filed.filing line }
{}
