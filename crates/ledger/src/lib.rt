// The ledger of a stack and the promise over every history, as definitions in specs/. This code only names the theorems, so that
// the check demands their proofs.
#![tactic(auto)]

ghost use Rattle.ledger.specs.Examples.{Worked, Refusals, NoMistakes, Premises};
ghost use Rattle.ledger.specs.Logs.{LogLaws};
ghost use Rattle.ledger.specs.Promises.{EveryHistory, Invariant, Striking, Plugging, AnsweredOffset};

// The worked examples, computed.
pub fn worked_examples_stand()
    ensures { Worked }
{}

// The refusals of the calls, with their places, computed.
pub fn refusals_stand()
    ensures { Refusals }
{}

// The promise over every history of calls.
pub fn every_history_is_promised()
    ensures { EveryHistory }
{}

// Opening establishes the ledger's invariant, every call keeps it, and it gives the promise.
pub fn invariant_is_kept()
    ensures { Invariant }
{}

// A line that no later one touches is struck by restoring its record, and every tree on the way is one by the rules.
pub fn untouched_line_is_struck()
    ensures { Striking }
{}

// A plug that the plan and the space allow: its offset, and its writes one after the other.
pub fn plug_has_room()
    ensures { Plugging }
{}

// The offset that a plug answers is the largest phandle of the tree.
pub fn offset_is_largest_phandle()
    ensures { AnsweredOffset }
{}

// Mistakes that the rules exclude, computed: another offset at unplugging, a target in the half-merged tree, space by the present weight.
pub fn mistakes_are_impossible()
    ensures { NoMistakes }
{}

// The worked examples meet the premises of the theorems, so that none is empty.
pub fn premises_hold()
    ensures { Premises }
{}

// The entries of all lines in one list, each with its socket: restoring, striking and the earliest blocker by one pass over it.
pub fn log_tells_lines()
    ensures { LogLaws }
{}
