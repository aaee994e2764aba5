// A tree as a blob in lent memory, edited in place.
#![tactic(auto)]

ghost use Rattle.packed.specs.Stands.{TokenLaws, NodeLaws};

pub mod putting;
pub mod reading;
pub mod region;

// What holds of the blob of a list of nodes.
pub fn packing_stands()
    ensures tokens { TokenLaws }
    ensures nodes { NodeLaws }
{}
