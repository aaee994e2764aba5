// The model of a tree: places, trees, limits, phandles, located entries, in specs/; what is counted of a tree; and the
// laws that the other crates rest on, named so that the check demands their proofs.
#![tactic(auto)]

ghost use Rattle.tree.specs.EntryLaws.{ListedSound};
ghost use Rattle.tree.specs.MapLaws.{PlacesLawful, PlacesOrdered};

pub mod counts;
pub mod numbers;

// Look-up and change of places; the proof is over any key with a total order.
pub fn places_lawful()
    ensures { PlacesLawful }
{}

// Document order is a total order of places, so that the laws of maps hold of trees.
pub fn places_ordered()
    ensures { PlacesOrdered }
{}

// Entries in a good order, as a blob lists them, make a tree by the rules.
pub fn listed_sound()
    ensures { ListedSound }
{}
