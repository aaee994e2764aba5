// What the stores share: a tape of nodes, each before all that is below it, and the calls on it.
#![tactic(auto)]

ghost use Rattle.std.specs.Prelude.{◌≡◌, ℕ, ◌+◌, ◌<◌, ◌≤◌, true, List, ◌∷◌, length, slice_set};
ghost use Rattle.tape.specs.declared.Mark.{Mark};
ghost use Rattle.tape.specs.declared.Spot.{Spot};
ghost use Rattle.tape.specs.Nodes.{Node, valid};
ghost use Rattle.tape.specs.Tapes.{Here, On, Reads, Counted, nth, property_of, properties_at, bare_node, with_node, less_node, with_properties, less_property};

pub mod iters;
pub mod questions;
pub mod search;
pub mod writes;

use tree::counts::Counts;

// Where a node is: its index, that of the next property, and where its bytes begin.
#[derive(Clone, Copy)]
pub struct Spot {
    pub node: usize,
    pub property: usize,
    pub at: usize,
}

// Where a property is: the index of its node, its number there, its own index, and where its bytes begin.
#[derive(Clone, Copy)]
pub struct Mark {
    pub node: usize,
    pub number: usize,
    pub property: usize,
    pub at: usize,
}

// A node as it is read: how many properties it has, where the first is, and where the next node is.
#[derive(Clone, Copy)]
pub struct Head {
    pub depth: usize,
    pub properties: usize,
    pub first: Mark,
    pub next: Spot,
}

// A list of nodes in memory, with its tree's boot CPU number. Without nodes it is closed. That a spot or a mark is a node's or
// a property's is asked of each call, since a type that carried it would borrow the tape, and no write could be made by it.
pub trait Tape {
    ghost nodes: { Self → List Node };

    ghost boot: { Self → ℕ };

    ghost sound: { (s : Self) → valid (boot s) (nodes s) ≡ true };

    ghost spot: { Self → ℕ → Spot };

    ghost mark: { Self → ℕ → ℕ → Mark };

    ghost spotted: { (s : Self) (i : ℕ) → (spot s i).node ≡ i };

    ghost numbered: { (s : Self) (i k : ℕ) → ((mark s i k).node ≡ i) × ((mark s i k).number ≡ k) };

    fn counts(&self) -> Counts
        ensures { Counted (nodes self.now) result };

    fn boot_number(&self) -> u32
        ensures { result ≡ boot self.now };

    // The root's spot.
    fn start(&self) -> Spot
        ensures { result ≡ spot self.now 0 };

    fn head(&self, s: Spot) -> Head
        requires { Here (nodes self.now) (spot self.now) s }
        ensures { Reads (nodes self.now) (spot self.now) (mark self.now) s result };

    fn name(&self, s: Spot) -> &[u8]
        requires { Here (nodes self.now) (spot self.now) s }
        ensures { result.now ≡ (nth (nodes self.now) s.node).name };

    // The mark of the node's next property.
    fn behind(&self, m: Mark) -> Mark
        requires { On (nodes self.now) (mark self.now) m }
        ensures { result ≡ mark self.now m.node (m.number + 1) };

    fn property_name(&self, m: Mark) -> &[u8]
        requires { On (nodes self.now) (mark self.now) m }
        ensures { result.now ≡ (property_of (nodes self.now) m.node m.number).0 };

    fn value(&self, m: Mark) -> &[u8]
        requires { On (nodes self.now) (mark self.now) m }
        ensures { result.now ≡ (property_of (nodes self.now) m.node m.number).1 };

    // Puts a node without properties where the spot is.
    fn insert_node(&mut self, s: Spot, depth: usize, name: &[u8])
        requires opened { 0 < length (nodes self.old) }
        requires place { (s.node ≤ length (nodes self.old)) × (s ≡ spot self.old s.node) }
        requires sound { valid (boot self.old) (with_node (nodes self.old) s.node (bare_node depth name.now)) ≡ true }
        ensures nodes { nodes self.new ≡ with_node (nodes self.old) s.node (bare_node depth name.now) }
        ensures boot { boot self.new ≡ boot self.old };

    // Takes out a node that has no properties.
    fn remove_node(&mut self, s: Spot)
        requires here { Here (nodes self.old) (spot self.old) s }
        requires bare { length (properties_at (nodes self.old) s.node) ≡ 0 }
        requires sound { valid (boot self.old) (less_node (nodes self.old) s.node) ≡ true }
        ensures nodes { nodes self.new ≡ less_node (nodes self.old) s.node }
        ensures boot { boot self.new ≡ boot self.old };

    // Puts a property in front of those of the node.
    fn insert_property(&mut self, s: Spot, name: &[u8], value: &[u8])
        requires here { Here (nodes self.old) (spot self.old) s }
        requires sound { valid (boot self.old) (with_properties (nodes self.old) s.node ((name.now, value.now) ∷ properties_at (nodes self.old) s.node)) ≡ true }
        ensures nodes { nodes self.new ≡ with_properties (nodes self.old) s.node ((name.now, value.now) ∷ properties_at (nodes self.old) s.node) }
        ensures boot { boot self.new ≡ boot self.old };

    // Takes out a property of the node at `s`, which keeps its spot.
    fn remove_property(&mut self, s: Spot, m: Mark)
        requires here { Here (nodes self.old) (spot self.old) s }
        requires on { On (nodes self.old) (mark self.old) m × (m.node ≡ s.node) }
        requires sound { valid (boot self.old) (with_properties (nodes self.old) s.node (less_property (properties_at (nodes self.old) s.node) m.number)) ≡ true }
        ensures nodes { nodes self.new ≡ with_properties (nodes self.old) s.node (less_property (properties_at (nodes self.old) s.node) m.number) }
        ensures boot { boot self.new ≡ boot self.old }
        ensures same { spot self.new s.node ≡ spot self.old s.node };

    // Writes another value of the same length.
    fn overwrite(&mut self, m: Mark, value: &[u8])
        requires on { On (nodes self.old) (mark self.old) m }
        requires length { length value.now ≡ length (property_of (nodes self.old) m.node m.number).1 }
        requires sound { valid (boot self.old) (with_properties (nodes self.old) m.node (slice_set (properties_at (nodes self.old) m.node) m.number ((property_of (nodes self.old) m.node m.number).0, value.now))) ≡ true }
        ensures nodes { nodes self.new ≡ with_properties (nodes self.old) m.node (slice_set (properties_at (nodes self.old) m.node) m.number ((property_of (nodes self.old) m.node m.number).0, value.now)) }
        ensures boot { boot self.new ≡ boot self.old };
}
