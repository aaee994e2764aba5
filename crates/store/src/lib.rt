// Readable trees and stores: the traits, and what every call of theirs promises.
#![tactic(auto)]

ghost use Rattle.std.specs.Prelude.{◌≡◌, [], length, Some, None};
ghost use Rattle.store.specs.Calls.{Meaning, Good, has_node, value_at, length_of, copied, filled, next_child, next_property, named, boot_of, add_node, drop_node, set_property, drop_property, changed, settled};
ghost use Rattle.store.specs.Laws.{StoreLaws};
ghost use Rattle.tree.specs.Places.{node_at, property_at};

// The longest name, and so what a buffer for names has to hold.
pub const NAME_ROOM: usize = 63;

// Why a call is refused.
#[derive(Clone, Copy, PartialEq, Eq, Debug)]
pub enum Refusal {
    // a path or a name breaks the rules
    BadName,
    // the node or the property is not there
    Absent,
    // the node is there already
    Present,
    // the node is the root, or has children or properties
    InUse,
    // a limit would be passed
    Limit,
    // the buffer is too short
    Short,
    // nothing was opened yet
    Closed,
}

// A tree that answers questions. They change nothing; a refused one leaves the buffer as it was. Paths, names and buffers come one
// by one, as the bytes that a caller has: a type that held a path with a name would have to be made for each call.
pub trait Readable {
    ghost meaning: { Self → Meaning };

    ghost good: { (s : Self) → Good (meaning s) };

    // Whether a node is there.
    fn has_node(&self, path: &[u8]) -> Result<bool, Refusal>
        ensures { result ≡ has_node (meaning self.now) path.now };

    // The length of a property's value, or none where it is absent.
    fn value_len(&self, path: &[u8], name: &[u8]) -> Result<Option<usize>, Refusal>
        ensures { result ≡ length_of (value_at (meaning self.now) path.now name.now) };

    // Copies a property's value to the start of the buffer and answers its length.
    fn copy_value(&self, path: &[u8], name: &[u8], out: &mut [u8]) -> Result<usize, Refusal>
        ensures answer { result ≡ copied (value_at (meaning self.now) path.now name.now) (length out.old) }
        ensures buffer { out.new ≡ filled (value_at (meaning self.now) path.now name.now) out.old };

    // Copies the name of the next child after a given name; the empty one starts.
    fn next_child(
        &self,
        path: &[u8],
        after: &[u8],
        out: &mut [u8],
    ) -> Result<Option<usize>, Refusal>
        ensures answer { result ≡ length_of (next_child (meaning self.now) path.now after.now (length out.old)) }
        ensures buffer { out.new ≡ named (next_child (meaning self.now) path.now after.now (length out.old)) out.old };

    // Copies the name of the next property after a given name; the empty one starts.
    fn next_property(
        &self,
        path: &[u8],
        after: &[u8],
        out: &mut [u8],
    ) -> Result<Option<usize>, Refusal>
        ensures answer { result ≡ length_of (next_property (meaning self.now) path.now after.now (length out.old)) }
        ensures buffer { out.new ≡ named (next_property (meaning self.now) path.now after.now (length out.old)) out.old };

    // The boot CPU number.
    fn boot_cpu(&self) -> Result<u32, Refusal>
        ensures { result ≡ boot_of (meaning self.now) };
}

// A readable tree that can also be written. An accepted write changes its place alone, a refused one nothing.
pub trait Store: Readable {
    fn add_node(&mut self, path: &[u8]) -> Result<(), Refusal>
        ensures answer { result ≡ add_node (Self.Readable.meaning self.old) path.now }
        ensures after { Self.Readable.meaning self.new ≡ settled result (changed (Self.Readable.meaning self.old) (node_at path.now) (Some [])) (Self.Readable.meaning self.old) };

    fn drop_node(&mut self, path: &[u8]) -> Result<(), Refusal>
        ensures answer { result ≡ drop_node (Self.Readable.meaning self.old) path.now }
        ensures after { Self.Readable.meaning self.new ≡ settled result (changed (Self.Readable.meaning self.old) (node_at path.now) None) (Self.Readable.meaning self.old) };

    fn set_property(&mut self, path: &[u8], name: &[u8], value: &[u8]) -> Result<(), Refusal>
        ensures answer { result ≡ set_property (Self.Readable.meaning self.old) path.now name.now value.now }
        ensures after { Self.Readable.meaning self.new ≡ settled result (changed (Self.Readable.meaning self.old) (property_at path.now name.now) (Some value.now)) (Self.Readable.meaning self.old) };

    fn drop_property(&mut self, path: &[u8], name: &[u8]) -> Result<(), Refusal>
        ensures answer { result ≡ drop_property (Self.Readable.meaning self.old) path.now name.now }
        ensures after { Self.Readable.meaning self.new ≡ settled result (changed (Self.Readable.meaning self.old) (property_at path.now name.now) None) (Self.Readable.meaning self.old) };
}

// What the calls' definitions promise, over every tree by the rules.
pub fn store_laws_stand()
    ensures { StoreLaws }
{}
