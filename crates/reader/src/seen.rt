// The names that the open nodes have so far, by the offsets where they begin in the blob. An open node's own are above
// those of the nodes around it: of its properties while it has no child, then of its children.
ghost use Rattle.std.specs.Prelude.{◌≡◌, ◌<◌, ◌≤◌, [], ◌∷◌, ◌++◌, drop};
ghost use Rattle.std.specs.List.{list_any};
ghost use Rattle.arrayvec.specs.ArrayVec.{array_vec_len};
ghost use Rattle.reader.specs.Seen.{begins};

use arrayvec::ArrayVec;
use tree::counts::{MAX_NODES, MAX_PROPERTIES};

// All properties and nodes have room.
pub const CAPACITY: usize = MAX_NODES + MAX_PROPERTIES;

#[derive(Drop)]
pub struct Seen {
    pub at: ArrayVec<usize, CAPACITY>,
}

// Does the name stand at the offset, with a zero byte behind it? That byte comes first, since most names differ in length.
fn stands_at(bytes: &[u8], at: usize, name: &[u8]) -> bool
    ensures { result ≡ begins name.now (drop at bytes.now) }
{
    let Some(rest) = bytes.get(at..) else {
        return false;
    };
    let Some((text, behind)) = rest.split_at_checked(name.len()) else {
        return false;
    };
    behind.starts_with(&[0]) && text == name
}

impl Seen {
    pub(crate) fn new() -> Seen
        ensures { result.at.items ≡ [] }
    {
        Seen {
            at: ArrayVec::new(),
        }
    }

    // Is the name among those from `base` on?
    pub(crate) fn has(&self, bytes: &[u8], base: usize, name: &[u8]) -> bool
        ensures { result ≡ list_any (λ o. begins name.now (drop o bytes.now)) (drop base self.now.at.items) }
    {
        // From a slice of these: the library's `skip` would pass the others one by one.
        let Some(own) = self.at.as_slice().get(base..) else {
            return false;
        };
        own.iter().any(|at| stands_at(bytes, *at, name))
    }

    // One name more.
    pub(crate) fn push(&mut self, offset: usize)
        requires { array_vec_len self.old.at < CAPACITY }
        ensures { self.new.at.items ≡ self.old.at.items ++ (offset ∷ []) }
    {
        self.at.push(offset);
    }
}
