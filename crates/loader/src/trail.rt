// The path of the innermost open node.
ghost use Rattle.std.specs.Prelude.{◌≡◌, ◌≤◌, cond, nat_le, [], ◌∷◌, length, slice_index_or};
ghost use Rattle.names.specs.Paths.{root, child, parent};
ghost use Rattle.store.specs.Calls.{tested};
ghost use Rattle.store.specs.declared.Refusal.TheVariants.{Limit};

use names::paths::{SLASH, parent_of, stem_len};
use store::Refusal;
use tree::counts::MAX_PATH;

// The first `len` bytes are the path. It begins with a slash and has at most 255 bytes. An array with a length beside it, since it is `Copy`,
// which an `ArrayVec` is not.
#[derive(Clone, Copy)]
pub struct Trail {
    pub bytes: [u8; 256],
    pub len: usize,
    pub ghost least: { 1 ≤ len },
    pub ghost most: { len ≤ 255 },
    pub ghost slash: { slice_index_or bytes 0 0 ≡ 47 },
    pub ghost held: { len ≤ length bytes },
}

impl Trail {
    ghost use Rattle.loader.specs.Trails.{path_on};

    // At the root.
    pub(crate) fn new() -> Trail
        ensures { path_on result ≡ root }
    {
        Trail {
            bytes: [SLASH; 256],
            len: 1,
        }
    }

    // Goes on to a child, unless its path is too long.
    pub(crate) fn enter(&mut self, name: &[u8]) -> Result<(), Refusal>
        ensures answer { result ≡ tested ((nat_le (length (child (path_on self.old) name.now)) 255, Limit) ∷ []) tt }
        ensures path { path_on self.new ≡ cond (nat_le (length (child (path_on self.old) name.now)) 255) (child (path_on self.old) name.now) (path_on self.old) }
    {
        let from = stem_len(self.path());
        if from + 1 + name.len() > MAX_PATH {
            return Err(Refusal::Limit);
        }
        let to = from + 1 + name.len();
        self.bytes[from] = SLASH;
        self.bytes[from + 1..to].copy_from_slice(name);
        self.len = to;
        Ok(())
    }

    // Goes back to the parent; from the root nowhere.
    pub(crate) fn leave(&mut self)
        ensures { path_on self.new ≡ parent (path_on self.old) }
    {
        let len = parent_of(self.path()).len();
        self.len = len;
    }

    // The path itself.
    pub(crate) fn path(&self) -> &[u8]
        ensures { result.now ≡ path_on self.now }
    {
        &self.bytes[0..self.len]
    }
}
