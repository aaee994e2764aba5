// A cursor over the nodes of a readable tree in document order.
ghost use Rattle.std.specs.Prelude.{◌≡◌, true, [], take};
ghost use Rattle.walk.specs.Nodes.{Gives};
ghost use Rattle.walk.specs.Steps.{walks};

use crate::walk::{PATH_ROOM, next_node};
use arrayvec::ArrayVec;
use store::{Readable, Refusal};

// Where it stands: nowhere yet, where the path is empty, or at a node. The walk is lent the array, so the length stands beside it.
#[derive(Drop)]
pub struct Nodes<'a, R: Readable> {
    tree: &'a R,
    path: [u8; PATH_ROOM],
    len: usize,
    ghost walking: { walks (R.Readable.meaning tree.now) (take len path) ≡ true },
}

impl<'a, R: Readable> Nodes<'a, R> {
    // Before the root.
    pub fn new(tree: &'a R) -> Nodes<'a, R>
        ensures tree { result.tree.now ≡ tree.now }
        ensures start { take result.len result.path ≡ [] }
    {
        Nodes {
            tree,
            path: [0; PATH_ROOM],
            len: 0,
        }
    }

    // The path of the next node, or none behind the last. It is no iterator: behind a refusal one would have to end, by a flag.
    pub fn next(&mut self) -> Result<Option<ArrayVec<u8, PATH_ROOM>>, Refusal>
        ensures tree { self.new.tree ≡ self.old.tree }
        ensures answer { Gives (R.Readable.meaning self.old.tree.now) (take self.old.len self.old.path) result (take self.new.len self.new.path) }
    {
        let Some(len) = next_node(self.tree, &mut self.path, self.len)? else {
            return Ok(None);
        };
        self.len = len;
        let mut path = ArrayVec::from(self.path);
        path.truncate(len);
        Ok(Some(path))
    }
}
