// The nodes of a readable tree in document order, by questions alone.
ghost use Rattle.std.specs.Prelude.{◌≡◌, ◌+◌, ◌<◌, ◌≤◌, [], ◌∷◌, ◌++◌, length, take, drop, if◌then◌else◌, nat_le};
ghost use Rattle.names.specs.Paths.{leaf};
ghost use Rattle.store.specs.Calls.{length_of, named};
ghost use Rattle.walk.specs.Runs.{TreeRuns};
ghost use Rattle.walk.specs.Steps.{Stands, Finds};
ghost use Rattle.walk.specs.Walks.{next_node};

use arrayvec::ArrayVec;
use names::paths::{SLASH, leaf_start, parent_of, stem_len};
use store::{NAME_ROOM, Readable, Refusal};
use tree::counts::MAX_PATH;

// The longest path, and one byte more.
pub const PATH_ROOM: usize = MAX_PATH + 1;

// The places of a tree come in document order: below a node its properties, then its children with all below them.
pub fn order_stands()
    ensures { TreeRuns }
{}

// Puts a slash and a name behind the first `stem` bytes, and answers how long they are together.
fn join(path: &mut [u8], stem: usize, name: &[u8]) -> usize
    requires { stem + 1 + length name.now ≤ length path.old }
    ensures answer { result ≡ stem + 1 + length name.now }
    ensures buffer { path.new ≡ take stem path.old ++ (47 ∷ (name.now ++ drop (stem + 1 + length name.now) path.old)) }
{
    let start = stem + 1;
    let end = start + name.len();
    path[stem] = SLASH;
    path[start..end].copy_from_slice(name);
    end
}

// The last name of a path; the root's is empty.
fn leaf_of(path: &[u8]) -> &[u8]
    ensures { result.now ≡ leaf path.now }
{
    &path[leaf_start(path)..]
}

// A child of a node on a path: how many bytes of the path stand before the child's slash, and the child's name.
#[derive(Drop)]
struct Child {
    stem: usize,
    name: ArrayVec<u8, NAME_ROOM>,
}

// The next node behind a node that is there: its first child, else the next one of its parent, and so on.
fn child_behind<R: Readable>(tree: &R, path: &[u8]) -> Result<Option<Child>, Refusal>
    requires { Stands (R.Readable.meaning tree.now) path.now }
    ensures { Finds (R.Readable.meaning tree.now) path.now result }
{
    let mut open = path;
    let mut after: &[u8] = b"";
    // Up from parent to parent, until one has a child behind.
    loop {
        // Lent to the call, which fills its front and answers how far.
        let mut name = [0u8; NAME_ROOM];
        if let Some(n) = tree.next_child(open, after, &mut name)? {
            let mut name = ArrayVec::from(name);
            name.truncate(n);
            let stem = stem_len(open);
            return Ok(Some(Child { stem, name }));
        }
        if open.len() <= 1 {
            return Ok(None);
        }
        after = leaf_of(open);
        open = parent_of(open);
    }
}

// The next node behind the node that the first `at` bytes name.
fn climb<R: Readable>(tree: &R, path: &mut [u8], at: usize) -> Result<Option<usize>, Refusal>
    requires there { Stands (R.Readable.meaning tree.now) (take at path.old) }
    requires within { at ≤ length path.old }
    requires room { 256 ≤ length path.old }
    ensures answer { result ≡ length_of (next_node (R.Readable.meaning tree.now) (take at path.old) (length path.old)) }
    ensures buffer { path.new ≡ named (next_node (R.Readable.meaning tree.now) (take at path.old) (length path.old)) path.old }
{
    let Some(child) = child_behind(tree, &path[..at])? else {
        return Ok(None);
    };
    Ok(Some(join(path, child.stem, &child.name)))
}

// The root, which comes first.
fn first_node<R: Readable>(tree: &R, path: &mut [u8]) -> Result<Option<usize>, Refusal>
    ensures answer { result ≡ length_of (next_node (R.Readable.meaning tree.now) [] (length path.old)) }
    ensures buffer { path.new ≡ named (next_node (R.Readable.meaning tree.now) [] (length path.old)) path.old }
{
    tree.boot_cpu()?;
    if path.len() < PATH_ROOM {
        return Err(Refusal::Short);
    }
    path[0] = SLASH;
    Ok(Some(1))
}

// The node behind the one that the first `len` bytes name, in document order, written over it; the empty path starts. The
// caller lends the memory for the path, so its length stands beside it.
pub fn next_node<R: Readable>(
    tree: &R,
    path: &mut [u8],
    len: usize,
) -> Result<Option<usize>, Refusal>
    ensures answer { result ≡ length_of (next_node (R.Readable.meaning tree.now) (take len path.old) (length path.old)) }
    ensures buffer { path.new ≡ named (next_node (R.Readable.meaning tree.now) (take len path.old) (length path.old)) path.old }
{
    let at = len.min(path.len());
    if at == 0 {
        return first_node(tree, path);
    }
    if !tree.has_node(&path[0..at])? {
        return Err(Refusal::Absent);
    }
    if path.len() < PATH_ROOM {
        return Err(Refusal::Short);
    }
    climb(tree, path, at)
}
