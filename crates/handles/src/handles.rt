// Phandles: the largest, the node that has one, and the rule that they keep.
ghost use Rattle.std.specs.Prelude.{◌≡◌, length, Ok};
ghost use Rattle.store.specs.Calls.{length_of, named};
ghost use Rattle.walk.specs.Steps.{Stands};
ghost use Rattle.handles.specs.Searches.{largest_in, holder_in, rule_in, handle_at, noted};

use blob::numbers::be32_at;
use store::{Readable, Refusal};
use tree::counts::MAX_VALUE;
use walk::nodes::Nodes;
use walk::walk::PATH_ROOM;

// The phandle of a node that is there: the number in the first four bytes of the property's value.
fn phandle_at<R: Readable>(tree: &R, path: &[u8]) -> Result<Option<u32>, Refusal>
    requires { Stands (R.Readable.meaning tree.now) path.now }
    ensures { result ≡ Ok (noted (handle_at (R.Readable.meaning tree.now) path.now)) }
{
    let name = b"phandle";
    if tree.value_len(path, name)?.is_none() {
        return Ok(None);
    }
    // Lent to the call, which fills its front.
    let mut value = [0u8; MAX_VALUE];
    tree.copy_value(path, name, &mut value)?;
    Ok(Some(be32_at(&value, 0)))
}

// The largest phandle, 0 if there is none.
pub fn largest_phandle<R: Readable>(tree: &R) -> Result<u32, Refusal>
    ensures { result ≡ largest_in (R.Readable.meaning tree.now) }
{
    let mut nodes = Nodes::new(tree);
    let mut best: u32 = 0;
    // The cursor may refuse, so it is no iterator.
    while let Some(path) = nodes.next()? {
        best = best.max(phandle_at(tree, &path)?.unwrap_or(0));
    }
    Ok(best)
}

// The node that has a phandle: its path at the start of the buffer, and its length; none where no node has it.
pub fn node_with_phandle<R: Readable>(
    tree: &R,
    number: u32,
    out: &mut [u8],
) -> Result<Option<usize>, Refusal>
    ensures answer { result ≡ length_of (holder_in (R.Readable.meaning tree.now) number (length out.old)) }
    ensures buffer { out.new ≡ named (holder_in (R.Readable.meaning tree.now) number (length out.old)) out.old }
{
    tree.boot_cpu()?;
    if out.len() < PATH_ROOM {
        return Err(Refusal::Short);
    }
    let mut nodes = Nodes::new(tree);
    // The cursor may refuse, so it is no iterator.
    while let Some(path) = nodes.next()? {
        if phandle_at(tree, &path)? == Some(number) {
            let n = path.len();
            out[0..n].copy_from_slice(&path);
            return Ok(Some(n));
        }
    }
    Ok(None)
}
