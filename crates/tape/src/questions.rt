// The questions of a readable tree, on any tape, with the arguments of its calls.
ghost use Rattle.std.specs.Prelude.{◌≡◌, ◌≤◌, length};
ghost use Rattle.store.specs.Calls.{has_node, value_at, length_of, copied, filled, over, boot_of};
ghost use Rattle.tape.specs.Nodes.{meaning_of};
ghost use Rattle.tape.specs.Tapes.{shown};

use crate::Tape;
use crate::search::{find_property, open_named, open_node, opened};
use names::names::is_property_name;
use store::Refusal;

pub fn has_node<T: Tape>(t: &T, path: &[u8]) -> Result<bool, Refusal>
    ensures { result ≡ has_node (meaning_of (T.Tape.boot t.now) (T.Tape.nodes t.now)) path.now }
{
    Ok(open_node(t, path)?.is_some())
}

pub fn boot_cpu<T: Tape>(t: &T) -> Result<u32, Refusal>
    ensures { result ≡ boot_of (meaning_of (T.Tape.boot t.now) (T.Tape.nodes t.now)) }
{
    opened(t)?;
    Ok(t.boot_number())
}

// The bytes of a property's value, where they stand.
fn find_value<'a, T: Tape>(t: &'a T, path: &[u8], name: &[u8]) -> Result<Option<&'a [u8]>, Refusal>
    ensures { shown result ≡ value_at (meaning_of (T.Tape.boot t.now) (T.Tape.nodes t.now)) path.now name.now }
{
    let Some(at) = open_named(t, path, is_property_name(name))? else {
        return Ok(None);
    };
    let Some(m) = find_property(t, at, name) else {
        return Ok(None);
    };
    Ok(Some(t.value(m)))
}

pub fn value_len<T: Tape>(t: &T, path: &[u8], name: &[u8]) -> Result<Option<usize>, Refusal>
    ensures { result ≡ length_of (value_at (meaning_of (T.Tape.boot t.now) (T.Tape.nodes t.now)) path.now name.now) }
{
    Ok(find_value(t, path, name)?.map(|v| v.len()))
}

// Copies bytes to the buffer's start.
pub fn put_front(out: &mut [u8], v: &[u8])
    requires { length v.now ≤ length out.old }
    ensures { out.new ≡ over v.now out.old }
{
    out[..v.len()].copy_from_slice(v);
}

pub fn copy_value<T: Tape>(
    t: &T,
    path: &[u8],
    name: &[u8],
    out: &mut [u8],
) -> Result<usize, Refusal>
    ensures answer { result ≡ copied (value_at (meaning_of (T.Tape.boot t.now) (T.Tape.nodes t.now)) path.now name.now) (length out.old) }
    ensures buffer { out.new ≡ filled (value_at (meaning_of (T.Tape.boot t.now) (T.Tape.nodes t.now)) path.now name.now) out.old }
{
    let v = find_value(t, path, name)?.ok_or(Refusal::Absent)?;
    if v.len() > out.len() {
        return Err(Refusal::Short);
    }
    put_front(out, v);
    Ok(v.len())
}
