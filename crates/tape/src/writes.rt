// The writes of a store, on any tape, with the arguments of its calls.
ghost use Rattle.std.specs.Prelude.{◌≡◌, [], Some, None};
ghost use Rattle.store.specs.Calls.{add_node, drop_node, set_property, drop_property, changed, settled};
ghost use Rattle.tape.specs.Nodes.{meaning_of};
ghost use Rattle.tape.specs.Tapes.{Here, busy};
ghost use Rattle.tree.specs.Places.{node_at, property_at};

use crate::search::{find_node, find_property, open_named, open_node};
use crate::{Spot, Tape};
use names::names::is_property_name;
use names::paths::{leaf_start, parent_of};
use store::Refusal;

// Whether a node has properties or children.
fn is_busy<T: Tape>(t: &T, at: Spot) -> bool
    requires { Here (T.Tape.nodes t.now) (T.Tape.spot t.now) at }
    ensures { result ≡ busy (T.Tape.nodes t.now) at.node }
{
    let head = t.head(at);
    head.properties > 0
        || (head.next.node < t.counts().nodes && t.head(head.next).depth > head.depth)
}

pub fn add_node<T: Tape>(t: &mut T, path: &[u8]) -> Result<(), Refusal>
    ensures answer { result ≡ add_node (meaning_of (T.Tape.boot t.old) (T.Tape.nodes t.old)) path.now }
    ensures after { meaning_of (T.Tape.boot t.new) (T.Tape.nodes t.new) ≡ settled result (changed (meaning_of (T.Tape.boot t.old) (T.Tape.nodes t.old)) (node_at path.now) (Some [])) (meaning_of (T.Tape.boot t.old) (T.Tape.nodes t.old)) }
{
    if open_node(t, path)?.is_some() {
        return Err(Refusal::Present);
    }
    let Some(at) = find_node(t, parent_of(path)) else {
        return Err(Refusal::Absent);
    };
    let start = leaf_start(path);
    t.counts()
        .adding_node(path.len(), path.len() - start)
        .ok_or(Refusal::Limit)?;
    let head = t.head(at);
    t.insert_node(head.next, head.depth + 1, &path[start..]);
    Ok(())
}

pub fn drop_node<T: Tape>(t: &mut T, path: &[u8]) -> Result<(), Refusal>
    ensures answer { result ≡ drop_node (meaning_of (T.Tape.boot t.old) (T.Tape.nodes t.old)) path.now }
    ensures after { meaning_of (T.Tape.boot t.new) (T.Tape.nodes t.new) ≡ settled result (changed (meaning_of (T.Tape.boot t.old) (T.Tape.nodes t.old)) (node_at path.now) None) (meaning_of (T.Tape.boot t.old) (T.Tape.nodes t.old)) }
{
    let Some(at) = open_node(t, path)? else {
        return Err(Refusal::Absent);
    };
    if path.len() == 1 || is_busy(t, at) {
        return Err(Refusal::InUse);
    }
    t.remove_node(at);
    Ok(())
}

pub fn set_property<T: Tape>(
    t: &mut T,
    path: &[u8],
    name: &[u8],
    value: &[u8],
) -> Result<(), Refusal>
    ensures answer { result ≡ set_property (meaning_of (T.Tape.boot t.old) (T.Tape.nodes t.old)) path.now name.now value.now }
    ensures after { meaning_of (T.Tape.boot t.new) (T.Tape.nodes t.new) ≡ settled result (changed (meaning_of (T.Tape.boot t.old) (T.Tape.nodes t.old)) (property_at path.now name.now) (Some value.now)) (meaning_of (T.Tape.boot t.old) (T.Tape.nodes t.old)) }
{
    let Some(at) = open_named(t, path, is_property_name(name))? else {
        return Err(Refusal::Absent);
    };
    let counts = t.counts();
    let Some(m) = find_property(t, at, name) else {
        counts
            .adding_property(name.len(), value.len())
            .ok_or(Refusal::Limit)?;
        t.insert_property(at, name, value);
        return Ok(());
    };
    let old = t.value(m).len();
    counts
        .without_property(name.len(), old)
        .adding_property(name.len(), value.len())
        .ok_or(Refusal::Limit)?;
    if old == value.len() {
        t.overwrite(m, value);
        return Ok(());
    }
    t.remove_property(at, m);
    t.insert_property(at, name, value);
    Ok(())
}

pub fn drop_property<T: Tape>(t: &mut T, path: &[u8], name: &[u8]) -> Result<(), Refusal>
    ensures answer { result ≡ drop_property (meaning_of (T.Tape.boot t.old) (T.Tape.nodes t.old)) path.now name.now }
    ensures after { meaning_of (T.Tape.boot t.new) (T.Tape.nodes t.new) ≡ settled result (changed (meaning_of (T.Tape.boot t.old) (T.Tape.nodes t.old)) (property_at path.now name.now) None) (meaning_of (T.Tape.boot t.old) (T.Tape.nodes t.old)) }
{
    let Some(at) = open_named(t, path, is_property_name(name))? else {
        return Err(Refusal::Absent);
    };
    let m = find_property(t, at, name).ok_or(Refusal::Absent)?;
    t.remove_property(at, m);
    Ok(())
}
