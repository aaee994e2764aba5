// The next child and the next property of a node, on any tape.
#![tactic(auto)]

ghost use Rattle.std.specs.Prelude.{◌≡◌, ◌||◌, Bool, List, length, map, ◌==◌};
ghost use Rattle.std.specs.Iterator.{AlwaysYields, IsFinite};
ghost use Rattle.names.specs.Names.{node_name, property_name};
ghost use Rattle.tree.specs.Places.{Bytes, Place};
ghost use Rattle.store.specs.Calls.{child_on, least_after, length_of, named, next_child, next_name, next_property, property_on};
ghost use Rattle.tape.specs.Iters.{with_name};
ghost use Rattle.tape.specs.Nodes.{meaning_of};
ghost use Rattle.tape.specs.Tapes.{Here, shown};
ghost use Rattle.nexts.specs.Kids.{Held, LeastAt, shown_name};

use names::names::{is_node_name, is_property_name};
use names::paths::compare_names;
use store::{NAME_ROOM, Refusal};
use tape::iters::{children_of, properties_of};
use tape::questions::put_front;
use tape::search::open_named_with;
use tape::{Spot, Tape};

// The parts of a node that are gone over by their names: a name's rule, and the names that a place gives.
trait Parts {
    ghost rule: { Bytes → Bool };

    ghost on: { Bytes → Place → List Bytes };

    fn is_name(s: &[u8]) -> bool
        ensures { result ≡ rule s.now };

    // The least name behind `after`.
    fn least<'a, T: Tape>(t: &'a T, at: Spot, after: &[u8]) -> Option<&'a [u8]>
        requires { Here (T.Tape.nodes t.now) (T.Tape.spot t.now) at }
        ensures { LeastAt on (T.Tape.boot t.now) (T.Tape.nodes t.now) at.node after.now (shown_name result) };
}

struct Children;

struct Properties;

// Both impls are alike, since each only names its rule, the names that a place gives, and its iterator.
impl Parts for Children {
    ghost rule = { node_name };

    ghost on = { child_on };

    fn is_name(s: &[u8]) -> bool {
        is_node_name(s)
    }

    fn least<'a, T: Tape>(t: &'a T, at: Spot, after: &[u8]) -> Option<&'a [u8]> {
        least_name(children_of(t, at), after)
    }
}

impl Parts for Properties {
    ghost rule = { property_name };

    ghost on = { property_on };

    fn is_name(s: &[u8]) -> bool {
        is_property_name(s)
    }

    fn least<'a, T: Tape>(t: &'a T, at: Spot, after: &[u8]) -> Option<&'a [u8]> {
        least_name(properties_of(t, at), after)
    }
}

// The least name behind `after` of some parts.
fn least_name<'a, P: Drop, I: Iterator<Item = (P, &'a [u8])>>(
    parts: I,
    after: &[u8],
) -> Option<&'a [u8]>
    requires can { I.can_next parts }
    requires ends { IsFinite (I.remaining parts) }
    ensures { (xs : List (_ × Bytes)) → AlwaysYields I.next_gives with_name parts xs → shown_name result ≡ least_after after.now (map (λ x. x.1) xs) }
{
    parts
        .map(|(_, name)| name)
        .filter(|name| compare_names(after, name).is_lt())
        .min_by(|a, b| compare_names(a, b))
}

// Whether a name may be asked after: the empty one starts.
fn may_follow<K: Parts>(name: &[u8]) -> bool
    ensures { result ≡ (length name.now == 0 || K.rule name.now) }
{
    name.is_empty() || K::is_name(name)
}

// The next name where it stands, for a buffer of so many bytes.
fn find_next<'a, K: Parts, T: Tape>(
    t: &'a T,
    path: &[u8],
    after: &[u8],
    room: usize,
) -> Result<Option<&'a [u8]>, Refusal>
    ensures name { shown result ≡ next_name K.rule K.on (meaning_of (T.Tape.boot t.now) (T.Tape.nodes t.now)) path.now after.now room }
    ensures held { Held (shown result) room }
{
    let Some(at) = open_named_with(t, path, || may_follow::<K>(after))? else {
        return Err(Refusal::Absent);
    };
    if room < NAME_ROOM {
        return Err(Refusal::Short);
    }
    Ok(K::least(t, at, after))
}

// Copies the next name after a given one.
fn copy_next<K: Parts, T: Tape>(
    t: &T,
    path: &[u8],
    after: &[u8],
    out: &mut [u8],
) -> Result<Option<usize>, Refusal>
    ensures answer { result ≡ length_of (next_name K.rule K.on (meaning_of (T.Tape.boot t.now) (T.Tape.nodes t.now)) path.now after.now (length out.old)) }
    ensures buffer { out.new ≡ named (next_name K.rule K.on (meaning_of (T.Tape.boot t.now) (T.Tape.nodes t.now)) path.now after.now (length out.old)) out.old }
{
    let Some(name) = find_next::<K, T>(t, path, after, out.len())? else {
        return Ok(None);
    };
    put_front(out, name);
    Ok(Some(name.len()))
}

// Copies the next child name after a given one. It and the next one are the calls of a readable tree.
pub fn next_child<T: Tape>(
    t: &T,
    path: &[u8],
    after: &[u8],
    out: &mut [u8],
) -> Result<Option<usize>, Refusal>
    ensures answer { result ≡ length_of (next_child (meaning_of (T.Tape.boot t.now) (T.Tape.nodes t.now)) path.now after.now (length out.old)) }
    ensures buffer { out.new ≡ named (next_child (meaning_of (T.Tape.boot t.now) (T.Tape.nodes t.now)) path.now after.now (length out.old)) out.old }
{
    copy_next::<Children, T>(t, path, after, out)
}

// Copies the next property name after a given one.
pub fn next_property<T: Tape>(
    t: &T,
    path: &[u8],
    after: &[u8],
    out: &mut [u8],
) -> Result<Option<usize>, Refusal>
    ensures answer { result ≡ length_of (next_property (meaning_of (T.Tape.boot t.now) (T.Tape.nodes t.now)) path.now after.now (length out.old)) }
    ensures buffer { out.new ≡ named (next_property (meaning_of (T.Tape.boot t.now) (T.Tape.nodes t.now)) path.now after.now (length out.old)) out.old }
{
    copy_next::<Properties, T>(t, path, after, out)
}
