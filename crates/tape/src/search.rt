// Where a node or a property is.
ghost use Rattle.std.specs.Prelude.{◌≡◌, ◌+◌, ◌<◌, Bool, true, length, drop, MatchResult};
ghost use Rattle.names.specs.Paths.{path_text, stem};
ghost use Rattle.store.specs.declared.Refusal.TheVariants.{Closed};
ghost use Rattle.tape.specs.Nodes.{child_in, property_in};
ghost use Rattle.tape.specs.Tapes.{Here, Located, Opened, Owned, nth, placed, properties_at};

use crate::iters::{children_of, properties_of};
use crate::{Mark, Spot, Tape};
use names::names::find;
use names::paths::{SLASH, is_path};
use store::Refusal;

// The child so named of the node at `from`. The search for a property is alike, and what both share is the library's `find`.
fn find_child<T: Tape>(t: &T, from: Spot, name: &[u8]) -> Option<Spot>
    requires { Here (T.Tape.nodes t.now) (T.Tape.spot t.now) from }
    ensures { result ≡ placed (T.Tape.spot t.now) (from.node + 1) (child_in (nth (T.Tape.nodes t.now) from.node).depth name.now (drop (from.node + 1) (T.Tape.nodes t.now))) }
{
    children_of(t, from)
        .find(|(_, child)| *child == name)
        .map(|(at, _)| at)
}

// The property so named of the node at `at`.
pub fn find_property<T: Tape>(t: &T, at: Spot, name: &[u8]) -> Option<Mark>
    requires { Here (T.Tape.nodes t.now) (T.Tape.spot t.now) at }
    ensures value { result ≡ placed (T.Tape.mark t.now at.node) 0 (property_in name.now (properties_at (T.Tape.nodes t.now) at.node)) }
    ensures owned { Owned (T.Tape.nodes t.now) (T.Tape.mark t.now) at.node name.now result }
{
    properties_of(t, at)
        .find(|(_, property)| *property == name)
        .map(|(m, _)| m)
}

// The node at a path.
pub fn find_node<T: Tape>(t: &T, path: &[u8]) -> Option<Spot>
    requires opened { 0 < length (T.Tape.nodes t.now) }
    requires path { path_text path.now ≡ true }
    ensures { Located (T.Tape.nodes t.now) (T.Tape.spot t.now) (stem path.now) result }
{
    let mut at = t.start();
    if path.len() == 1 {
        return Some(at);
    }
    let mut rest = &path[1..];
    // A `for` over the names by `split` was tried: in a generic function it gets no proof.
    loop {
        let n = find(rest, SLASH);
        at = find_child(t, at, &rest[..n])?;
        if n == rest.len() {
            return Some(at);
        }
        rest = &rest[n + 1..];
    }
}

// Refuses a closed tape.
pub fn opened<T: Tape>(t: &T) -> Result<(), Refusal>
    ensures { MatchResult result (λ _. 0 < length (T.Tape.nodes t.now)) (λ e. (length (T.Tape.nodes t.now) ≡ 0) × (e ≡ Closed)) }
{
    if t.counts().nodes == 0 {
        return Err(Refusal::Closed);
    }
    Ok(())
}

// The node at a path of an open tape.
pub fn open_node<T: Tape>(t: &T, path: &[u8]) -> Result<Option<Spot>, Refusal>
    ensures { Opened (T.Tape.nodes t.now) (T.Tape.spot t.now) path.now true result }
{
    open_named(t, path, true)
}

// The same for a call with another name, which is by its rule where `named` says so. A closed tape is refused before a bad name.
pub fn open_named<T: Tape>(t: &T, path: &[u8], named: bool) -> Result<Option<Spot>, Refusal>
    ensures { Opened (T.Tape.nodes t.now) (T.Tape.spot t.now) path.now named result }
{
    open_named_with(t, path, || named)
}

// The same, where `named` looks at a name that may be long: not before the tape is open and the path is by its rule.
pub fn open_named_with<T: Tape, N: FnOnce() -> bool>(
    t: &T,
    path: &[u8],
    named: N,
) -> Result<Option<Spot>, Refusal>
    requires { N.IsAlwaysCallable named }
    ensures { (b : Bool) → ((r : Bool) → N.post named r → r ≡ b) → Opened (T.Tape.nodes t.now) (T.Tape.spot t.now) path.now b result }
{
    opened(t)?;
    if !is_path(path) || !named() {
        return Err(Refusal::BadName);
    }
    Ok(find_node(t, path))
}
