// Paths, their parts and their order.
ghost use Rattle.std.specs.Prelude.{◌≡◌, ◌≤◌, [], length, drop, take, nat_eq};
ghost use Rattle.std.specs.List.{common_prefix_len};
ghost use Rattle.names.specs.Names.{each, node_name};
ghost use Rattle.names.specs.Orders.{name_order, path_order, rank};
ghost use Rattle.names.specs.PathLaws.{PathLaws};
ghost use Rattle.names.specs.Paths.{path_text, parts, leaf, parent, stem};

use crate::names::{find, is_node_name};
use std::cmp::Ordering;

// What stands before each name of a path.
pub const SLASH: u8 = b'/';

// The root's path.
pub const ROOT: &[u8] = b"/";

// The laws of names, paths and their order hold.
pub fn path_laws_stand()
    ensures { PathLaws }
{}

// Names by their bytes, a prefix first: `cmp` in the words of the order of paths.
pub fn compare_names(a: &[u8], b: &[u8]) -> Ordering
    ensures { result ≡ name_order a.now b.now }
{
    a.cmp(&b)
}

// How many bytes `a` and `b` begin with alike. Both are cut to one length first, so that a turn tests for one end.
fn shared(a: &[u8], b: &[u8]) -> usize
    ensures { result ≡ common_prefix_len nat_eq a.now b.now }
{
    let n = a.len().min(b.len());
    a[..n]
        .iter()
        .zip(b[..n].iter())
        .position(|(x, y)| x != y)
        .unwrap_or(n)
}

fn ranked(b: u8) -> u16
    ensures { result ≡ rank b }
{
    if b == SLASH { 0 } else { u16::from(b) + 1 }
}

// Where the last name begins: behind the last slash. The `match` is as short as a `map_or`.
pub fn leaf_start(path: &[u8]) -> usize
    ensures within { result ≤ length path.now }
    ensures value { drop result path.now ≡ leaf path.now }
{
    match path.iter().rposition(|b| *b == SLASH) {
        Some(i) => i + 1,
        None => 0,
    }
}

// Paths in document order: the first byte that differs decides, or else the length.
pub fn compare_paths(a: &[u8], b: &[u8]) -> Ordering
    ensures { result ≡ path_order a.now b.now }
{
    let n = shared(a, b);
    if n < a.len() && n < b.len() {
        ranked(a[n]).cmp(&ranked(b[n]))
    } else {
        a.len().cmp(&b.len())
    }
}

// The path without its last name; the root is its own.
pub fn parent_of(path: &[u8]) -> &[u8]
    ensures { result.now ≡ parent path.now }
{
    let start = leaf_start(path);
    if start <= 1 {
        return ROOT;
    }
    &path[0..start - 1]
}

// How many bytes of a path stand before a further slash: none of the root's.
#[tactic(auto, unfolding(crate::specs::Paths::stem))]
pub fn stem_len(path: &[u8]) -> usize
    ensures within { result ≤ length path.now }
    ensures front { take result path.now ≡ stem path.now }
    ensures value { result ≡ length (stem path.now) }
{
    if path == ROOT { 0 } else { path.len() }
}

// The root, or a slash before each of some node names.
pub fn is_path(s: &[u8]) -> bool
    ensures { result ≡ path_text s.now }
{
    match s {
        [SLASH] => true,
        [SLASH, names @ ..] => are_node_names(names),
        _ => false,
    }
}

// Whether what slashes part are names of nodes.
fn are_node_names(s: &[u8]) -> bool
    ensures { result ≡ each node_name (parts [] s.now) }
{
    s.split(|b| *b == SLASH).all(is_node_name)
}
