// Names of nodes and of properties.
ghost use Rattle.std.specs.Prelude.{◌≡◌, ℕ, ◌≤◌, Bool, ◌&&◌, length, nat_le};
ghost use Rattle.std.specs.List.{prefix_len};
ghost use Rattle.std.specs.Str.{bytes_eq};
ghost use Rattle.names.specs.Names.{node_byte, property_byte, before, word, node_name, property_name};

use crate::classes::{is_node_byte, is_property_byte};

// The longest word of a name.
const LONGEST: usize = 31;

// What parts the two words of a node name.
const AT: u8 = b'@';

// How many bytes come before the first `b`; all of them where there is none. It takes eight bytes a turn, since a reader spends much of its time here.
pub fn find(s: &[u8], b: u8) -> usize
    ensures within { result ≤ length s.now }
    ensures value { result ≡ before b s.now }
{
    let (eights, rest) = s.as_chunks::<8>();
    for (i, eight) in eights.iter().enumerate() {
        if let Some(k) = eight.iter().position(|x| *x == b) {
            return 8 * i + k;
        }
    }
    let k = rest.iter().position(|x| *x == b).unwrap_or(rest.len());
    s.len() - rest.len() + k
}

// Whether two texts have the same bytes: `==` in the words of the rules.
pub fn same_bytes(a: &[u8], b: &[u8]) -> bool
    ensures { result ≡ bytes_eq a.now b.now }
{
    a == b
}

// The bytes of which words of a kind of names consist.
trait Alphabet {
    ghost holds: { ℕ → Bool };

    fn has(b: u8) -> bool
        ensures { result ≡ holds b };
}

struct OfNodes;

struct OfProperties;

impl Alphabet for OfNodes {
    ghost holds = { node_byte };

    fn has(b: u8) -> bool {
        is_node_byte(b)
    }
}

impl Alphabet for OfProperties {
    ghost holds = { property_byte };

    fn has(b: u8) -> bool {
        is_property_byte(b)
    }
}

// How many bytes of the alphabet `s` begins with. It takes four bytes a turn, since most of a reader's time on names is spent here.
fn run<A: Alphabet>(s: &[u8]) -> usize
    ensures within { result ≤ length s.now }
    ensures value { result ≡ prefix_len A.Alphabet.holds s.now }
{
    let (quads, rest) = s.as_chunks::<4>();
    for (i, quad) in quads.iter().enumerate() {
        if let Some(k) = quad.iter().position(|b| !A::has(*b)) {
            return 4 * i + k;
        }
    }
    let k = rest.iter().position(|b| !A::has(*b)).unwrap_or(rest.len());
    s.len() - rest.len() + k
}

fn is_word_length(n: usize) -> bool
    ensures { result ≡ (nat_le 1 n && nat_le n 31) }
{
    1 <= n && n <= LONGEST
}

fn is_word<A: Alphabet>(s: &[u8]) -> bool
    ensures { result ≡ word A.Alphabet.holds s.now }
{
    is_word_length(s.len()) && run::<A>(s) == s.len()
}

pub fn is_property_name(s: &[u8]) -> bool
    ensures { result ≡ property_name s.now }
{
    is_word::<OfProperties>(s)
}

// Each byte is looked at once: what ends the first word is the @, the end, or a fault.
pub fn is_node_name(s: &[u8]) -> bool
    ensures { result ≡ node_name s.now }
{
    let n = run::<OfNodes>(s);
    if n == s.len() {
        return is_word_length(n);
    }
    if s[n] != AT {
        return false;
    }
    is_word_length(n) && is_word::<OfNodes>(&s[n + 1..])
}
