// Tokens and strings written behind the used part of lent bytes.
ghost use Rattle.std.specs.Prelude.{◌≡◌, ◌+◌, ◌≤◌, [], ◌∷◌, ◌++◌, length, take, replicate};
ghost use Rattle.blob.specs.Tokens.{begin, property};
ghost use Rattle.packed.specs.Headers.{Resized};
ghost use Rattle.packed.specs.Packing.{token_bytes};
ghost use Rattle.splices.specs.Splices.{written};
ghost use Rattle.tree.specs.Numbers.{bytes32, pad4};

use crate::region::STRUCTURE_START;
use blob::header::{AT_STRINGS, AT_STRINGS_SIZE, AT_STRUCTURE_SIZE, AT_TOTAL};
use blob::types::Tag;
use splices::lent::Lent;
use splices::put;
use tree::numbers::rounded4;

// Writes zero bytes, four at the most.
fn put_zeros(out: &mut Lent<u8>, n: usize)
    requires { (out.old.used + n ≤ length out.old.items.now) × (n ≤ 4) }
    ensures used { out.new.used ≡ out.old.used + n }
    ensures items { take out.new.used out.new.items.now ≡ take out.old.used out.old.items.now ++ replicate n 0 }
    ensures kept { length out.new.items.now ≡ length out.old.items.now }
    ensures same_reference { out.new.items.ghost_name ≡ out.old.items.ghost_name }
{
    let zeros = [0u8; 4];
    out.append(&zeros[0..n]);
}

// Writes the four bytes of a number.
fn append32(out: &mut Lent<u8>, n: u32)
    requires { out.old.used + 4 ≤ length out.old.items.now }
    ensures used { out.new.used ≡ out.old.used + 4 }
    ensures items { take out.new.used out.new.items.now ≡ take out.old.used out.old.items.now ++ bytes32 n }
    ensures kept { length out.new.items.now ≡ length out.old.items.now }
    ensures same_reference { out.new.items.ghost_name ≡ out.old.items.ghost_name }
{
    out.append(&n.to_be_bytes());
}

// A begin token.
pub fn put_begin(out: &mut Lent<u8>, name: &[u8])
    requires { (out.old.used + (4 + pad4 (length name.now + 1)) ≤ length out.old.items.now) × (out.old.used + (4 + pad4 (length name.now + 1)) ≤ 40960) }
    ensures used { out.new.used ≡ out.old.used + (4 + pad4 (length name.now + 1)) }
    ensures items { take out.new.used out.new.items.now ≡ take out.old.used out.old.items.now ++ token_bytes 0 (begin name.now) }
    ensures kept { length out.new.items.now ≡ length out.old.items.now }
    ensures same_reference { out.new.items.ghost_name ≡ out.old.items.ghost_name }
{
    append32(out, Tag::Begin as u32);
    out.append(name);
    let n = name.len();
    put_zeros(out, rounded4(n + 1) - n);
}

// A property token whose name is at `k` in the strings block.
pub fn put_property(out: &mut Lent<u8>, k: u32, value: &[u8])
    requires { (out.old.used + (12 + pad4 (length value.now)) ≤ length out.old.items.now) × (out.old.used + (12 + pad4 (length value.now)) ≤ 40960) }
    ensures used { out.new.used ≡ out.old.used + (12 + pad4 (length value.now)) }
    ensures items { take out.new.used out.new.items.now ≡ take out.old.used out.old.items.now ++ token_bytes k (property [] value.now) }
    ensures kept { length out.new.items.now ≡ length out.old.items.now }
    ensures same_reference { out.new.items.ghost_name ≡ out.old.items.ghost_name }
{
    let n = value.len();
    append32(out, Tag::Property as u32);
    // The length is proved to fit; `try_from` would add a refusal that cannot come.
    append32(out, n as u32);
    append32(out, k);
    out.append(value);
    put_zeros(out, rounded4(n) - n);
}

// A string.
pub fn put_string(out: &mut Lent<u8>, name: &[u8])
    requires { (out.old.used + (length name.now + 1) ≤ length out.old.items.now) × (out.old.used + (length name.now + 1) ≤ 40960) }
    ensures used { out.new.used ≡ out.old.used + (length name.now + 1) }
    ensures items { take out.new.used out.new.items.now ≡ take out.old.used out.old.items.now ++ (name.now ++ (0 ∷ [])) }
    ensures kept { length out.new.items.now ≡ length out.old.items.now }
    ensures same_reference { out.new.items.ghost_name ≡ out.old.items.ghost_name }
{
    out.append(name);
    put_zeros(out, 1);
}

// Writes the four bytes of a number at `at`.
pub fn put32(xs: &mut [u8], at: usize, n: u32)
    requires { at + 4 ≤ length xs.old }
    ensures { xs.new ≡ written xs.old at (bytes32 n) }
{
    put(xs, at, &n.to_be_bytes());
}

// The sizes of the two blocks in the header.
pub fn put_sizes(xs: &mut [u8], structure: usize, strings: usize)
    requires { (40 ≤ length xs.old) × (56 + structure + strings ≤ 40960) }
    ensures { Resized xs.old structure strings xs.new }
{
    // The lengths are proved to fit; `try_from` would add a refusal that cannot come.
    put32(xs, AT_TOTAL, (STRUCTURE_START + structure + strings) as u32);
    put32(xs, AT_STRINGS, (STRUCTURE_START + structure) as u32);
    put32(xs, AT_STRINGS_SIZE, strings as u32);
    put32(xs, AT_STRUCTURE_SIZE, structure as u32);
}
