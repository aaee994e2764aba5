// In which names a byte may stand.
ghost use Rattle.std.specs.Prelude.{◌≡◌};
ghost use Rattle.names.specs.Classes.{class_of};
ghost use Rattle.names.specs.Names.{node_byte, property_byte};

use Class::{Both as B, Neither as N, Property as P};

// In no name, in property names alone, or in the names of nodes and of properties.
#[derive(Clone, Copy, PartialEq, Eq, Debug)]
pub enum Class {
    Neither,
    Property,
    Both,
}

// The class of each byte. A `static`, since a `const` would be built anew at each use.
#[rattlefmt::skip]
static CLASSES: [Class; 256] = [
    N, N, N, N, N, N, N, N, N, N, N, N, N, N, N, N,
    N, N, N, N, N, N, N, N, N, N, N, N, N, N, N, N,
    N, N, N, P, N, N, N, N, N, N, N, B, B, B, B, N,
    B, B, B, B, B, B, B, B, B, B, N, N, N, N, N, P,
    N, B, B, B, B, B, B, B, B, B, B, B, B, B, B, B,
    B, B, B, B, B, B, B, B, B, B, B, N, N, N, N, B,
    N, B, B, B, B, B, B, B, B, B, B, B, B, B, B, B,
    B, B, B, B, B, B, B, B, B, B, B, N, N, N, N, N,
    N, N, N, N, N, N, N, N, N, N, N, N, N, N, N, N,
    N, N, N, N, N, N, N, N, N, N, N, N, N, N, N, N,
    N, N, N, N, N, N, N, N, N, N, N, N, N, N, N, N,
    N, N, N, N, N, N, N, N, N, N, N, N, N, N, N, N,
    N, N, N, N, N, N, N, N, N, N, N, N, N, N, N, N,
    N, N, N, N, N, N, N, N, N, N, N, N, N, N, N, N,
    N, N, N, N, N, N, N, N, N, N, N, N, N, N, N, N,
    N, N, N, N, N, N, N, N, N, N, N, N, N, N, N, N,
];

pub fn class_of(b: u8) -> Class
    ensures { result ≡ class_of b }
{
    CLASSES[b as usize]
}

pub fn is_node_byte(b: u8) -> bool
    ensures { result ≡ node_byte b }
{
    class_of(b) == Class::Both
}

pub fn is_property_byte(b: u8) -> bool
    ensures { result ≡ property_byte b }
{
    class_of(b) != Class::Neither
}
