// How much there is of a tree, and the limits.
ghost use Rattle.std.specs.Prelude.{◌≡◌, ◌^◌, ◌<◌, ◌≤◌, cond, Some, None};
ghost use Rattle.tree.specs.Counting.{node_weight, property_weight, node_fits, property_fits, with_node, with_property, without_node, without_property, zero};

use crate::numbers::rounded4;

pub const MAX_NODES: usize = 256;

pub const MAX_PROPERTIES: usize = 1024;

pub const MAX_PATH: usize = 255;

pub const MAX_VALUE: usize = 4096;

pub const MAX_WEIGHT: usize = 24576;

// What the limits count. Their bounds are no ghost fields, since then each definition that makes one would carry proofs.
#[derive(Clone, Copy, PartialEq, Eq, Debug)]
pub struct Counts {
    pub nodes: usize,
    pub properties: usize,
    pub weight: usize,
}

// What a node weighs whose name has so many bytes. The bound is no type, since a narrower number would ask a cast of each caller.
pub fn node_weight(name: usize) -> usize
    requires { name < 2 ^ 32 }
    ensures { result ≡ node_weight name }
{
    rounded4(name + 1)
}

// What a property weighs whose name and value have so many bytes.
pub fn property_weight(name: usize, value: usize) -> usize
    requires { (name < 2 ^ 32) × (value < 2 ^ 32) }
    ensures { result ≡ property_weight name value }
{
    name + 1 + rounded4(value)
}

impl Counts {
    // Of no tree.
    pub fn zero() -> Counts
        ensures { result ≡ zero }
    {
        Counts {
            nodes: 0,
            properties: 0,
            weight: 0,
        }
    }

    // With one node more, whose name has so many bytes.
    pub fn with_node(self, name: usize) -> Counts
        requires small { (self.nodes < 2 ^ 32) × (self.weight < 2 ^ 32) }
        requires short { name < 2 ^ 32 }
        ensures { result ≡ with_node self name }
    {
        Counts {
            nodes: self.nodes + 1,
            properties: self.properties,
            weight: self.weight + node_weight(name),
        }
    }

    // With one property more.
    pub fn with_property(self, name: usize, value: usize) -> Counts
        requires small { (self.properties < 2 ^ 32) × (self.weight < 2 ^ 32) }
        requires short { (name < 2 ^ 32) × (value < 2 ^ 32) }
        ensures { result ≡ with_property self name value }
    {
        Counts {
            nodes: self.nodes,
            properties: self.properties + 1,
            weight: self.weight + property_weight(name, value),
        }
    }

    // With one node less.
    pub fn without_node(self, name: usize) -> Counts
        requires counted { (1 ≤ self.nodes) × (node_weight name ≤ self.weight) }
        requires short { name < 2 ^ 32 }
        ensures { result ≡ without_node self name }
    {
        Counts {
            nodes: self.nodes - 1,
            properties: self.properties,
            weight: self.weight - node_weight(name),
        }
    }

    // With one property less.
    pub fn without_property(self, name: usize, value: usize) -> Counts
        requires counted { (1 ≤ self.properties) × (property_weight name value ≤ self.weight) }
        requires short { (name < 2 ^ 32) × (value < 2 ^ 32) }
        ensures { result ≡ without_property self name value }
    {
        Counts {
            nodes: self.nodes,
            properties: self.properties - 1,
            weight: self.weight - property_weight(name, value),
        }
    }

    // With one node more whose path and name have so many bytes, unless a limit is passed.
    pub fn adding_node(self, path: usize, name: usize) -> Option<Counts>
        requires light { self.weight ≤ 24576 }
        requires named { name ≤ path }
        ensures { result ≡ cond (node_fits self path name) (Some (with_node self name)) None }
    {
        if self.nodes >= MAX_NODES || path > MAX_PATH {
            return None;
        }
        let counts = self.with_node(name);
        if counts.weight > MAX_WEIGHT {
            return None;
        }
        Some(counts)
    }

    // With one property more whose name and value have so many bytes, unless a limit is passed.
    pub fn adding_property(self, name: usize, value: usize) -> Option<Counts>
        requires light { self.weight ≤ 24576 }
        ensures { result ≡ cond (property_fits self name value) (Some (with_property self name value)) None }
    {
        if self.properties >= MAX_PROPERTIES || value > MAX_VALUE || name > MAX_WEIGHT {
            return None;
        }
        let counts = self.with_property(name, value);
        if counts.weight > MAX_WEIGHT {
            return None;
        }
        Some(counts)
    }
}
