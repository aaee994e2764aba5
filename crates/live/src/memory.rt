// Node records, property records and a byte pool, lent to a store.
use splices::lent::Lent;

// A node: its depth, the length of its name, how many properties it has and how many bytes they take.
#[derive(Clone, Copy)]
pub struct NodeRecord {
    pub depth: usize,
    pub name: usize,
    pub properties: usize,
    pub bytes: usize,
}

// A property: the lengths of its name and of its value.
#[derive(Clone, Copy)]
pub struct PropertyRecord {
    pub name: usize,
    pub value: usize,
}

// The lent memory, what the tree in it weighs, and its boot CPU number.
pub struct Memory<'a> {
    pub nodes: Lent<'a, NodeRecord>,
    pub properties: Lent<'a, PropertyRecord>,
    pub pool: Lent<'a, u8>,
    pub weight: usize,
    pub boot: u32,
}
