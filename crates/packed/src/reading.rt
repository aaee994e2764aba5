// What is read at a spot or a mark.
ghost use Rattle.std.specs.Prelude.{◌≡◌, ◌+◌, true, length};
ghost use Rattle.packed.specs.Packing.{spot_of, begin_of, first_of, mark_of};
ghost use Rattle.packed.specs.Regions.{nodes_of, intact};
ghost use Rattle.tape.specs.Tapes.{Counted, Here, On, Reads, nth, properties_at, property_of};

use crate::region::{Region, STRUCTURE_START};
use blob::numbers::be32_at;
use blob::text::text_at;
use blob::tokens::{AT_LENGTH, AT_NAME, PROPERTY_SIZE, TOKEN_SIZE};
use blob::types::Tag;
use names::names::find;
use tape::{Head, Mark, Spot};
use tree::counts::Counts;
use tree::numbers::rounded4;

// Memory that is closed or holds its nodes.
pub struct Packed<'a> {
    pub region: Region<'a>,
    pub ghost intact: { intact region ≡ true },
}

// The same, lent to be read.
#[derive(Clone, Copy)]
pub struct View<'r, 'a> {
    pub region: &'r Region<'a>,
    pub ghost intact: { intact region.now ≡ true },
}

// A node's depth, and where its begin token is.
#[derive(Clone, Copy)]
pub struct Begin {
    pub depth: usize,
    pub at: usize,
}

// How many properties a node has, and where what follows them begins.
#[derive(Clone, Copy)]
pub struct Run {
    pub count: usize,
    pub end: usize,
}

// Each method reads only what it needs of a token: `Blob::token_at` would also search for the end of a property's name in `run`,
// `behind` and `value`.
impl<'r> View<'r, '_> {
    // Where a node's begin token is, behind the end tokens at its spot.
    pub fn begin(&self, s: Spot) -> Begin
        requires { Here (nodes_of self.now.region.now) (spot_of (nodes_of self.now.region.now)) s }
        ensures depth { result.depth ≡ (nth (nodes_of self.now.region.now) s.node).depth }
        ensures at { result.at ≡ begin_of (nodes_of self.now.region.now) s.node }
    {
        let bytes = self.region.as_bytes();
        let mut at = s.at;
        let mut depth = s.property;
        // The tokens say how far it goes, and no index is counted.
        while be32_at(bytes, at) == Tag::End as u32 {
            at += TOKEN_SIZE;
            depth -= 1;
        }
        Begin { depth, at }
    }

    // How many bytes the name of the node has whose begin token is at `at`. Only the contract uses `s`, which says which node it is.
    pub fn name_length(&self, s: Spot, at: usize) -> usize
        requires here { Here (nodes_of self.now.region.now) (spot_of (nodes_of self.now.region.now)) s }
        requires at { at ≡ begin_of (nodes_of self.now.region.now) s.node }
        ensures { result ≡ length (nth (nodes_of self.now.region.now) s.node).name }
    {
        let bytes = self.region.as_bytes();
        let from = at + TOKEN_SIZE;
        let to = STRUCTURE_START + self.region.structure;
        find(&bytes[from..to], 0)
    }

    // The name of a node.
    pub fn name(&self, s: Spot) -> &'r [u8]
        requires { Here (nodes_of self.now.region.now) (spot_of (nodes_of self.now.region.now)) s }
        ensures { result.now ≡ (nth (nodes_of self.now.region.now) s.node).name }
    {
        let bytes = self.region.as_bytes();
        let b = self.begin(s);
        let from = b.at + TOKEN_SIZE;
        let to = STRUCTURE_START + self.region.structure;
        text_at(bytes, from, to).unwrap()
    }

    // The properties of a node whose first is at `from`. Only the contract uses `s`, which says which node it is.
    pub fn run(&self, s: Spot, from: usize) -> Run
        requires here { Here (nodes_of self.now.region.now) (spot_of (nodes_of self.now.region.now)) s }
        requires from { from ≡ first_of (nodes_of self.now.region.now) s.node }
        ensures count { result.count ≡ length (properties_at (nodes_of self.now.region.now) s.node) }
        ensures end { result.end ≡ (mark_of (nodes_of self.now.region.now) s.node result.count).at }
    {
        let bytes = self.region.as_bytes();
        let mut at = from;
        let mut count = 0;
        // Each token says where the next one is.
        while be32_at(bytes, at) == Tag::Property as u32 {
            let n = be32_at(bytes, at + AT_LENGTH) as usize;
            at += PROPERTY_SIZE + rounded4(n);
            count += 1;
        }
        Run { count, end: at }
    }

    // The node at a spot.
    pub fn head(&self, s: Spot) -> Head
        requires { Here (nodes_of self.now.region.now) (spot_of (nodes_of self.now.region.now)) s }
        ensures { Reads (nodes_of self.now.region.now) (spot_of (nodes_of self.now.region.now)) (mark_of (nodes_of self.now.region.now)) s result }
    {
        let b = self.begin(s);
        let n = self.name_length(s, b.at);
        let from = b.at + TOKEN_SIZE + rounded4(n + 1);
        let run = self.run(s, from);
        let first = Mark {
            node: s.node,
            number: 0,
            property: 0,
            at: from,
        };
        let next = Spot {
            node: s.node + 1,
            property: b.depth + 1,
            at: run.end,
        };
        Head {
            depth: b.depth,
            properties: run.count,
            first,
            next,
        }
    }

    // The mark behind a property's.
    pub fn behind(&self, m: Mark) -> Mark
        requires { On (nodes_of self.now.region.now) (mark_of (nodes_of self.now.region.now)) m }
        ensures { result ≡ mark_of (nodes_of self.now.region.now) m.node (m.number + 1) }
    {
        let bytes = self.region.as_bytes();
        let n = be32_at(bytes, m.at + AT_LENGTH) as usize;
        Mark {
            node: m.node,
            number: m.number + 1,
            property: 0,
            at: m.at + PROPERTY_SIZE + rounded4(n),
        }
    }

    // The name of a property.
    pub fn property_name(&self, m: Mark) -> &'r [u8]
        requires { On (nodes_of self.now.region.now) (mark_of (nodes_of self.now.region.now)) m }
        ensures { result.now ≡ (property_of (nodes_of self.now.region.now) m.node m.number).0 }
    {
        let bytes = self.region.as_bytes();
        let strings = STRUCTURE_START + self.region.structure;
        let from = strings + be32_at(bytes, m.at + AT_NAME) as usize;
        let end = strings + self.region.strings;
        text_at(bytes, from, end).unwrap()
    }

    // The value of a property.
    pub fn value(&self, m: Mark) -> &'r [u8]
        requires { On (nodes_of self.now.region.now) (mark_of (nodes_of self.now.region.now)) m }
        ensures { result.now ≡ (property_of (nodes_of self.now.region.now) m.node m.number).1 }
    {
        let bytes = self.region.as_bytes();
        let from = m.at + PROPERTY_SIZE;
        let to = from + be32_at(bytes, m.at + AT_LENGTH) as usize;
        &bytes[from..to]
    }

    // What the limits count: the weight is what the two blocks take beyond the tokens' own numbers.
    pub fn counts(&self) -> Counts
        ensures { Counted (nodes_of self.now.region.now) result }
    {
        let x = self.region;
        if x.nodes == 0 {
            return Counts::zero();
        }
        let tokens = 4 + 8 * x.nodes + 12 * x.properties;
        Counts {
            nodes: x.nodes,
            properties: x.properties,
            weight: x.structure + x.strings - tokens,
        }
    }
}

impl Packed<'_> {
    // The memory, lent to be read.
    fn view(&self) -> View<'_, '_>
        ensures { result.region.now ≡ self.now.region }
    {
        View {
            region: &self.region,
        }
    }

    // Where a node's begin token is, behind the end tokens at its spot.
    pub fn begin(&self, s: Spot) -> Begin
        requires { Here (nodes_of self.now.region) (spot_of (nodes_of self.now.region)) s }
        ensures depth { result.depth ≡ (nth (nodes_of self.now.region) s.node).depth }
        ensures at { result.at ≡ begin_of (nodes_of self.now.region) s.node }
    {
        self.view().begin(s)
    }

    // How many bytes the name of the node has whose begin token is at `at`. Only the contract uses `s`, which says which node it is.
    pub fn name_length(&self, s: Spot, at: usize) -> usize
        requires here { Here (nodes_of self.now.region) (spot_of (nodes_of self.now.region)) s }
        requires at { at ≡ begin_of (nodes_of self.now.region) s.node }
        ensures { result ≡ length (nth (nodes_of self.now.region) s.node).name }
    {
        self.view().name_length(s, at)
    }

    // The name of a node.
    pub fn name(&self, s: Spot) -> &[u8]
        requires { Here (nodes_of self.now.region) (spot_of (nodes_of self.now.region)) s }
        ensures { result.now ≡ (nth (nodes_of self.now.region) s.node).name }
    {
        self.view().name(s)
    }

    // The properties of a node whose first is at `from`. Only the contract uses `s`, which says which node it is.
    pub fn run(&self, s: Spot, from: usize) -> Run
        requires here { Here (nodes_of self.now.region) (spot_of (nodes_of self.now.region)) s }
        requires from { from ≡ first_of (nodes_of self.now.region) s.node }
        ensures count { result.count ≡ length (properties_at (nodes_of self.now.region) s.node) }
        ensures end { result.end ≡ (mark_of (nodes_of self.now.region) s.node result.count).at }
    {
        self.view().run(s, from)
    }

    // The node at a spot.
    pub fn head(&self, s: Spot) -> Head
        requires { Here (nodes_of self.now.region) (spot_of (nodes_of self.now.region)) s }
        ensures { Reads (nodes_of self.now.region) (spot_of (nodes_of self.now.region)) (mark_of (nodes_of self.now.region)) s result }
    {
        self.view().head(s)
    }

    // The mark behind a property's.
    pub fn behind(&self, m: Mark) -> Mark
        requires { On (nodes_of self.now.region) (mark_of (nodes_of self.now.region)) m }
        ensures { result ≡ mark_of (nodes_of self.now.region) m.node (m.number + 1) }
    {
        self.view().behind(m)
    }

    // The name of a property.
    pub fn property_name(&self, m: Mark) -> &[u8]
        requires { On (nodes_of self.now.region) (mark_of (nodes_of self.now.region)) m }
        ensures { result.now ≡ (property_of (nodes_of self.now.region) m.node m.number).0 }
    {
        self.view().property_name(m)
    }

    // The value of a property.
    pub fn value(&self, m: Mark) -> &[u8]
        requires { On (nodes_of self.now.region) (mark_of (nodes_of self.now.region)) m }
        ensures { result.now ≡ (property_of (nodes_of self.now.region) m.node m.number).1 }
    {
        self.view().value(m)
    }

    // What the limits count: the weight is what the two blocks take beyond the tokens' own numbers.
    pub fn counts(&self) -> Counts
        ensures { Counted (nodes_of self.now.region) result }
    {
        self.view().counts()
    }
}
