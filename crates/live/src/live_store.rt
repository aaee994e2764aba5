// The live store as a tape of nodes.
ghost use Rattle.std.specs.Prelude.{◌≡◌, ◌+◌, true, refl};
ghost use Rattle.live.specs.Records.{held, flat_rows, flat_cells, rows_of, cells_of, bytes_of, used_rows, used_cells, used_bytes, room_for, spot_in, mark_in};
ghost use Rattle.tape.specs.Nodes.{valid};
ghost use Rattle.tape.specs.Tapes.{Here, On, Reads, nth, property_of, weight_of};

pub mod calls;

use crate::memory::{Memory, NodeRecord, PropertyRecord};
use tape::{Head, Mark, Spot, Tape};
use tree::counts::{Counts, node_weight, property_weight};

// A tree in lent memory: its records and pool are those of its nodes, and, once it is open, have room for every tree within the limits.
pub struct Live<'a> {
    pub memory: Memory<'a>,
    pub ghost rows: { flat_rows (rows_of (held memory)) ≡ flat_rows (used_rows memory) },
    pub ghost cells: { flat_cells (cells_of (held memory)) ≡ flat_cells (used_cells memory) },
    pub ghost bytes: { bytes_of (held memory) ≡ used_bytes memory },
    pub ghost weight: { memory.weight ≡ weight_of (held memory) },
    pub ghost room: { room_for memory ≡ true },
    pub ghost sound: { valid memory.boot (held memory) ≡ true },
}

// The same memory, lent to be read.
#[derive(Clone, Copy)]
pub struct View<'r, 'a> {
    pub memory: &'r Memory<'a>,
    pub ghost rows: { flat_rows (rows_of (held memory.now)) ≡ flat_rows (used_rows memory.now) },
    pub ghost cells: { flat_cells (cells_of (held memory.now)) ≡ flat_cells (used_cells memory.now) },
    pub ghost bytes: { bytes_of (held memory.now) ≡ used_bytes memory.now },
    pub ghost weight: { memory.now.weight ≡ weight_of (held memory.now) },
    pub ghost room: { room_for memory.now ≡ true },
    pub ghost sound: { valid memory.now.boot (held memory.now) ≡ true },
}

impl<'r> View<'r, '_> {
    // The node at a spot.
    pub fn head(&self, s: Spot) -> Head
        requires { Here (held self.now.memory.now) (spot_in (held self.now.memory.now)) s }
        ensures { Reads (held self.now.memory.now) (spot_in (held self.now.memory.now)) (mark_in (held self.now.memory.now)) s result }
    {
        let memory = self.memory;
        let r = memory.nodes.items[s.node];
        let at = s.at + r.name;
        let first = Mark {
            node: s.node,
            number: 0,
            property: s.property,
            at,
        };
        let next = Spot {
            node: s.node + 1,
            property: s.property + r.properties,
            at: at + r.bytes,
        };
        Head {
            depth: r.depth,
            properties: r.properties,
            first,
            next,
        }
    }

    // The name of a node.
    pub fn name(&self, s: Spot) -> &'r [u8]
        requires { Here (held self.now.memory.now) (spot_in (held self.now.memory.now)) s }
        ensures { result.now ≡ (nth (held self.now.memory.now) s.node).name }
    {
        let memory = self.memory;
        let r = memory.nodes.items[s.node];
        memory.pool.part(s.at, r.name)
    }

    // The mark behind a property's.
    pub fn behind(&self, m: Mark) -> Mark
        requires { On (held self.now.memory.now) (mark_in (held self.now.memory.now)) m }
        ensures { result ≡ mark_in (held self.now.memory.now) m.node (m.number + 1) }
    {
        let memory = self.memory;
        let r = memory.properties.items[m.property];
        Mark {
            node: m.node,
            number: m.number + 1,
            property: m.property + 1,
            at: m.at + r.name + r.value,
        }
    }

    // The name of a property.
    pub fn property_name(&self, m: Mark) -> &'r [u8]
        requires { On (held self.now.memory.now) (mark_in (held self.now.memory.now)) m }
        ensures { result.now ≡ (property_of (held self.now.memory.now) m.node m.number).0 }
    {
        let memory = self.memory;
        let r = memory.properties.items[m.property];
        memory.pool.part(m.at, r.name)
    }

    // The value of a property.
    pub fn value(&self, m: Mark) -> &'r [u8]
        requires { On (held self.now.memory.now) (mark_in (held self.now.memory.now)) m }
        ensures { result.now ≡ (property_of (held self.now.memory.now) m.node m.number).1 }
    {
        let memory = self.memory;
        let r = memory.properties.items[m.property];
        memory.pool.part(m.at + r.name, r.value)
    }
}

impl Live<'_> {
    fn view(&self) -> View<'_, '_>
        ensures { result.memory.now ≡ self.now.memory }
    {
        View {
            memory: &self.memory,
        }
    }
}

impl Tape for Live<'_> {
    ghost nodes = { λ s. held s.memory };

    ghost boot = { λ s. s.memory.boot };

    ghost sound = { λ s. s.sound };

    ghost spot = { λ s. spot_in (held s.memory) };

    ghost mark = { λ s. mark_in (held s.memory) };

    ghost spotted = { λ s i. refl };

    ghost numbered = { λ s i k. (refl, refl) };

    fn counts(&self) -> Counts {
        Counts {
            nodes: self.memory.nodes.used,
            properties: self.memory.properties.used,
            weight: self.memory.weight,
        }
    }

    fn boot_number(&self) -> u32 {
        self.memory.boot
    }

    fn start(&self) -> Spot {
        Spot {
            node: 0,
            property: 0,
            at: 0,
        }
    }

    fn head(&self, s: Spot) -> Head {
        self.view().head(s)
    }

    fn name(&self, s: Spot) -> &[u8] {
        self.view().name(s)
    }

    fn behind(&self, m: Mark) -> Mark {
        self.view().behind(m)
    }

    fn property_name(&self, m: Mark) -> &[u8] {
        self.view().property_name(m)
    }

    fn value(&self, m: Mark) -> &[u8] {
        self.view().value(m)
    }

    fn insert_node(&mut self, s: Spot, depth: usize, name: &[u8]) {
        let memory = &mut self.memory;
        let one = [NodeRecord {
            depth,
            name: name.len(),
            properties: 0,
            bytes: 0,
        }];
        memory.nodes.insert(s.node, &one);
        memory.pool.insert(s.at, name);
        memory.weight += node_weight(name.len());
    }

    fn remove_node(&mut self, s: Spot) {
        let memory = &mut self.memory;
        let r = memory.nodes.items[s.node];
        memory.nodes.remove(s.node, 1);
        memory.pool.remove(s.at, r.name);
        memory.weight -= node_weight(r.name);
    }

    fn insert_property(&mut self, s: Spot, name: &[u8], value: &[u8]) {
        let memory = &mut self.memory;
        let mut r = memory.nodes.items[s.node];
        let at = s.at + r.name;
        r.properties += 1;
        r.bytes += name.len() + value.len();
        memory.nodes.items[s.node] = r;
        let one = [PropertyRecord {
            name: name.len(),
            value: value.len(),
        }];
        memory.properties.insert(s.property, &one);
        memory.pool.insert(at, name);
        memory.pool.insert(at + name.len(), value);
        memory.weight += property_weight(name.len(), value.len());
    }

    fn remove_property(&mut self, s: Spot, m: Mark) {
        let memory = &mut self.memory;
        let p = memory.properties.items[m.property];
        let n = p.name + p.value;
        let mut r = memory.nodes.items[s.node];
        r.properties -= 1;
        r.bytes -= n;
        memory.nodes.items[s.node] = r;
        memory.properties.remove(m.property, 1);
        memory.pool.remove(m.at, n);
        memory.weight -= property_weight(p.name, p.value);
    }

    fn overwrite(&mut self, m: Mark, value: &[u8]) {
        let memory = &mut self.memory;
        let r = memory.properties.items[m.property];
        memory.pool.overwrite(m.at + r.name, value);
    }
}
