// The calls of the live store: those of any tape.
ghost use Rattle.live.specs.Records.{held};
ghost use Rattle.tape.specs.Nodes.{meaning_of};
ghost use Rattle.tape.proofs.Sounds.{good-from};

use crate::live_store::Live;
use store::{Readable, Refusal, Store};
use tape::{questions, writes};

impl Readable for Live<'_> {
    ghost meaning = { λ s. meaning_of s.memory.boot (held s.memory) };

    ghost good = { λ s. good-from s.memory.boot (held s.memory) s.sound };

    fn has_node(&self, path: &[u8]) -> Result<bool, Refusal> {
        questions::has_node(self, path)
    }

    fn value_len(&self, path: &[u8], name: &[u8]) -> Result<Option<usize>, Refusal> {
        questions::value_len(self, path, name)
    }

    fn copy_value(&self, path: &[u8], name: &[u8], out: &mut [u8]) -> Result<usize, Refusal> {
        questions::copy_value(self, path, name, out)
    }

    fn next_child(
        &self,
        path: &[u8],
        after: &[u8],
        out: &mut [u8],
    ) -> Result<Option<usize>, Refusal> {
        nexts::next_child(self, path, after, out)
    }

    fn next_property(
        &self,
        path: &[u8],
        after: &[u8],
        out: &mut [u8],
    ) -> Result<Option<usize>, Refusal> {
        nexts::next_property(self, path, after, out)
    }

    fn boot_cpu(&self) -> Result<u32, Refusal> {
        questions::boot_cpu(self)
    }
}

impl Store for Live<'_> {
    fn add_node(&mut self, path: &[u8]) -> Result<(), Refusal> {
        writes::add_node(self, path)
    }

    fn drop_node(&mut self, path: &[u8]) -> Result<(), Refusal> {
        writes::drop_node(self, path)
    }

    fn set_property(&mut self, path: &[u8], name: &[u8], value: &[u8]) -> Result<(), Refusal> {
        writes::set_property(self, path, name, value)
    }

    fn drop_property(&mut self, path: &[u8], name: &[u8]) -> Result<(), Refusal> {
        writes::drop_property(self, path, name)
    }
}
