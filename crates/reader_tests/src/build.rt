// Builds blobs for the tests, token by token.
use blob::types::Tag;
use reader::read::read;
use std::alloc::{AllocError, Global};

// A token, or something of the strings block.
#[derive(Clone, Copy)]
pub enum Part<'a> {
    Begin(&'a [u8]),
    End,
    // A property by its name, which goes to the end of the strings block, and its value.
    Property(&'a [u8], &'a [u8]),
    // A property without a value by its name's offset.
    PropertyAt(u32),
    Skipped,
    Finish,
    // Any other number.
    Number(u32),
    // Bytes of the strings block, without a zero byte behind them.
    Text(&'a [u8]),
}

// A structure block and a strings block that grow.
#[derive(Drop)]
pub struct Blocks {
    structure: Vec<u8>,
    strings: Vec<u8>,
}

// A size as a blob has it. None here passes 32 bits.
fn size32(n: usize) -> u32 {
    u32::try_from(n).unwrap_or(u32::MAX)
}

fn put32(out: &mut Vec<u8>, n: u32) -> Result<(), AllocError> {
    out.extend_from_slice(&n.to_be_bytes())
}

// Bytes, and zero bytes up to a multiple of 4: counted here, so that no test rests on the rounding that it tests.
fn put_padded(out: &mut Vec<u8>, bytes: &[u8]) -> Result<(), AllocError> {
    out.extend_from_slice(bytes)?;
    let zeros = [0; 3];
    out.extend_from_slice(&zeros[0..3 - (bytes.len() + 3) % 4])
}

fn put_name(out: &mut Vec<u8>, name: &[u8]) -> Result<(), AllocError> {
    put32(out, Tag::Begin as u32)?;
    out.extend_from_slice(name)?;
    let zeros = [0; 4];
    out.extend_from_slice(&zeros[0..4 - name.len() % 4])
}

impl Blocks {
    pub fn new(heap: Global) -> Blocks {
        Blocks {
            structure: Vec::new(heap),
            strings: Vec::new(heap),
        }
    }

    fn property(&mut self, name: &[u8], value: &[u8]) -> Result<(), AllocError> {
        let numbers = [
            Tag::Property as u32,
            size32(value.len()),
            size32(self.strings.len()),
        ];
        for n in numbers {
            put32(&mut self.structure, n)?;
        }
        put_padded(&mut self.structure, value)?;
        self.strings.extend_from_slice(name)?;
        self.strings.extend_from_slice(&[0])
    }

    fn property_at(&mut self, offset: u32) -> Result<(), AllocError> {
        for n in [Tag::Property as u32, 0, offset] {
            put32(&mut self.structure, n)?;
        }
        Ok(())
    }

    fn add(&mut self, part: Part) -> Result<(), AllocError> {
        match part {
            Part::Begin(name) => put_name(&mut self.structure, name),
            Part::End => put32(&mut self.structure, Tag::End as u32),
            Part::Property(name, value) => self.property(name, value),
            Part::PropertyAt(offset) => self.property_at(offset),
            Part::Skipped => put32(&mut self.structure, Tag::Nop as u32),
            Part::Finish => put32(&mut self.structure, Tag::Finish as u32),
            Part::Number(n) => put32(&mut self.structure, n),
            Part::Text(bytes) => self.strings.extend_from_slice(bytes),
        }
    }

    pub fn all(&mut self, parts: &[Part]) -> Result<(), AllocError> {
        for part in parts {
            self.add(*part)?;
        }
        Ok(())
    }

    // The blob: no reservation, then the structure block at 56, then the strings block.
    pub fn blob(&self, heap: Global) -> Result<Vec<u8>, AllocError> {
        let size = self.structure.len();
        let strings = size.wrapping_add(56);
        let total = strings.wrapping_add(self.strings.len());
        let numbers = [
            0xd00d_feed,
            size32(total),
            56,
            size32(strings),
            40,
            17,
            16,
            7,
            size32(self.strings.len()),
            size32(size),
            0,
            0,
            0,
            0,
        ];
        let mut out = Vec::new(heap);
        for n in numbers {
            put32(&mut out, n)?;
        }
        out.extend_from_slice(self.structure.as_slice())?;
        out.extend_from_slice(self.strings.as_slice())?;
        Ok(out)
    }
}

// Overwrites the number at an offset, as far as there are bytes.
pub fn set32(bytes: &mut Vec<u8>, at: usize, n: u32) {
    for (old, new) in bytes
        .iter_mut()
        .skip(at)
        .take(4)
        .zip(n.to_be_bytes().iter())
    {
        *old = *new;
    }
}

// The number of nodes, or the number and the place of the refusal.
// A refusal is a number here, since that is what a user sees and what the documents list.
pub type Verdict = Result<usize, (u32, usize)>;

pub fn verdict(bytes: &[u8]) -> Verdict {
    read(bytes)
        .map(|flat| flat.counts().nodes)
        .map_err(|refusal| (refusal.number(), refusal.place()))
}

pub fn blob_of(heap: Global, parts: &[Part]) -> Result<Vec<u8>, AllocError> {
    let mut blocks = Blocks::new(heap);
    blocks.all(parts)?;
    blocks.blob(heap)
}

pub fn verdict_of(heap: Global, parts: &[Part]) -> Result<Verdict, AllocError> {
    let bytes = blob_of(heap, parts)?;
    Ok(verdict(bytes.as_slice()))
}

// A root with a property, and a node with another. The structure block has 64 bytes.
pub fn sample(heap: Global) -> Result<Vec<u8>, AllocError> {
    let parts = [
        Part::Begin(b""),
        Part::Property(b"model", b"small\0"),
        Part::Begin(b"soc"),
        Part::Property(b"reg", b"\0\0\0\x01"),
        Part::End,
        Part::End,
        Part::Finish,
    ];
    blob_of(heap, &parts)
}
