// The header of a blob.
ghost use Rattle.std.specs.Prelude.{◌≡◌, ◌^◌, ◌<◌, ◌≤◌, true, length, IfOk};
ghost use Rattle.names.specs.Names.{each};
ghost use Rattle.blob.specs.Grammar.{Accepts};
ghost use Rattle.tree.specs.Numbers.{be32};
ghost use Rattle.blob.specs.Header.{total_size, identified, versioned, is_zero, placed, layout_of, header, Within};

use crate::numbers::be32_at;
use crate::types::{Layout, Refusal};

const HEADER_SIZE: usize = 40;

const MAGIC: usize = 0xd00d_feed;

const VERSION: usize = 17;

const COMPATIBLE: usize = 16;

const LARGEST: usize = 40960;
// The reservation block is its end mark alone: a pair of 64-bit zeros.
const RESERVATION_SIZE: usize = 16;

const RESERVATION_ALIGN: usize = 8;

const STRUCTURE_ALIGN: usize = 4;

// Byte offsets of the header's numbers.
const AT_MAGIC: usize = 0;

pub const AT_TOTAL: usize = 4;

const AT_STRUCTURE: usize = 8;

pub const AT_STRINGS: usize = 12;

const AT_RESERVATION: usize = 16;

const AT_VERSION: usize = 20;

const AT_COMPATIBLE: usize = 24;

const AT_BOOT: usize = 28;

pub const AT_STRINGS_SIZE: usize = 32;

pub const AT_STRUCTURE_SIZE: usize = 36;

// Bytes that have room for a header.
#[derive(Clone, Copy)]
struct Header<'a> {
    bytes: &'a [u8],
    ghost whole: { 40 ≤ length bytes.now },
}

impl Header<'_> {
    fn number(&self, at: usize) -> usize
        requires { at ≤ 36 }
        ensures value { result ≡ be32 self.now.bytes.now at }
        ensures small { result < 2 ^ 32 }
    {
        be32_at(self.bytes, at) as usize
    }

    #[tactic(auto, unfolding(crate::specs::Header::identified))]
    fn is_identified(&self) -> bool
        ensures value { result ≡ identified self.now.bytes.now }
        ensures bounds { result ≡ true → total_size self.now.bytes.now ≤ length self.now.bytes.now }
    {
        let total = self.number(AT_TOTAL);
        self.number(AT_MAGIC) == MAGIC && total >= HEADER_SIZE && total <= self.bytes.len()
    }

    #[tactic(auto, unfolding(crate::specs::Header::versioned))]
    fn is_versioned(&self) -> bool
        ensures { result ≡ versioned self.now.bytes.now }
    {
        self.number(AT_VERSION) == VERSION && self.number(AT_COMPATIBLE) == COMPATIBLE
    }

    #[tactic(auto, unfolding(crate::specs::Header::placed))]
    fn is_placed(&self) -> bool
        requires { total_size self.now.bytes.now ≤ length self.now.bytes.now }
        ensures { result ≡ placed self.now.bytes.now }
    {
        let total = self.number(AT_TOTAL);
        let structure = self.number(AT_STRUCTURE);
        let strings = self.number(AT_STRINGS);
        let reservation = self.number(AT_RESERVATION);
        if structure + self.number(AT_STRUCTURE_SIZE) > total
            || strings + self.number(AT_STRINGS_SIZE) > total
            || reservation + RESERVATION_SIZE > total
        {
            return false;
        }
        reservation % RESERVATION_ALIGN == 0
            && structure % STRUCTURE_ALIGN == 0
            && all_zero(&self.bytes[reservation..reservation + RESERVATION_SIZE])
    }

    fn layout(&self) -> Layout
        ensures { result ≡ layout_of self.now.bytes.now }
    {
        let start = self.number(AT_STRUCTURE);
        let strings = self.number(AT_STRINGS);
        Layout {
            start,
            end: start + self.number(AT_STRUCTURE_SIZE),
            strings,
            strings_end: strings + self.number(AT_STRINGS_SIZE),
            boot: be32_at(self.bytes, AT_BOOT),
        }
    }
}

fn all_zero(s: &[u8]) -> bool
    ensures { result ≡ each is_zero s.now }
{
    s.iter().all(|x| *x == 0)
}

// Where the blocks of a blob lie, or why the bytes are no blob.
pub fn check_header(bytes: &[u8]) -> Result<Layout, Refusal>
    ensures value { result ≡ header bytes.now }
    ensures format { Accepts bytes.now result }
    ensures within { IfOk result (λ l. Within bytes.now l) }
{
    if bytes.len() < HEADER_SIZE {
        return Err(Refusal::NotABlob);
    }
    let header = Header { bytes };
    if !header.is_identified() {
        return Err(Refusal::NotABlob);
    }
    if !header.is_versioned() {
        return Err(Refusal::Version);
    }
    if !header.is_placed() {
        return Err(Refusal::Blocks);
    }
    if header.number(AT_TOTAL) > LARGEST {
        return Err(Refusal::TooLarge);
    }
    Ok(header.layout())
}
