// The memory of the packed store: a blob in front of lent bytes.
ghost use Rattle.std.specs.Prelude.{◌≡◌};

// Where the structure block begins, behind the header and an empty reservation block.
pub const STRUCTURE_START: usize = 56;

// The strings block is right behind the structure block: their sizes say how many of the bytes are in use. Without nodes the
// store is closed.
pub struct Region<'a> {
    pub bytes: &'a mut [u8],
    pub nodes: usize,
    pub properties: usize,
    pub structure: usize,
    pub strings: usize,
    pub boot: u32,
}

impl Region<'_> {
    pub(crate) fn as_bytes(&self) -> &[u8]
        ensures { result.now ≡ self.now.bytes.now }
    {
        self.bytes
    }
}
