// A blob that was read.
ghost use Rattle.std.specs.Prelude.{◌≡◌, true, Ok};
ghost use Rattle.tree.specs.Entries.{well_listed};
ghost use Rattle.blob.specs.Header.{header};
ghost use Rattle.reader.specs.Handing.{named_tokens, until, ahead, Starts};
ghost use Rattle.reader.specs.Reading.{entries_of, tokens_of, Tally};

use crate::cursor::Tokens;
use blob::blob::Blob;
use tree::counts::Counts;

// A blob within the limits, and how much it holds. `read` makes one.
#[derive(Clone, Copy)]
pub struct Flat<'a> {
    pub(crate) blob: Blob<'a>,
    pub(crate) counts: Counts,
    pub ghost laid: { header blob.bytes.now ≡ Ok blob.layout },
    pub ghost tally: { Tally counts (entries_of blob.bytes.now blob.layout) },
    pub ghost listed: { well_listed (entries_of blob.bytes.now blob.layout) ≡ true },
    pub ghost named: { named_tokens (until (tokens_of blob.bytes.now blob.layout)) ≡ true },
}

impl<'a> Flat<'a> {
    pub fn boot_cpu(&self) -> u32
        ensures { result ≡ self.now.blob.layout.boot }
    {
        self.blob.layout.boot
    }

    pub fn counts(&self) -> Counts
        ensures { result ≡ self.now.counts }
    {
        self.counts
    }

    // A cursor at the first token.
    pub fn tokens(&self) -> Tokens<'a>
        ensures { Starts self.now.blob.bytes.now self.now.blob.layout (ahead result.blob.bytes.now result.blob.layout result.next) }
    {
        let blob = self.blob;
        let next = blob.layout.start;
        Tokens { blob, next }
    }
}
