// A reading on its way.
ghost use Rattle.reader.specs.Seen.{Bounded};

use crate::seen::Seen;
use blob::blob::Blob;
use tree::counts::Counts;

// A blob, the names that its open nodes have so far, and how much has been read. The table has room for what may still come.
#[derive(Drop)]
pub struct Reader<'a> {
    pub blob: Blob<'a>,
    pub seen: Seen,
    pub counts: Counts,
    ghost bounded: { Bounded seen.at.items counts },
}
