// A blob whose blocks lie within its bytes.
ghost use Rattle.std.specs.Prelude.{◌≤◌, length};

use crate::types::Layout;

#[derive(Clone, Copy)]
pub struct Blob<'a> {
    pub bytes: &'a [u8],
    pub layout: Layout,
    ghost structure_order: { layout.start ≤ layout.end },
    ghost structure_within: { layout.end ≤ length bytes.now },
    ghost strings_order: { layout.strings ≤ layout.strings_end },
    ghost strings_within: { layout.strings_end ≤ length bytes.now },
}
