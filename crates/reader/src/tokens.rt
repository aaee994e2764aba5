// The tokens of a blob, one after another.
// What a structure block lists: the beginning of a node, a property, the end of a node, each with its byte offset. Names
// and values are parts of the blob.
#[derive(Clone, Copy)]
pub enum Item<'a> {
    Begin {
        at: usize,
        name: &'a [u8],
    },
    Property {
        at: usize,
        name: &'a [u8],
        value: &'a [u8],
    },
    End {
        at: usize,
    },
}
