// A cursor over the tokens of a blob.
ghost use Rattle.std.specs.Prelude.{◌≡◌, ◌+◌, ◌-◌, ◌≤◌, OnSome};
ghost use Rattle.reader.specs.Handing.{ahead, Handed};
ghost use Rattle.std.specs.Iterator.{at_most};

use crate::tokens::Item;
use blob::blob::Blob;
use blob::types::Token;

#[derive(Clone, Copy)]
pub struct Tokens<'a> {
    pub(crate) blob: Blob<'a>,
    pub(crate) next: usize,
    ghost within: { next ≤ blob.layout.end },
}

impl<'a> Iterator for Tokens<'a> {
    type Item = Item<'a>;

    ghost next_gives = { λ s r t. (t.blob ≡ s.blob) × Handed r (ahead s.blob.bytes.now s.blob.layout s.next) (ahead t.blob.bytes.now t.blob.layout t.next) × OnSome r (s.next + 4 ≤ t.next) };

    ghost remaining = { λ s. at_most (s.blob.layout.end - s.next) };

    // The next item, or nothing where the end of the block, or a fault, has been reached.
    fn next(&mut self) -> Option<Item<'a>> {
        // Each token says where the next one is.
        while let Some(step) = self.blob.token_at(self.next) {
            let at = self.next;
            self.next = step.next;
            match step.token {
                Token::Begin { name } => return Some(Item::Begin { at, name }),
                Token::Property { name, value } => return Some(Item::Property { at, name, value }),
                Token::End => return Some(Item::End { at }),
                // Nothing is found behind the last mark of the block.
                Token::Nop | Token::Finish => {}
            }
        }
        None
    }
}
