// The tokens of the structure block.
ghost use Rattle.std.specs.Prelude.{◌≡◌, ◌+◌, ◌≤◌, IfSome};
ghost use Rattle.blob.specs.Tokens.{step_of, begin_at, property_at, token_at};

use crate::blob::Blob;
use crate::numbers::be32_at;
use crate::text::text_at;
use crate::types::{Step, Tag, Token};
use tree::numbers::rounded4;

pub const TOKEN_SIZE: usize = 4;
// A property's token, its value's length and its name's offset.
pub const PROPERTY_SIZE: usize = 12;

// Where these two are in a property.
pub const AT_LENGTH: usize = 4;

pub const AT_NAME: usize = 8;

impl<'a> Blob<'a> {
    #[tactic(auto, unfolding(crate::specs::Tokens::begin_at))]
    fn begin_at(&self, p: usize) -> Option<Step<'a>>
        requires { p + 4 ≤ self.now.layout.end }
        ensures { step_of result ≡ begin_at self.now.bytes.now self.now.layout p }
    {
        let name = text_at(self.bytes, p + TOKEN_SIZE, self.layout.end)?;
        let next = p + TOKEN_SIZE + rounded4(name.len() + 1);
        if next > self.layout.end {
            return None;
        }
        Some(Step {
            token: Token::Begin { name },
            next,
        })
    }

    #[tactic(auto, unfolding(crate::specs::Tokens::property_at))]
    fn property_at(&self, p: usize) -> Option<Step<'a>>
        requires { p + 4 ≤ self.now.layout.end }
        ensures { step_of result ≡ property_at self.now.bytes.now self.now.layout p }
    {
        let rest = self.layout.end - p;
        if rest < PROPERTY_SIZE {
            return None;
        }
        let len = be32_at(self.bytes, p + AT_LENGTH) as usize;
        let padded = rounded4(len);
        if padded > rest - PROPERTY_SIZE {
            return None;
        }
        let offset = be32_at(self.bytes, p + AT_NAME) as usize;
        let name = text_at(
            self.bytes,
            self.layout.strings + offset,
            self.layout.strings_end,
        )?;
        let from = p + PROPERTY_SIZE;
        let value = &self.bytes[from..from + len];
        Some(Step {
            token: Token::Property { name, value },
            next: from + padded,
        })
    }

    // The token at `p`, and where the next one starts; none where it is unknown or cut, or is a last one before the block's end.
    #[tactic(auto, unfolding(crate::specs::Tokens::token_at))]
    pub fn token_at(&self, p: usize) -> Option<Step<'a>>
        ensures value { step_of result ≡ token_at self.now.bytes.now self.now.layout p }
        ensures bounds { IfSome result (λ s. (p + 4 ≤ s.next) × (s.next ≤ self.now.layout.end)) }
    {
        let end = self.layout.end;
        if p > end || end - p < TOKEN_SIZE {
            return None;
        }
        let next = p + TOKEN_SIZE;
        let token = match Tag::try_from(be32_at(self.bytes, p)).ok()? {
            Tag::Begin => return self.begin_at(p),
            Tag::Property => return self.property_at(p),
            Tag::End => Token::End,
            Tag::Nop => Token::Nop,
            Tag::Finish if next == end => Token::Finish,
            Tag::Finish => return None,
        };
        Some(Step { token, next })
    }
}
