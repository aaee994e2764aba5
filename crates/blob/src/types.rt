// What a reader of blobs answers.
ghost use Rattle.std.specs.Prelude.{◌≡◌, Some, IfErr};
ghost use Rattle.std.specs.Result.{result_ok};
ghost use Rattle.blob.specs.Tags.{tag_of};
ghost use Rattle.blob.specs.Refusals.{number_of, place_of, words_of};

use std::fmt;

// Why a blob is refused. A fault of a token has the token's byte offset in the blob; the others concern the whole blob.
#[derive(Clone, Copy, PartialEq, Eq, Debug)]
pub enum Refusal {
    NotABlob,
    Version,
    Blocks,
    TooLarge,
    Token(usize),
    Name(usize),
    Limit(usize),
}

impl Refusal {
    pub fn number(self) -> u32
        ensures { result ≡ number_of self }
    {
        match self {
            Refusal::NotABlob => 10,
            Refusal::Version => 11,
            Refusal::Blocks => 12,
            Refusal::Token(_) => 13,
            Refusal::Name(_) => 14,
            Refusal::TooLarge | Refusal::Limit(_) => 15,
        }
    }

    pub fn place(self) -> usize
        ensures { result ≡ place_of self }
    {
        match self {
            Refusal::Token(at) | Refusal::Name(at) | Refusal::Limit(at) => at,
            Refusal::NotABlob | Refusal::Version | Refusal::Blocks | Refusal::TooLarge => 0,
        }
    }
}

impl fmt::Display for Refusal {
    ghost output = { λ e. Some (words_of e) };

    fn fmt<W: fmt::Write>(&self, f: &mut fmt::Formatter<W>) -> fmt::Result {
        match *self {
            Refusal::NotABlob => write!(f, "not a blob"),
            Refusal::Version => write!(f, "not version 17 that is compatible with 16"),
            Refusal::Blocks => write!(f, "a block is misplaced, or memory is reserved"),
            Refusal::TooLarge => write!(f, "the blob is too large"),
            Refusal::Token(_) => write!(f, "a token is unknown, cut or out of place"),
            Refusal::Name(_) => write!(f, "a name is against the rules or used twice"),
            Refusal::Limit(_) => write!(f, "a limit is passed"),
        }
    }
}

// Where the blocks of a blob lie, each end one past its last byte, and the boot CPU number.
#[derive(Clone, Copy, PartialEq, Eq, Debug)]
pub struct Layout {
    pub start: usize,
    pub end: usize,
    pub strings: usize,
    pub strings_end: usize,
    pub boot: u32,
}

// What kind of token begins: its number in the structure block.
#[derive(Clone, Copy, PartialEq, Eq, Debug)]
pub enum Tag {
    Begin = 1,
    End = 2,
    Property = 3,
    Nop = 4,
    Finish = 9,
}

// A number that begins no token.
#[derive(Clone, Copy, PartialEq, Eq, Debug)]
pub struct UnknownTag(pub u32);

impl TryFrom<u32> for Tag {
    type Error = UnknownTag;

    ghost try_from_gives = { λ n r. (result_ok r ≡ tag_of n) × IfErr r (λ e. e.0 ≡ n) };

    // Each number stands once more, since a case has its number and no number leads back to its case.
    fn try_from(number: u32) -> Result<Tag, UnknownTag> {
        match number {
            1 => Ok(Tag::Begin),
            2 => Ok(Tag::End),
            3 => Ok(Tag::Property),
            4 => Ok(Tag::Nop),
            9 => Ok(Tag::Finish),
            _ => Err(UnknownTag(number)),
        }
    }
}

// A token of the structure block; its name and value are parts of the blob.
#[derive(Clone, Copy)]
pub enum Token<'a> {
    Begin { name: &'a [u8] },
    Property { name: &'a [u8], value: &'a [u8] },
    End,
    Nop,
    Finish,
}

// A token, and where the next one starts.
#[derive(Clone, Copy)]
pub struct Step<'a> {
    pub token: Token<'a>,
    pub next: usize,
}
