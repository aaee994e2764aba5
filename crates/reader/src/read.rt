// Nodes and their bodies.
ghost use Rattle.std.specs.Prelude.{◌≡◌, ℕ, ◌+◌, ◌≤◌, true, false, List, [], ◌∷◌, ◌++◌, drop, length, IfOk, Some};
ghost use Rattle.tree.specs.Entries.{tree_of};
ghost use Rattle.tree.specs.Places.{Bytes};
ghost use Rattle.tree.specs.Trees.{Sound};
ghost use Rattle.blob.specs.Tokens.{begin, property, token_at};
ghost use Rattle.reader.specs.Passing.{Named, Passed, Noted, from};
ghost use Rattle.reader.specs.Read.{read_of};
ghost use Rattle.reader.specs.Reading.{entries_of, reading, Exact};
ghost use Rattle.reader.specs.Seen.{Spells};
ghost use Rattle.reader.specs.Verdict.{opened, kids};

use crate::flat::Flat;
use crate::reader::Reader;
use crate::seen::Seen;
use blob::blob::Blob;
use blob::header::check_header;
use blob::numbers::be32_at;
use blob::tokens::{AT_NAME, TOKEN_SIZE};
use blob::types::{Refusal, Token};
use names::names::{is_node_name, is_property_name};
use tree::counts::Counts;

// An open node: where its names begin in the table, the length of its path (0 for the root), whether a child has come.
// The flag is no enum, since each use of one would turn it back into the clauses' Bool.
#[derive(Clone, Copy)]
struct Frame {
    base: usize,
    path: usize,
    children: bool,
}

impl<'a> Reader<'a> {
    // A property at `at`, in a node whose names begin at `base`.
    fn read_property(
        &mut self,
        base: usize,
        at: usize,
        name: &[u8],
        value: &[u8],
    ) -> Result<(), Refusal>
        requires token { (n : ℕ) × (token_at self.old.blob.bytes.now self.old.blob.layout at ≡ Some (property name.now value.now, n)) }
        requires above { base ≤ length self.old.seen.at.items }
        ensures { (ns : List Bytes) → Spells self.old.blob.bytes.now (drop base self.old.seen.at.items) ns → Noted self.old self.new base ns at name.now value.now result }
    {
        let bytes = self.blob.bytes;
        if !is_property_name(name) || self.seen.has(bytes, base, name) {
            return Err(Refusal::Name(at));
        }
        self.counts = self
            .counts
            .adding_property(name.len(), value.len())
            .ok_or(Refusal::Limit(at))?;
        let offset = self.blob.layout.strings + be32_at(bytes, at + AT_NAME) as usize;
        self.seen.push(offset);
        Ok(())
    }

    // The node at `at`, whose name and body the token there gives, in an open node; answers where the next token stands.
    #[cycle(read_body_read_node)]
    fn read_node(
        &mut self,
        frame: Frame,
        at: usize,
        name: &[u8],
        next: usize,
    ) -> Result<usize, Refusal>
        requires token { token_at self.old.blob.bytes.now self.old.blob.layout at ≡ Some (begin name.now, next) }
        requires ahead { (at + 4 ≤ next) × (next ≤ self.old.blob.layout.end) }
        requires above { frame.base ≤ length self.old.seen.at.items }
        requires short { frame.path ≤ 255 }
        ensures { (ns : List Bytes) → Spells self.old.blob.bytes.now (drop frame.base self.old.seen.at.items) ns → let g = opened frame.path frame.children ns in let names = kids g ++ (name.now ∷ []) in Passed self.old self.new at g (λ gs. opened frame.path true names ∷ gs) (Named self.old.blob.bytes.now frame.base self.old.seen.at.items self.new.seen.at.items names) result }
    {
        // At the first child the names so far are of properties, and go.
        if !frame.children {
            self.seen.at.truncate(frame.base);
        }
        if !is_node_name(name) || self.seen.has(self.blob.bytes, frame.base, name) {
            return Err(Refusal::Name(at));
        }
        let path = frame.path + 1 + name.len();
        self.counts = self
            .counts
            .adding_node(path, name.len())
            .ok_or(Refusal::Limit(at))?;
        self.seen.push(at + TOKEN_SIZE);
        self.read_body(next, path)
    }

    // The body from `start` of a node whose path has `path` bytes; answers where the token behind its end stands.
    #[cycle(read_body_read_node)]
    fn read_body(&mut self, start: usize, path: usize) -> Result<usize, Refusal>
        requires within { start ≤ self.old.blob.layout.end }
        requires short { path ≤ 255 }
        ensures { Passed self.old self.new start (opened path false []) (λ gs. gs) (self.new.seen.at.items ≡ self.old.seen.at.items) result }
    {
        let base = self.seen.at.len();
        let mut p = start;
        let mut children = false;
        // Each token says where the next one is.
        loop {
            let step = self.blob.token_at(p).ok_or(Refusal::Token(p))?;
            match step.token {
                Token::Begin { name } => {
                    let frame = Frame {
                        base,
                        path,
                        children,
                    };
                    p = self.read_node(frame, p, name, step.next)?;
                    children = true;
                }
                Token::Property { name, value } => {
                    if children {
                        return Err(Refusal::Token(p));
                    }
                    self.read_property(base, p, name, value)?;
                    p = step.next;
                }
                Token::End => {
                    self.seen.at.truncate(base);
                    return Ok(step.next);
                }
                Token::Nop => {
                    p = step.next;
                }
                Token::Finish => return Err(Refusal::Token(p)),
            }
        }
    }

    // The root, with nothing but skipped tokens around it, and the end of the block.
    fn read_tree(&mut self) -> Result<Counts, Refusal>
        requires { self.old.seen.at.items ≡ [] }
        ensures { result ≡ from self.old [] self.old.blob.layout.start }
    {
        let mut p = self.blob.layout.start;
        // Each token says where the next one is.
        loop {
            let step = self.blob.token_at(p).ok_or(Refusal::Token(p))?;
            match step.token {
                Token::Begin { name } => {
                    if self.counts.nodes != 0 {
                        return Err(Refusal::Token(p));
                    }
                    if !name.is_empty() {
                        return Err(Refusal::Name(p));
                    }
                    self.counts = Counts::zero().with_node(0);
                    p = self.read_body(step.next, 0)?;
                }
                Token::Finish => {
                    if self.counts.nodes == 0 {
                        return Err(Refusal::Token(p));
                    }
                    return Ok(self.counts);
                }
                Token::Nop => {
                    p = step.next;
                }
                Token::Property { .. } | Token::End => return Err(Refusal::Token(p)),
            }
        }
    }
}

// Reads a blob: where it is one within the limits, its tokens can be had; else the refusal says why not, and where.
pub fn read(bytes: &[u8]) -> Result<Flat<'_>, Refusal>
    ensures value { read_of result ≡ reading bytes.now }
    ensures bytes { IfOk result (λ f. f.blob.bytes.now ≡ bytes.now) }
    ensures tree { IfOk result (λ f. Sound (tree_of f.blob.layout.boot (entries_of bytes.now f.blob.layout))) }
    ensures exact { Exact bytes.now }
{
    let layout = check_header(bytes)?;
    let blob = Blob { bytes, layout };
    let mut reader = Reader {
        blob,
        seen: Seen::new(),
        counts: Counts::zero(),
    };
    let counts = reader.read_tree()?;
    Ok(Flat { blob, counts })
}
