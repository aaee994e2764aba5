// One write for each token.
ghost use Rattle.std.specs.Prelude.{◌≡◌, drop, OnOk};
ghost use Rattle.loader.specs.Filling.{Loads};
ghost use Rattle.loader.specs.Trails.{path_on};
ghost use Rattle.loader.specs.Writing.{answered, written, onward, run};
ghost use Rattle.names.specs.Paths.{root};
ghost use Rattle.reader.specs.Handing.{ahead, item_of};
ghost use Rattle.store.specs.Calls.{settled};

use crate::trail::Trail;
use reader::cursor::Tokens;
use reader::tokens::Item;
use store::{Refusal, Store};

// Writes one item in the open node at the trail's path, and goes on to a node that begins or back from one that ends.
fn write_item<S: Store>(store: &mut S, trail: &mut Trail, item: Item<'_>) -> Result<(), Refusal>
    ensures answer { result ≡ answered (item_of item.entry) (path_on trail.old) (S.Readable.meaning store.old) }
    ensures after { S.Readable.meaning store.new ≡ settled result (written (item_of item.entry) (path_on trail.old) (S.Readable.meaning store.old)) (S.Readable.meaning store.old) }
    ensures path { OnOk result (path_on trail.new ≡ onward (item_of item.entry) (path_on trail.old)) }
{
    match item {
        Item::Begin { at: _, name } => {
            trail.enter(name)?;
            store.add_node(trail.path())
        }
        Item::Property { at: _, name, value } => { store.set_property(trail.path(), name, value) }
        Item::End { at: _ } => {
            trail.leave();
            Ok(())
        }
    }
}

// Writes what is handed out behind the root's beginning.
fn fill_rest<S: Store>(store: &mut S, tokens: &mut Tokens<'_>) -> Result<(), Refusal>
    ensures { (result, S.Readable.meaning store.new) ≡ run (ahead tokens.old.blob.bytes.now tokens.old.blob.layout tokens.old.next) root (S.Readable.meaning store.old) }
{
    let mut trail = Trail::new();
    for item in tokens {
        write_item(store, &mut trail, item)?;
    }
    Ok(())
}

// Fills a store that holds the root alone with what the tokens of a blob list. Whatever the tokens and the store are, it
// makes the writes of all tokens but the first, up to one that is refused, and answers that refusal.
pub fn fill<S: Store>(store: &mut S, tokens: &mut Tokens<'_>) -> Result<(), Refusal>
    ensures loads { Loads (ahead tokens.old.blob.bytes.now tokens.old.blob.layout tokens.old.next) (S.Readable.meaning store.old) result (S.Readable.meaning store.new) }
    ensures writes { (result, S.Readable.meaning store.new) ≡ run (drop 1 (ahead tokens.old.blob.bytes.now tokens.old.blob.layout tokens.old.next)) root (S.Readable.meaning store.old) }
{
    match tokens.next() {
        Some(_) => fill_rest(store, tokens),
        None => Ok(()),
    }
}
