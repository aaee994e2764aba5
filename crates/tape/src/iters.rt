// The children and the properties of a node, one after another, each with its name.
ghost use Rattle.std.specs.Prelude.{◌≡◌, ◌+◌, drop};
ghost use Rattle.tape.specs.Tapes.{Here, nth, properties_at};
ghost use Rattle.tape.specs.Iters.{ChildrenReady, PropertiesReady, children_in, children_left, entries, properties_left};

use crate::{Mark, Spot, Tape};

// The children that are left. They end by their depth and the properties by their number, so each iterator has its own state and its
// own step; both say what they give in the same words, as the first of what is left, with its name.
#[derive(Drop)]
pub struct Children<'a, T> {
    tape: &'a T,
    depth: usize,
    count: usize,
    at: Spot,
}

// The properties that are left.
#[derive(Drop)]
pub struct Properties<'a, T> {
    tape: &'a T,
    count: usize,
    at: Mark,
}

// The children of the node at `from`.
pub fn children_of<T: Tape>(t: &T, from: Spot) -> Children<'_, T>
    requires { Here (T.Tape.nodes t.now) (T.Tape.spot t.now) from }
    ensures ready { ChildrenReady T.Tape.nodes T.Tape.spot result }
    ensures left { children_left T.Tape.nodes T.Tape.spot result ≡ children_in (T.Tape.spot t.now) (nth (T.Tape.nodes t.now) from.node).depth (from.node + 1) (drop (from.node + 1) (T.Tape.nodes t.now)) }
{
    let head = t.head(from);
    Children {
        tape: t,
        depth: head.depth,
        count: t.counts().nodes,
        at: head.next,
    }
}

// The properties of the node at `at`.
pub fn properties_of<T: Tape>(t: &T, at: Spot) -> Properties<'_, T>
    requires { Here (T.Tape.nodes t.now) (T.Tape.spot t.now) at }
    ensures ready { PropertiesReady T.Tape.nodes T.Tape.mark result }
    ensures left { properties_left T.Tape.nodes T.Tape.mark result ≡ entries (T.Tape.mark t.now at.node) 0 (properties_at (T.Tape.nodes t.now) at.node) }
{
    let head = t.head(at);
    Properties {
        tape: t,
        count: head.properties,
        at: head.first,
    }
}

impl<'a, T: Tape> Iterator for Children<'a, T> {
    ghost use Rattle.std.specs.Iterator.{YieldsFirstBy, item_count};
    ghost use Rattle.tape.specs.Iters.{ChildrenReady, children_left, with_name};

    type Item = (Spot, &'a [u8]);

    ghost can_next = { ChildrenReady T.Tape.nodes T.Tape.spot };

    ghost next_gives = { YieldsFirstBy with_name (children_left T.Tape.nodes T.Tape.spot) };

    ghost remaining = { item_count (children_left T.Tape.nodes T.Tape.spot) };

    fn next(&mut self) -> Option<(Spot, &'a [u8])> {
        // Past what is below the children; each node says where the next one is.
        while self.at.node < self.count {
            let at = self.at;
            let head = self.tape.head(at);
            if head.depth <= self.depth {
                return None;
            }
            self.at = head.next;
            if head.depth - self.depth == 1 {
                return Some((at, self.tape.name(at)));
            }
        }
        None
    }
}

impl<'a, T: Tape> Iterator for Properties<'a, T> {
    ghost use Rattle.std.specs.Iterator.{YieldsFirstBy, item_count};
    ghost use Rattle.tape.specs.Iters.{PropertiesReady, properties_left, with_name};

    type Item = (Mark, &'a [u8]);

    ghost can_next = { PropertiesReady T.Tape.nodes T.Tape.mark };

    ghost next_gives = { YieldsFirstBy with_name (properties_left T.Tape.nodes T.Tape.mark) };

    ghost remaining = { item_count (properties_left T.Tape.nodes T.Tape.mark) };

    fn next(&mut self) -> Option<(Mark, &'a [u8])> {
        if self.at.number >= self.count {
            return None;
        }
        let m = self.at;
        self.at = self.tape.behind(m);
        Some((m, self.tape.property_name(m)))
    }
}
