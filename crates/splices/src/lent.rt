// Lent elements of which the first ones are in use. The memory is the caller's, since the core has no heap.
ghost use Rattle.std.specs.Prelude.{◌≡◌, ◌+◌, ◌-◌, ◌≤◌, ◌++◌, length, take, drop};
ghost use Rattle.std.specs.List.{between};
ghost use Rattle.splices.specs.Splices.{spliced_in, spliced_out, written};

use crate::put;

pub struct Lent<'a, T> {
    pub items: &'a mut [T],
    pub used: usize,
    pub ghost within: { used ≤ length items.now },
}

impl<T: Copy> Lent<'_, T> {
    // The `n` used elements from index `at` on.
    pub fn part(&self, at: usize, n: usize) -> &[T]
        requires { at + n ≤ self.now.used }
        ensures { result.now ≡ take n (drop at (take self.now.used self.now.items.now)) }
    {
        &self.items[at..at + n]
    }

    // Puts `new` behind the used elements.
    pub fn append(&mut self, new: &[T])
        requires room { self.old.used + length new.now ≤ length self.old.items.now }
        ensures used { self.new.used ≡ self.old.used + length new.now }
        ensures items { take self.new.used self.new.items.now ≡ take self.old.used self.old.items.now ++ new.now }
        ensures kept { length self.new.items.now ≡ length self.old.items.now }
        ensures same_reference { self.new.items.ghost_name ≡ self.old.items.ghost_name }
    {
        put(self.items, self.used, new);
        self.used += new.len();
    }

    // Moves the `n` elements behind the used ones to index `at` among these, and counts them as used; those past it move up.
    pub fn bring(&mut self, at: usize, n: usize)
        requires order { at ≤ self.old.used }
        requires room { self.old.used + n ≤ length self.old.items.now }
        ensures used { self.new.used ≡ self.old.used + n }
        ensures items { take self.new.used self.new.items.now ≡ spliced_in (take self.old.used self.old.items.now) at (between self.old.used (self.old.used + n) self.old.items.now) }
        ensures kept { length self.new.items.now ≡ length self.old.items.now }
        ensures same_reference { self.new.items.ghost_name ≡ self.old.items.ghost_name }
    {
        let end = self.used + n;
        self.items[at..end].rotate_right(n);
        self.used = end;
    }

    // Puts `new` at index `at` of the used elements; those past it move up.
    pub fn insert(&mut self, at: usize, new: &[T])
        requires order { at ≤ self.old.used }
        requires room { self.old.used + length new.now ≤ length self.old.items.now }
        ensures used { self.new.used ≡ self.old.used + length new.now }
        ensures items { take self.new.used self.new.items.now ≡ spliced_in (take self.old.used self.old.items.now) at new.now }
        ensures kept { length self.new.items.now ≡ length self.old.items.now }
        ensures same_reference { self.new.items.ghost_name ≡ self.old.items.ghost_name }
    {
        let end = self.used;
        put(self.items, end, new);
        self.bring(at, new.len());
    }

    // Takes `n` of the used elements from index `at` on; those past them move down.
    pub fn remove(&mut self, at: usize, n: usize)
        requires order { at + n ≤ self.old.used }
        ensures used { self.new.used ≡ self.old.used - n }
        ensures items { take self.new.used self.new.items.now ≡ spliced_out (take self.old.used self.old.items.now) at n }
        ensures kept { length self.new.items.now ≡ length self.old.items.now }
        ensures same_reference { self.new.items.ghost_name ≡ self.old.items.ghost_name }
    {
        self.items[at..self.used].rotate_left(n);
        self.used -= n;
    }

    // Writes `new` over the used elements from index `at` on.
    pub fn overwrite(&mut self, at: usize, new: &[T])
        requires order { at + length new.now ≤ self.old.used }
        ensures used { self.new.used ≡ self.old.used }
        ensures items { take self.new.used self.new.items.now ≡ written (take self.old.used self.old.items.now) at new.now }
        ensures kept { length self.new.items.now ≡ length self.old.items.now }
        ensures same_reference { self.new.items.ghost_name ≡ self.old.items.ghost_name }
    {
        put(self.items, at, new);
    }
}
