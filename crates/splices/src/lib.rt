// Elements written into a slice; `lent::Lent` puts them into the used part of a lent one, and takes them out of it.
#![tactic(auto)]

ghost use Rattle.std.specs.Prelude.{◌≡◌, ◌+◌, ◌≤◌, length};
ghost use Rattle.splices.specs.Splices.{written};

pub mod lent;

// Writes `new` from index `at` on.
pub fn put<T: Copy>(xs: &mut [T], at: usize, new: &[T])
    requires { at + length new.now ≤ length xs.old }
    ensures { xs.new ≡ written xs.old at new.now }
{
    let end = at + new.len();
    xs[at..end].copy_from_slice(new);
}
