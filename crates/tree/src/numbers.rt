// Rounding, as blobs pad.
ghost use Rattle.std.specs.Prelude.{◌≡◌, ◌+◌, ◌^◌, ◌<◌};
ghost use Rattle.tree.specs.Numbers.{pad4};

// `n` rounded up to a multiple of 4.
pub fn rounded4(n: usize) -> usize
    requires { n + 3 < 2 ^ 64 }
    ensures { result ≡ pad4 n }
{
    n.next_multiple_of(4)
}
