// Names as they stand in a blob: bytes up to a zero byte.
ghost use Rattle.std.specs.Prelude.{◌≡◌, ◌+◌, ◌<◌, ◌≤◌, length, IfSome};
ghost use Rattle.names.specs.Names.{before};
ghost use Rattle.blob.specs.Tokens.{bytes_of, text_at};

use names::names::find;

// The bytes from `from` up to the first zero byte, which stands before `to`.
pub fn text_at(bytes: &[u8], from: usize, to: usize) -> Option<&[u8]>
    requires { to ≤ length bytes.now }
    ensures value { bytes_of result ≡ text_at bytes.now from to }
    ensures short { IfSome result (λ s. from + length s.now < to) }
{
    let part = bytes.get(from..to)?;
    let n = find(part, 0);
    if n < part.len() {
        Some(&part[..n])
    } else {
        None
    }
}
