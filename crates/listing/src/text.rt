// How values are shown.
ghost use Rattle.std.specs.Prelude.{◌≡◌, [], ◌∷◌};
ghost use Rattle.listing.specs.Shown.{hex, printable, ended, is_text, shown_byte, quoted, Appended};

use std::alloc::AllocError;

const QUOTE: u8 = b'"';

const BACKSLASH: u8 = b'\\';

// The two digits of a byte.
fn digits(b: u8) -> [u8; 2]
    ensures { result ≡ hex (b ∷ []) }
{
    let mut pair = [0; 2];
    hex::encode_to_slice([b], &mut pair).unwrap();
    pair
}

// Appends two digits for each byte.
pub fn push_hex(out: &mut Vec<u8>, bytes: &[u8]) -> Result<(), AllocError>
    ensures { Appended result out.old.items out.new.items (hex bytes.now) }
{
    for b in bytes {
        out.extend_from_slice(&digits(*b))?;
    }
    Ok(())
}

fn is_printable(b: u8) -> bool
    ensures { result ≡ printable b }
{
    matches!(b, b' '..=b'~')
}

// Whether a part is of two bytes or more, the last of them a zero byte.
fn is_ended(part: &[u8]) -> bool
    ensures { result ≡ ended part.now }
{
    let Some((end, text)) = part.split_last() else {
        return false;
    };
    *end == 0 && !text.is_empty()
}

// Whether a value is one or more texts of printable bytes, none of them empty, each with a zero byte behind it. It looks no further than the first byte that makes it none.
pub fn is_text(value: &[u8]) -> bool
    ensures { result ≡ is_text value.now }
{
    let Some((end, _)) = value.split_last() else {
        return false;
    };
    *end == 0 && value.split_inclusive(|b| !is_printable(*b)).all(is_ended)
}

// Appends a byte as it is shown between quotes. It may be any byte, and `Debug` of a text takes UTF-8 alone.
fn push_shown(out: &mut Vec<u8>, b: u8) -> Result<(), AllocError>
    ensures { Appended result out.old.items out.new.items (shown_byte b) }
{
    match b {
        0 => out.extend_from_slice(b"\\0"),
        QUOTE | BACKSLASH => out.extend_from_slice(&[BACKSLASH, b]),
        _ => out.extend_from_slice(&[b]),
    }
}

// Appends a text between quotes, without its last byte.
pub fn push_quoted(out: &mut Vec<u8>, value: &[u8]) -> Result<(), AllocError>
    ensures { Appended result out.old.items out.new.items (quoted value.now) }
{
    out.push(QUOTE)?;
    for b in &value[..value.len().saturating_sub(1)] {
        push_shown(out, *b)?;
    }
    out.push(QUOTE)?;
    Ok(())
}
