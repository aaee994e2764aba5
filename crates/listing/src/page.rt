// What is printed of a file.
ghost use Rattle.std.specs.Prelude.{◌≡◌, IfOk};
ghost use Rattle.reader.specs.Reading.{entries_of, reading};
ghost use Rattle.listing.specs.Page.{value_text, line_of, lines_of, good_line, good_page, refused_line, page};
ghost use Rattle.listing.specs.Rows.{place_of, held};
ghost use Rattle.listing.specs.Shown.{Appended};

use crate::rows::{Place, Sorted, arrange, collect_rows};
use crate::text::{is_text, push_hex, push_quoted};
use blob::types::Refusal;
use reader::flat::Flat;
use reader::read::read;
use std::alloc::{AllocError, Global};
use tree::counts::Counts;

// Appends the length of a value, its bytes, and its text where it is one.
fn push_value(out: &mut Vec<u8>, value: &[u8]) -> Result<(), AllocError>
    ensures { Appended result out.old.items out.new.items (value_text value.now) }
{
    let len = value.len();
    let count = format!(in *out.allocator(); " {len}")?;
    out.extend_from_slice(count.as_bytes())?;
    if len != 0 {
        out.push(b' ')?;
        push_hex(out, value)?;
    }
    if is_text(value) {
        out.push(b' ')?;
        push_quoted(out, value)?;
    }
    Ok(())
}

// Appends the line of a place.
fn push_row(out: &mut Vec<u8>, place: &Place, value: &[u8]) -> Result<(), AllocError>
    ensures { Appended result out.old.items out.new.items (line_of (place_of place.now, value.now)) }
{
    out.extend_from_slice(place.path.as_slice())?;
    if let Some(name) = place.name {
        out.push(b' ')?;
        out.extend_from_slice(name)?;
        push_value(out, value)?;
    }
    out.push(b'\n')?;
    Ok(())
}

fn push_rows(out: &mut Vec<u8>, rows: &Sorted) -> Result<(), AllocError>
    ensures { Appended result out.old.items out.new.items (lines_of (held rows.now.entries)) }
{
    for (place, value) in rows {
        push_row(out, place, *value)?;
    }
    Ok(())
}

// The first line of a blob that is accepted. It allocates, so it takes an allocator beside the file's name.
fn good_line(heap: Global, file: &str, boot: u32, counts: Counts) -> Result<Vec<u8>, AllocError>
    ensures { IfOk result (λ v. v.items ≡ good_line file.now boot counts.nodes counts.properties counts.weight) }
{
    let Counts {
        nodes,
        properties,
        weight,
    } = counts;
    let line = format!(in heap;
        "{file}: ok boot={boot} nodes={nodes} properties={properties} weight={weight}\n"
    )?;
    Ok(line.into_bytes())
}

// All that is printed of a blob that is accepted.
fn list_good(heap: Global, file: &str, flat: &Flat) -> Result<Vec<u8>, AllocError>
    ensures { IfOk result (λ v. v.items ≡ good_page file.now flat.now.blob.layout.boot (entries_of flat.now.blob.bytes.now flat.now.blob.layout)) }
{
    let mut out = good_line(heap, file, flat.boot_cpu(), flat.counts())?;
    let rows = arrange(heap, collect_rows(heap, flat.tokens())?)?;
    push_rows(&mut out, &rows)?;
    Ok(out)
}

fn list_refused(heap: Global, file: &str, refusal: Refusal) -> Result<Vec<u8>, AllocError>
    ensures { IfOk result (λ v. v.items ≡ refused_line file.now refusal) }
{
    let number = refusal.number();
    let place = refusal.place();
    let line = format!(in heap; "{file}: refused {number} at {place}: {refusal}\n")?;
    Ok(line.into_bytes())
}

// What is printed of a file that holds these bytes.
pub fn list(heap: Global, file: &str, bytes: &[u8]) -> Result<Vec<u8>, AllocError>
    ensures { IfOk result (λ v. v.items ≡ page file.now (reading bytes.now)) }
{
    match read(bytes) {
        Ok(flat) => list_good(heap, file, &flat),
        Err(refusal) => list_refused(heap, file, refusal),
    }
}
