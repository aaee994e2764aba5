// Rows in lists, and digits where there is room for them.
use listing::rows::{Place, Row, enter_row, put};
use listing::text::push_hex;
use names::names::same_bytes;
use std::alloc::{AllocError, Global};
use std::collections::BTreeMap;
use std::test::Fail;

// The row of a node, or of a property of one, which then has a name.
fn row<'a>(
    heap: Global,
    path: &[u8],
    name: Option<&'a [u8]>,
    value: &'a [u8],
) -> Result<Row<'a>, AllocError> {
    let path = Vec::from_slice(heap, path)?;
    Ok(Row {
        place: Place { path, name },
        value,
    })
}

// Nodes and properties in document order, and a later row in place of one at the same place.
#[test]
fn rows_in_order(rt: HostRuntime) -> Result<(), Fail> {
    let heap = rt.alloc();
    let mut rows = Vec::new(heap);
    put(&mut rows, row(heap, b"/b", None, b"")?)?;
    put(&mut rows, row(heap, b"/a", Some(b"y"), b"1")?)?;
    put(&mut rows, row(heap, b"/a", Some(b"x"), b"2")?)?;
    put(&mut rows, row(heap, b"/a", Some(b"y"), b"3")?)?;
    put(&mut rows, row(heap, b"/a", None, b"")?)?;
    assert_eq!(rt; rows.len(), 4);
    assert!(rt; same_bytes(&rows[0].place.path, b"/a") && rows[0].place.name.is_none());
    assert!(rt; same_bytes(rows[1].value, b"2") && same_bytes(rows[2].value, b"3"));
    assert!(rt; same_bytes(&rows[3].place.path, b"/b"));
    Ok(())
}

// The same in a map.
#[test]
fn rows_in_map(rt: HostRuntime) -> Result<(), Fail> {
    let heap = rt.alloc();
    let mut sorted = BTreeMap::new(heap);
    enter_row(&mut sorted, row(heap, b"/b", None, b"")?)?;
    enter_row(&mut sorted, row(heap, b"/a", Some(b"y"), b"1")?)?;
    enter_row(&mut sorted, row(heap, b"/a", Some(b"y"), b"2")?)?;
    assert_eq!(rt; sorted.len(), 2);
    for (place, value) in &sorted {
        assert!(rt; same_bytes(&place.path, b"/b") || same_bytes(*value, b"2"));
    }
    Ok(())
}

#[test]
fn digits(rt: HostRuntime) -> Result<(), Fail> {
    let mut out = Vec::with_capacity(rt.alloc(), 8)?;
    push_hex(&mut out, &[0x09, 0xaf, 0x10, 0xff])?;
    assert!(rt; same_bytes(&out, b"09af10ff"));
    Ok(())
}
