// Headers: blobs cut off anywhere, and numbers near 2^32.
use crate::build::{sample, set32, verdict};
use std::test::Fail;

#[test]
fn sample_accepted(rt: HostRuntime) -> Result<(), Fail> {
    let bytes = sample(rt.alloc())?;
    assert_eq!(rt; verdict(bytes.as_slice()), Ok(2));
    Ok(())
}

// Every shorter copy is refused: the total size passes it.
#[test]
fn cut_anywhere(rt: HostRuntime) -> Result<(), Fail> {
    let bytes = sample(rt.alloc())?;
    for n in 0..bytes.len() {
        assert_eq!(rt; verdict(&bytes.as_slice()[0..n]), Err((10, 0)));
    }
    Ok(())
}

// Every shorter total size is refused: below the header, or with a block outside it.
#[test]
fn totals_cut(rt: HostRuntime) -> Result<(), Fail> {
    let mut bytes = sample(rt.alloc())?;
    for n in 0..40 {
        set32(&mut bytes, 4, n);
        assert_eq!(rt; verdict(bytes.as_slice()), Err((10, 0)));
    }
    let end = bytes.len().min(1000);
    for n in 40..end {
        // Below 1,000.
        set32(&mut bytes, 4, n as u32);
        assert_eq!(rt; verdict(bytes.as_slice()), Err((12, 0)));
    }
    Ok(())
}

// Every shorter structure block is refused at one of its tokens, or at its end.
#[test]
fn structures_cut(rt: HostRuntime) -> Result<(), Fail> {
    let mut bytes = sample(rt.alloc())?;
    for n in 0..64 {
        set32(&mut bytes, 36, n);
        let found = verdict(bytes.as_slice());
        assert!(rt; matches!(found, Err((13, place)) if 56 <= place && place <= 56 + n as usize));
    }
    Ok(())
}

// Numbers near 2^32 and 2^31 in each field of the header, and the refusal of each.
#[test]
fn large_numbers(rt: HostRuntime) -> Result<(), Fail> {
    let heap = rt.alloc();
    let refusals = [
        Some(10),
        Some(10),
        Some(12),
        Some(12),
        Some(12),
        Some(11),
        Some(11),
        None,
        Some(12),
        Some(12),
    ];
    for (k, number) in refusals.iter().enumerate() {
        for n in [
            0xffff_ffff,
            0xffff_fffe,
            0xffff_fffc,
            0xffff_fff8,
            0x8000_0000,
        ] {
            let mut bytes = sample(heap)?;
            set32(&mut bytes, 4 * k, n);
            let found = verdict(bytes.as_slice()).err().map(|(n, _)| n);
            assert_eq!(rt; found, *number);
        }
    }
    Ok(())
}

#[test]
fn misplaced_blocks(rt: HostRuntime) -> Result<(), Fail> {
    let heap = rt.alloc();
    let mut bytes = sample(heap)?;
    set32(&mut bytes, 16, 44);
    assert_eq!(rt;
        verdict(bytes.as_slice()),
        Err((12, 0)),
        "8 does not divide the reservation offset"
    );
    set32(&mut bytes, 16, 40);
    set32(&mut bytes, 8, 58);
    assert_eq!(rt;
        verdict(bytes.as_slice()),
        Err((12, 0)),
        "4 does not divide the structure offset"
    );
    set32(&mut bytes, 8, 56);
    set32(&mut bytes, 52, 1);
    assert_eq!(rt; verdict(bytes.as_slice()), Err((12, 0)), "a reservation");
    Ok(())
}

// Of several refusals the first one is given.
#[test]
fn first_refusal(rt: HostRuntime) -> Result<(), Fail> {
    let mut bytes = sample(rt.alloc())?;
    set32(&mut bytes, 56, 5);
    assert_eq!(rt; verdict(bytes.as_slice()), Err((13, 56)));
    set32(&mut bytes, 52, 1);
    assert_eq!(rt; verdict(bytes.as_slice()), Err((12, 0)));
    set32(&mut bytes, 24, 17);
    assert_eq!(rt; verdict(bytes.as_slice()), Err((11, 0)));
    set32(&mut bytes, 0, 0);
    assert_eq!(rt; verdict(bytes.as_slice()), Err((10, 0)));
    Ok(())
}

// Bytes behind the total size do not count.
#[test]
fn bytes_behind(rt: HostRuntime) -> Result<(), Fail> {
    let mut bytes = sample(rt.alloc())?;
    bytes.extend_from_slice(b"left over")?;
    assert_eq!(rt; verdict(bytes.as_slice()), Ok(2));
    Ok(())
}
