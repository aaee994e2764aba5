// Tokens and names at fault, and such as look odd and are good.
use crate::build::{Part, verdict_of};
use Part::{Begin, End, Finish, Number, Property, PropertyAt, Skipped as Skip, Text};
use std::alloc::Global;
use std::test::Fail;

const ROOT: Part<'static> = Begin(b"");

#[test]
fn skipped_tokens(rt: HostRuntime) -> Result<(), Fail> {
    let parts = [
        Skip,
        ROOT,
        Skip,
        Property(b"p", b"x"),
        Skip,
        Begin(b"a"),
        Skip,
        End,
        Skip,
        End,
        Skip,
        Finish,
    ];
    assert_eq!(rt; verdict_of(rt.alloc(), &parts)?, Ok(2));
    Ok(())
}

// These parts make a blob that is so refused.
fn refused(heap: Global, parts: &[Part], number: u32, place: usize) -> Result<(), Fail> {
    let found = verdict_of(heap, parts)?;
    if found != Err((number, place)) {
        return Err(Fail::new(format_args!("{found:?} for ({number}, {place})")));
    }
    Ok(())
}

// Nothing, no root, no end of the block, a second root, and a root with a name.
#[test]
fn roots(rt: HostRuntime) -> Result<(), Fail> {
    let heap = rt.alloc();
    refused(heap, &[], 13, 56)?;
    refused(heap, &[Finish], 13, 56)?;
    refused(heap, &[ROOT, End], 13, 68)?;
    refused(heap, &[ROOT, End, ROOT, End, Finish], 13, 68)?;
    refused(heap, &[Begin(b"r"), End, Finish], 14, 56)
}

// A property behind a node, one outside, an end too many, the end of the block in the root, and too early.
#[test]
fn out_of_place(rt: HostRuntime) -> Result<(), Fail> {
    let heap = rt.alloc();
    let p = Property(b"p", b"");
    refused(heap, &[ROOT, Begin(b"a"), End, p, End, Finish], 13, 76)?;
    refused(heap, &[p], 13, 56)?;
    refused(heap, &[ROOT, End, End, Finish], 13, 68)?;
    refused(heap, &[ROOT, Finish], 13, 64)?;
    refused(heap, &[ROOT, End, Finish, Finish], 13, 68)
}

#[test]
fn unknown_tokens(rt: HostRuntime) -> Result<(), Fail> {
    for token in [0, 5, 8, 10, 0x0100_0000, 0xffff_ffff] {
        assert_eq!(rt;
            verdict_of(rt.alloc(), &[ROOT, Number(token), End, Finish])?,
            Err((13, 64))
        );
    }
    Ok(())
}

// A name without its zero byte, a value that passes the block, and a property without its name's offset.
#[test]
fn cut_tokens(rt: HostRuntime) -> Result<(), Fail> {
    let heap = rt.alloc();
    refused(heap, &[ROOT, Number(1), Number(0x6162_6364)], 13, 64)?;
    let long = [
        ROOT,
        Number(3),
        Number(0xffff_ffff),
        Number(0),
        Text(b"p\0"),
    ];
    refused(heap, &long, 13, 64)?;
    refused(heap, &[ROOT, Number(3), Number(0)], 13, 64)
}

#[test]
fn strings_block(rt: HostRuntime) -> Result<(), Fail> {
    let heap = rt.alloc();
    let shared = [
        Text(b"name\0ab"),
        ROOT,
        PropertyAt(0),
        PropertyAt(2),
        End,
        Finish,
    ];
    assert_eq!(rt; verdict_of(heap, &shared)?, Ok(1), "a name inside another");
    for offset in [5, 6, 7, 8, 0xffff_ffff] {
        let parts = [Text(b"name\0ab"), ROOT, PropertyAt(offset), End, Finish];
        refused(heap, &parts, 13, 64)?;
    }
    Ok(())
}

#[test]
fn bad_names(rt: HostRuntime) -> Result<(), Fail> {
    let names: [&[u8]; 6] = [
        b"",
        b"a/b",
        b"a b",
        b"@1",
        b"a@",
        b"a-name-of-thirty-two-bytes-in-all",
    ];
    for name in names {
        refused(rt.alloc(), &[ROOT, Begin(name)], 14, 64)?;
        assert_eq!(rt;
            verdict_of(rt.alloc(), &[ROOT, Property(name, b"")])?,
            Err((14, 64))
        );
    }
    Ok(())
}

#[test]
fn names_used_twice(rt: HostRuntime) -> Result<(), Fail> {
    let heap = rt.alloc();
    let a = Property(b"a", b"");
    let good = [ROOT, a, Begin(b"a"), a, End, End, Finish];
    assert_eq!(rt; verdict_of(heap, &good)?, Ok(2));
    let nodes = [ROOT, Begin(b"a"), End, Begin(b"b"), End, Begin(b"a")];
    refused(heap, &nodes, 14, 88)?;
    refused(heap, &[ROOT, a, a], 14, 76)
}
