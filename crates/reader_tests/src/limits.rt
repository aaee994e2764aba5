// Both sides of every limit.
use crate::build::{Blocks, Part, Verdict, sample, set32, verdict, verdict_of};
use Part::{Begin, End, Finish, Property};
use std::alloc::{AllocError, Global};
use std::test::Fail;

// Three letters that differ for numbers below 4,096. Each cast is of a number below 16.
fn name_of(i: usize) -> [u8; 3] {
    let a = b'a' + (i / 256 % 16) as u8;
    let b = b'a' + (i / 16 % 16) as u8;
    let c = b'a' + (i % 16) as u8;
    [a, b, c]
}

// A root with what `add` puts into it for each of so many names.
fn numbered<F: Fn(&mut Blocks, &[u8]) -> Result<(), AllocError>>(
    heap: Global,
    n: usize,
    add: F,
) -> Result<Verdict, AllocError>
    requires { F.IsAlwaysCallable add }
{
    let mut blocks = Blocks::new(heap);
    blocks.all(&[Begin(b"")])?;
    for i in 0..n {
        add(&mut blocks, &name_of(i))?;
    }
    blocks.all(&[End, Finish])?;
    Ok(verdict(blocks.blob(heap)?.as_slice()))
}

// A root with so many children.
fn children(heap: Global, n: usize) -> Result<Verdict, AllocError> {
    numbered(heap, n, |blocks, name| blocks.all(&[Begin(name), End]))
}

#[test]
fn nodes(rt: HostRuntime) -> Result<(), Fail> {
    assert_eq!(rt; children(rt.alloc(), 255)?, Ok(256));
    assert_eq!(rt; children(rt.alloc(), 256)?, Err((15, 3124)));
    Ok(())
}

// A root with so many properties.
fn properties_of(heap: Global, n: usize) -> Result<Verdict, AllocError> {
    numbered(heap, n, |blocks, name| blocks.all(&[Property(name, b"")]))
}

#[test]
fn properties(rt: HostRuntime) -> Result<(), Fail> {
    assert_eq!(rt; properties_of(rt.alloc(), 1024)?, Ok(1));
    assert_eq!(rt; properties_of(rt.alloc(), 1025)?, Err((15, 12352)));
    Ok(())
}

#[test]
fn values(rt: HostRuntime) -> Result<(), Fail> {
    let most = [Begin(b""), Property(b"p", &[0; 4096]), End, Finish];
    assert_eq!(rt; verdict_of(rt.alloc(), &most)?, Ok(1));
    let over = [Begin(b""), Property(b"p", &[0; 4097]), End, Finish];
    assert_eq!(rt; verdict_of(rt.alloc(), &over)?, Err((15, 64)));
    Ok(())
}

// Nodes in one another: 126 with a name of one byte, and then this one.
fn nested(heap: Global, last: &[u8]) -> Result<Verdict, AllocError> {
    let mut blocks = Blocks::new(heap);
    blocks.all(&[Begin(b"")])?;
    blocks.all(&[Begin(b"a"); 126])?;
    blocks.all(&[Begin(last)])?;
    blocks.all(&[End; 128])?;
    blocks.all(&[Finish])?;
    Ok(verdict(blocks.blob(heap)?.as_slice()))
}

#[test]
fn paths(rt: HostRuntime) -> Result<(), Fail> {
    assert_eq!(rt; nested(rt.alloc(), b"ab")?, Ok(128));
    assert_eq!(rt; nested(rt.alloc(), b"abc")?, Err((15, 1072)));
    Ok(())
}

// A weight of 20,504, and then a property of 4,069 and its name's length.
fn weighing(heap: Global, name: &[u8]) -> Result<Verdict, AllocError> {
    let mut blocks = Blocks::new(heap);
    blocks.all(&[Begin(b"")])?;
    for i in 0..5 {
        blocks.all(&[Property(&name_of(i), &[0; 4096])])?;
    }
    blocks.all(&[Property(name, &[0; 4068]), End, Finish])?;
    Ok(verdict(blocks.blob(heap)?.as_slice()))
}

#[test]
fn weights(rt: HostRuntime) -> Result<(), Fail> {
    assert_eq!(rt; weighing(rt.alloc(), b"xyz")?, Ok(1));
    assert_eq!(rt; weighing(rt.alloc(), b"wxyz")?, Err((15, 20604)));
    Ok(())
}

// The sample with so many bytes in all, zero bytes behind its blocks.
fn stretched(heap: Global, total: u32) -> Result<Verdict, AllocError> {
    let mut bytes = sample(heap)?;
    set32(&mut bytes, 4, total);
    bytes.extend_from_slice(&[0; 40961])?;
    Ok(verdict(bytes.as_slice()))
}

#[test]
fn total_sizes(rt: HostRuntime) -> Result<(), Fail> {
    assert_eq!(rt; stretched(rt.alloc(), 40960)?, Ok(2));
    assert_eq!(rt; stretched(rt.alloc(), 40961)?, Err((15, 0)));
    Ok(())
}
