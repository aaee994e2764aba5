// Headers and tokens of a small blob, and of the same with some bytes changed.
use blob::blob::Blob;
use blob::header::check_header;
use blob::types::{Layout, Refusal, Token};

// A root with the property `ab`, whose value is one byte, and a skipped token.
const SAMPLE: [u8; 95] = [
    0xd0, 0x0d, 0xfe, 0xed, 0, 0, 0, 95, 0, 0, 0, 56, 0, 0, 0, 92, 0, 0, 0, 40, 0, 0, 0, 17, 0, 0,
    0, 16, 0, 0, 0, 7, 0, 0, 0, 3, 0, 0, 0, 36, 0, 0, 0, 0, 0, 0, 0, 0, 0, 0, 0, 0, 0, 0, 0, 0, 0,
    0, 0, 1, 0, 0, 0, 0, 0, 0, 0, 3, 0, 0, 0, 1, 0, 0, 0, 0, 5, 9, 9, 9, 0, 0, 0, 4, 0, 0, 0, 2, 0,
    0, 0, 9, b'a', b'b', 0,
];

fn refusal(bytes: &[u8]) -> Option<Refusal> {
    check_header(bytes).err()
}

// What a token is, with the lengths of its name and its value, which the tests compare.
#[derive(Clone, Copy, PartialEq, Eq, Debug)]
enum Kind {
    Begin { name: usize },
    Property { name: usize, value: usize },
    End,
    Nop,
    Finish,
}

// The token at `p`, and where the next one starts.
fn token(bytes: &[u8], p: usize) -> Option<(Kind, usize)> {
    let layout = check_header(bytes).ok()?;
    let blob = Blob { bytes, layout };
    let step = blob.token_at(p)?;
    let kind = match step.token {
        Token::Begin { name } => Kind::Begin { name: name.len() },
        Token::Property { name, value } => Kind::Property {
            name: name.len(),
            value: value.len(),
        },
        Token::End => Kind::End,
        Token::Nop => Kind::Nop,
        Token::Finish => Kind::Finish,
    };
    Some((kind, step.next))
}

#[test]
fn sample_layout(rt: HostRuntime) {
    let layout = Layout {
        start: 56,
        end: 92,
        strings: 92,
        strings_end: 95,
        boot: 7,
    };
    assert_eq!(rt; check_header(&SAMPLE), Ok(layout));
}

#[test]
fn headers_refused(rt: HostRuntime) {
    assert_eq!(rt; refusal(&SAMPLE[0..39]), Some(Refusal::NotABlob));
    assert_eq!(rt;
        refusal(&SAMPLE[0..94]),
        Some(Refusal::NotABlob),
        "the total size passes the buffer"
    );
    let mut b = SAMPLE;
    b[23] = 16;
    assert_eq!(rt; refusal(&b), Some(Refusal::Version));
    b[3] = 0;
    assert_eq!(rt;
        refusal(&b),
        Some(Refusal::NotABlob),
        "the first refusal that applies"
    );
}

#[test]
fn blocks_refused(rt: HostRuntime) {
    let mut b = SAMPLE;
    b[35] = 4;
    assert_eq!(rt;
        refusal(&b),
        Some(Refusal::Blocks),
        "the strings block passes the total size"
    );
    b = SAMPLE;
    b[36..40].fill(255);
    assert_eq!(rt;
        refusal(&b),
        Some(Refusal::Blocks),
        "the largest size there is"
    );
    b = SAMPLE;
    b[19] = 44;
    assert_eq!(rt;
        refusal(&b),
        Some(Refusal::Blocks),
        "8 does not divide the reservation offset"
    );
    b = SAMPLE;
    b[55] = 1;
    assert_eq!(rt; refusal(&b), Some(Refusal::Blocks), "a reservation");
}

#[test]
fn sizes_bounded(rt: HostRuntime) {
    let mut b = [0; 40961];
    b[0..95].copy_from_slice(&SAMPLE);
    b[6] = 160;
    b[7] = 0;
    assert_eq!(rt; refusal(&b), None);
    b[7] = 1;
    assert_eq!(rt; refusal(&b), Some(Refusal::TooLarge));
}

#[test]
fn tokens_in_order(rt: HostRuntime) {
    assert_eq!(rt; token(&SAMPLE, 56), Some((Kind::Begin { name: 0 }, 64)));
    assert_eq!(rt;
        token(&SAMPLE, 64),
        Some((Kind::Property { name: 2, value: 1 }, 80))
    );
    assert_eq!(rt; token(&SAMPLE, 80), Some((Kind::Nop, 84)));
    assert_eq!(rt; token(&SAMPLE, 84), Some((Kind::End, 88)));
    assert_eq!(rt; token(&SAMPLE, 88), Some((Kind::Finish, 92)));
}

#[test]
fn tokens_refused(rt: HostRuntime) {
    assert_eq!(rt; token(&SAMPLE, 92), None, "the block's end");
    assert_eq!(rt; token(&SAMPLE, 90), None, "cut");
    assert_eq!(rt; token(&SAMPLE, usize::MAX), None);
    let mut b = SAMPLE;
    b[83] = 9;
    assert_eq!(rt; token(&b, 80), None, "the last mark before the block's end");
    b[94] = b'c';
    assert_eq!(rt; token(&b, 64), None, "a name without its zero byte");
}

#[test]
fn refusals_numbered(rt: HostRuntime) {
    assert_eq!(rt; Refusal::Blocks.number(), 12);
    assert_eq!(rt; Refusal::Blocks.place(), 0);
    assert_eq!(rt; Refusal::Limit(76).number(), 15);
    assert_eq!(rt; Refusal::Limit(76).place(), 76);
}
