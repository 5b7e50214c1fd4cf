//! Texts that were made by another program, and each call that takes memory with enough of it.

use crate::*;
use std::test::Fail;

const BASE: Link = Link {
    number: 0,
    digest: 0x0123_4567_89ab_cdef,
};

const FIRST: &[u8] =
    b"{\"c\":\"185ec9cf2e136fd7\",\"d\":0,\"n\":1,\"p\":\"0123456789abcdef\",\"w\":{\"op\":\"clear\",\"t\":\"a\"}}\n";

const SECOND: &[u8] =
    b"{\"c\":\"88f06557186d9b2e\",\"d\":1,\"n\":2,\"p\":\"185ec9cf2e136fd7\",\"w\":{\"op\":\"clear\",\"t\":\"b\"}}\n";

const LAST: Link = Link {
    number: 2,
    digest: 0x88f0_6557_186d_9b2e,
};

#[test]
fn digests(rt: HostRuntime) {
    for (text, want) in [
        ("", 0x4d0a_2bbe_78b9_2ab1),
        ("a", 0xe469_b0e4_731b_a8cb),
        ("12345678", 0xc125_2c26_6ce8_458f),
        ("123456789", 0x1751_38c3_6f14_3159),
        ("\0", 0x7621_2d05_b978_2e79),
        ("The quick brown fox", 0x1d31_b8f5_79c4_9899),
    ] {
        assert_eq!(rt; digest_of(text.as_bytes()), want, "{text}");
    }
}

#[test]
fn digests_come_in_pieces(rt: HostRuntime) {
    let text = b"The quick brown fox";
    for cut in 0..=text.len() {
        let mut digesting = Digesting::new(text.len());
        digesting.take(&text[..cut]);
        digesting.take(&text[cut..]);
        assert_eq!(rt; digesting.finish(), 0x1d31_b8f5_79c4_9899, "cut at {cut}");
    }
}

#[test]
fn lines_are_written(rt: HostRuntime) -> Result<(), Fail> {
    let mut text = Vec::new(rt.alloc());
    let digest = push_line(
        &mut text,
        0,
        1,
        BASE.digest,
        b"{\"op\":\"clear\",\"t\":\"a\"}",
    )?;
    assert_eq!(rt; text.as_slice(), FIRST);
    let last = push_line(&mut text, 1, 2, digest, b"{\"op\":\"clear\",\"t\":\"b\"}")?;
    assert_eq!(rt; text.len(), FIRST.len() + SECOND.len());
    assert_eq!(rt; last, LAST.digest);
    Ok(())
}

#[test]
fn lines_are_read(rt: HostRuntime) {
    let line = read_line(&SECOND[..SECOND.len() - 1]).expect(&rt, "a line");
    assert_eq!(rt; line.digest, LAST.digest);
    assert_eq!(rt; line.durable, 1);
    assert_eq!(rt; line.number, 2);
    assert_eq!(rt; line.before, 0x185e_c9cf_2e13_6fd7);
    assert_eq!(rt; line.write, b"{\"op\":\"clear\",\"t\":\"b\"}".as_slice());
    assert!(rt; read_line(SECOND).is_none());
    assert!(rt; read_line(b"").is_none());
}

#[test]
fn one_changed_byte_is_found(rt: HostRuntime) -> Result<(), Fail> {
    for place in 0..FIRST.len() - 1 {
        let mut text = Vec::from_slice(rt.alloc(), &FIRST[..FIRST.len() - 1])?;
        text[place] ^= 1;
        assert!(rt; read_line(&text).is_none(), "at {place}");
    }
    Ok(())
}

#[test]
fn torn_end_is_cut(rt: HostRuntime) -> Result<(), Fail> {
    let mut bytes = Vec::from_slice(rt.alloc(), FIRST)?;
    bytes.extend_from_slice(SECOND)?;
    bytes.extend_from_slice(&FIRST[..20])?;
    let r = recover(&bytes, BASE, None).expect(&rt, "a log");
    assert_eq!(rt; r.last, LAST);
    assert_eq!(rt; r.end, FIRST.len() + SECOND.len());
    assert_eq!(rt; r.durable, 1);
    assert_eq!(rt; r.behind.bytes, 20);
    assert_eq!(rt; r.behind.lines, 0);
    let again = recover(&bytes[..r.end], BASE, Some(LAST)).expect(&rt, "the same log");
    assert_eq!(rt; again.last, LAST);
    Ok(())
}

#[test]
fn lines_are_walked(rt: HostRuntime) {
    let mut walk = Walk::new(BASE, None);
    let first = walk
        .take(None, &FIRST[..FIRST.len() - 1])
        .expect(&rt, "a whole line");
    assert_eq!(rt; first.write, b"{\"op\":\"clear\",\"t\":\"a\"}".as_slice());
    assert_eq!(rt; walk.so_far.end, FIRST.len());
    assert_eq!(rt; walk.so_far.behind.lines, 0);
    assert!(rt; walk.take(None, b"").is_none());
    assert_eq!(rt; walk.so_far.end, FIRST.len());
    assert_eq!(rt; walk.so_far.behind.lines, 0);
    assert!(rt; walk.take(None, &SECOND[..SECOND.len() - 1]).is_none());
    assert_eq!(rt; walk.so_far.end, FIRST.len());
    let r = walk
        .judge(None, FIRST.len() + 1 + SECOND.len())
        .expect(&rt, "a log");
    assert_eq!(rt; r.last.number, 1);
    assert_eq!(rt; r.behind.bytes, 1 + SECOND.len());
    assert_eq!(rt; r.behind.first, Some(2));
}

#[test]
fn missing_answers_refuse(rt: HostRuntime) -> Result<(), Fail> {
    assert_eq!(rt;
        recover(SECOND, BASE, None),
        Err(Refusal::Hurt {
            whole: 0,
            durable: 1
        })
    );
    assert_eq!(rt;
        recover(FIRST, BASE, Some(LAST)),
        Err(Refusal::Hurt {
            whole: 1,
            durable: 2
        })
    );
    let strange = Link {
        number: 1,
        digest: 1,
    };
    assert_eq!(rt;
        recover(FIRST, BASE, Some(strange)),
        Err(Refusal::Strange { number: 1 })
    );
    Ok(())
}

#[test]
fn marks(rt: HostRuntime) -> Result<(), Fail> {
    let mut text = Vec::new(rt.alloc());
    push_mark(&mut text, LAST)?;
    assert_eq!(rt;
        text.as_slice(),
        b"{\"c\":\"64c000b4b58d07f1\",\"e\":\"88f06557186d9b2e\",\"n\":2}\n".as_slice()
    );
    let mut bytes = Vec::new(rt.alloc());
    bytes.resize(MARK_BYTES, 0)?;
    assert_eq!(rt;
        read_marks(&bytes),
        Marks {
            mark: None,
            next: 0
        }
    );
    bytes[..text.len()].copy_from_slice(&text);
    assert_eq!(rt;
        read_marks(&bytes),
        Marks {
            mark: Some(LAST),
            next: 512
        }
    );
    text.clear();
    push_mark(
        &mut text,
        Link {
            number: 3,
            digest: 1,
        },
    )?;
    assert!(rt; text.len() < 512);
    bytes[512..512 + text.len()].copy_from_slice(&text);
    assert_eq!(rt;
        read_marks(&bytes),
        Marks {
            mark: Some(Link {
                number: 3,
                digest: 1
            }),
            next: 0
        }
    );
    Ok(())
}
