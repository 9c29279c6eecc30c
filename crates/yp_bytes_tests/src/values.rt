//! Spellings written out by hand from RFC 4506, and the place of each refusal.

use crate::given::{assert_same, assert_shown, bytes};
use std::alloc::Global;
use std::process::Abort;
use yp_xdr::*;

// Numbers and their words.
static UNSIGNED_WORDS: [(u32, &str); 4] = [
    (0, "00000000"),
    (1, "00000001"),
    (0x0102_0304, "01020304"),
    (u32::MAX, "ffffffff"),
];

// What came of writing a word, the bytes that were written, and what the spelling is read as.
type Word<T> = (Result<usize, NoRoom>, [u8; 4], T);

fn unsigned_word(value: u32, word: &[u8]) -> Word<Result<u32, XdrFault>> {
    let mut buf = [9; 4];
    let end = put_u32(&mut buf, 0, value);
    (end, buf, Cursor::new(word).u32())
}

fn try_unsigned<R: Abort>(rt: &R, alloc: Global, row: &(u32, &str)) {
    let (value, text) = *row;
    let word = bytes(rt, alloc, &[text]);
    let (end, buf, read) = unsigned_word(value, &word);
    let came = (end, buf.as_slice(), read);
    assert_same(rt, &came, &(Ok(4), word.as_slice(), Ok(value)), text);
}

#[test]
fn unsigned_words(rt: HostRuntime) {
    for row in &UNSIGNED_WORDS {
        try_unsigned(&rt, rt.alloc(), row);
    }
}

static SIGNED_WORDS: [(i32, &str); 5] = [
    (2, "00000002"),
    (-1, "ffffffff"),
    (-3, "fffffffd"),
    (i32::MAX, "7fffffff"),
    (i32::MIN, "80000000"),
];

// It is also read as a number of 7 and the value, and of 7 alone.
fn signed_word(value: i32, word: &[u8]) -> Word<[Result<i32, XdrFault>; 3]> {
    let mut buf = [9; 4];
    let end = put_i32(&mut buf, 0, value);
    let read = [
        Cursor::new(word).i32(),
        Cursor::new(word).one_of(&[7, value]),
        Cursor::new(word).one_of(&[7]),
    ];
    (end, buf, read)
}

fn try_signed<R: Abort>(rt: &R, alloc: Global, row: &(i32, &str)) {
    let (value, text) = *row;
    let word = bytes(rt, alloc, &[text]);
    let (end, buf, read) = signed_word(value, &word);
    let came = (end, buf.as_slice(), read);
    let read = [Ok(value), Ok(value), Err(XdrFault::BadEnum { at: 0 })];
    assert_same(rt, &came, &(Ok(4), word.as_slice(), read), text);
}

#[test]
fn signed_words(rt: HostRuntime) {
    for row in &SIGNED_WORDS {
        try_signed(&rt, rt.alloc(), row);
    }
}

static BOOLEANS: [(bool, &str); 2] = [(false, "00000000"), (true, "00000001")];

static NO_BOOLEANS: [&str; 3] = ["00000002", "01000000", "ffffffff"];

fn boolean_word(value: bool, word: &[u8]) -> Word<Result<bool, XdrFault>> {
    let mut buf = [9; 4];
    let end = put_bool(&mut buf, 0, value);
    (end, buf, Cursor::new(word).bool())
}

fn try_boolean<R: Abort>(rt: &R, alloc: Global, row: &(bool, &str)) {
    let (value, text) = *row;
    let word = bytes(rt, alloc, &[text]);
    let (end, buf, read) = boolean_word(value, &word);
    let came = (end, buf.as_slice(), read);
    assert_same(rt, &came, &(Ok(4), word.as_slice(), Ok(value)), text);
}

fn try_no_boolean<R: Abort>(rt: &R, alloc: Global, text: &str) {
    let word = bytes(rt, alloc, &[text]);
    let read = Cursor::new(&word).bool();
    assert_same(rt, &read, &Err(XdrFault::BadBool { at: 0 }), text);
}

#[test]
fn booleans(rt: HostRuntime) {
    for row in &BOOLEANS {
        try_boolean(&rt, rt.alloc(), row);
    }
    for text in &NO_BOOLEANS {
        try_no_boolean(&rt, rt.alloc(), *text);
    }
}

// Bytes, and what spells them.
static OPAQUE_BYTES: [(&[u8], &str); 5] = [
    (b"", "00000000"),
    (b"a", "00000001 61000000"),
    (b"lab", "00000003 6c616200"),
    (b"four", "00000004 666f7572"),
    (b"alpha", "00000005 616c7068 61000000"),
];

fn try_opaque<R: Abort>(rt: &R, alloc: Global, row: &(&[u8], &str)) {
    let (content, text) = *row;
    assert!(rt; content.len() <= 8);
    let bytes = bytes(rt, alloc, &[text]);
    let mut buf = [9; 16];
    let end = put_opaque(&mut buf, 0, content);
    // The limit is met exactly.
    let read = Cursor::new(&bytes).opaque(content.len() as u32);
    let came = (opaque_len(content), end, buf.starts_with(&bytes), read);
    let len = bytes.len();
    assert_same(rt, &came, &(len, Ok(len), true, Ok(content)), text);
}

#[test]
fn opaque_bytes(rt: HostRuntime) {
    for row in &OPAQUE_BYTES {
        try_opaque(&rt, rt.alloc(), row);
    }
}

static FIXED_BYTES: [(&[u8], &str); 3] = [
    (b"", ""),
    (b"lab", "6c616200"),
    (b"alpha", "616c7068 61000000"),
];

fn try_fixed<R: Abort>(rt: &R, alloc: Global, row: &(&[u8], &str)) {
    let (content, text) = *row;
    assert!(rt; content.len() <= 8);
    let bytes = bytes(rt, alloc, &[text]);
    let mut buf = [9; 16];
    let end = put_fixed(&mut buf, 0, content);
    let read = Cursor::new(&bytes).fixed(content.len());
    let came = (fixed_len(content), end, buf.starts_with(&bytes), read);
    let len = bytes.len();
    assert_same(rt, &came, &(len, Ok(len), true, Ok(content)), text);
}

#[test]
fn fixed_bytes(rt: HostRuntime) {
    for row in &FIXED_BYTES {
        try_fixed(&rt, rt.alloc(), row);
    }
}

// What is no string of at most three bytes, and why.
static REFUSALS: [(&str, XdrFault); 11] = [
    ("", XdrFault::Short { at: 0 }),
    ("000000", XdrFault::Short { at: 0 }),
    ("00000003", XdrFault::Short { at: 0 }),
    ("00000003 6c61", XdrFault::Short { at: 0 }),
    ("00000003 6c6162", XdrFault::Short { at: 0 }),
    // A length over the limit comes before a body that isn't whole.
    ("00000004", XdrFault::TooLong { at: 0, len: 4 }),
    (
        "ffffffff",
        XdrFault::TooLong {
            at: 0,
            len: u32::MAX,
        },
    ),
    ("00000003 6c616201", XdrFault::Pad { at: 7 }),
    ("00000001 6c000002", XdrFault::Pad { at: 7 }),
    ("00000001 6c000302", XdrFault::Pad { at: 6 }),
    ("00000001 6cff0302", XdrFault::Pad { at: 5 }),
];

// The cursor stays where it is.
fn try_refusal<R: Abort>(rt: &R, alloc: Global, row: &(&str, XdrFault)) {
    let (text, fault) = *row;
    let bytes = bytes(rt, alloc, &[text]);
    let mut cursor = Cursor::new(&bytes);
    let read = cursor.string(3);
    assert_same(rt, &(read, cursor.at()), &(Err(fault), 0), text);
}

#[test]
fn refusals(rt: HostRuntime) {
    for row in &REFUSALS {
        try_refusal(&rt, rt.alloc(), row);
    }
}

static PLACES: [(XdrFault, usize); 5] = [
    (XdrFault::Short { at: 0 }, 0),
    (XdrFault::TooLong { at: 4, len: 9 }, 4),
    (XdrFault::Pad { at: 7 }, 7),
    (XdrFault::BadBool { at: 12 }, 12),
    (XdrFault::BadEnum { at: 16 }, 16),
];

#[test]
fn places(rt: HostRuntime) {
    for (fault, place) in &PLACES {
        assert_same(&rt, &fault.place(), place, "a place");
    }
}

// An item, what is refused behind it, and how far the cursor is then.
type Behind<'a> = (
    Result<u32, XdrFault>,
    [Result<&'a [u8], XdrFault>; 3],
    Result<bool, XdrFault>,
    Result<i32, XdrFault>,
    usize,
);

fn read_behind<'a>(cursor: &mut Cursor<'a>) -> Behind<'a> {
    let first = cursor.u32();
    let bytes = [cursor.opaque(2), cursor.opaque(3), cursor.fixed(11)];
    (
        first,
        bytes,
        cursor.bool(),
        cursor.one_of(&[0, 7]),
        cursor.at(),
    )
}

// The same of what stands behind the next item.
type Further<'a> = (
    Result<u32, XdrFault>,
    Result<&'a [u8], XdrFault>,
    [Result<i32, XdrFault>; 2],
    usize,
);

fn read_further<'a>(cursor: &mut Cursor<'a>) -> Further<'a> {
    let second = cursor.u32();
    let bytes = cursor.fixed(3);
    (second, bytes, [cursor.i32(), cursor.i32()], cursor.at())
}

fn read_both(bytes: &[u8]) -> (Behind<'_>, Further<'_>) {
    let mut cursor = Cursor::new(bytes);
    let behind = read_behind(&mut cursor);
    (behind, read_further(&mut cursor))
}

#[test]
fn behind_another_item(rt: HostRuntime) {
    let bytes = bytes(&rt, rt.alloc(), &["00000007 00000003 6c616201 0000"]);
    let refused = [
        Err(XdrFault::TooLong { at: 4, len: 3 }),
        Err(XdrFault::Pad { at: 11 }),
        Err(XdrFault::Short { at: 4 }),
    ];
    let boolean = Err(XdrFault::BadBool { at: 4 });
    let one_of = Err(XdrFault::BadEnum { at: 4 });
    let behind = (Ok(7), refused, boolean, one_of, 4);
    let words = [Ok(0x6c61_6201), Err(XdrFault::Short { at: 12 })];
    let further = (Ok(3), Err(XdrFault::Pad { at: 11 }), words, 12);
    assert_same(&rt, &read_both(&bytes), &(behind, further), "items");
}

// What comes of writing where there is no room, and then where there is just enough.
fn put_at_the_end(
    buf: &mut [u8; 7],
) -> ([Result<usize, NoRoom>; 6], [u8; 7], Result<usize, NoRoom>) {
    let refused = [
        put_opaque(buf, 0, b"lab"),
        put_opaque(buf, 4, b""),
        put_fixed(buf, 0, b"alpha"),
        put_u32(buf, 4, 1),
        put_bool(buf, 5, true),
        put_i32(buf, 7, 1),
    ];
    let unchanged = *buf;
    (refused, unchanged, put_u32(buf, 3, 1))
}

#[test]
fn no_room(rt: HostRuntime) {
    let mut buf = [9; 7];
    let came = put_at_the_end(&mut buf);
    assert_same(&rt, &came, &([Err(NoRoom); 6], [9; 7], Ok(7)), "at the end");
    assert_same(&rt, &buf, &[9, 9, 9, 0, 0, 0, 1], "written");
}

// Items one behind another behind three bytes, and the ends of them.
fn put_items(buf: &mut [u8; 32]) -> [Result<usize, NoRoom>; 5] {
    [
        Ok(set_u32(buf, 3, 7)),
        put_opaque(buf, 7, b"alpha"),
        Ok(set_i32(buf, 19, -3)),
        Ok(set_bool(buf, 23, true)),
        put_fixed(buf, 27, b"m1"),
    ]
}

// What the same are read as: a number, a text, a number, a boolean and bytes, and how far the cursor is then.
type Items<'a> = (
    Result<u32, XdrFault>,
    [Result<&'a [u8], XdrFault>; 2],
    Result<i32, XdrFault>,
    Result<bool, XdrFault>,
    usize,
);

fn read_items(bytes: &[u8]) -> Items<'_> {
    let mut cursor = Cursor::new(bytes);
    let first = cursor.u32();
    let text = cursor.string(64);
    let second = cursor.i32();
    let third = cursor.bool();
    let fixed = cursor.fixed(2);
    (first, [text, fixed], second, third, cursor.at())
}

#[test]
fn one_behind_another(rt: HostRuntime) {
    let bytes = bytes(
        &rt,
        rt.alloc(),
        &["090909 00000007 00000005 616c7068 61000000 fffffffd 00000001 6d310000 09"],
    );
    let mut buf = [9; 32];
    let ends = put_items(&mut buf);
    let wanted = [Ok(7), Ok(19), Ok(23), Ok(27), Ok(31)];
    assert_same(
        &rt,
        &(ends, buf.as_slice()),
        &(wanted, bytes.as_slice()),
        "written",
    );
    let texts = [Ok(b"alpha".as_slice()), Ok(b"m1")];
    let items = (Ok(7), texts, Ok(-3), Ok(true), 28);
    assert_same(&rt, &read_items(&buf[3..]), &items, "read");
}

static TEXTS: [(XdrFault, &str); 5] = [
    (XdrFault::Short { at: 4 }, "short item at 4"),
    (
        XdrFault::TooLong { at: 8, len: 65 },
        "length 65 at 8 is over the limit",
    ),
    (XdrFault::Pad { at: 11 }, "padding at 11 is not zero"),
    (XdrFault::BadBool { at: 12 }, "no boolean at 12"),
    (XdrFault::BadEnum { at: 16 }, "no number of the enum at 16"),
];

#[test]
fn faults_as_text(rt: HostRuntime) {
    for (fault, text) in &TEXTS {
        assert_shown(&rt, rt.alloc(), fault, *text);
    }
}
