//! Texts and their rows, written out by hand.

use crate::given::{assert_fits, assert_same, long_text, text_of};
use std::alloc::Global;
use std::process::Abort;
use std::random::RandomSource;
use yp_texts::Reading::{Rows, Text};
use yp_texts::*;
use yp_version::{Order, Version, VersionBuilder};

/// A name, how a text is read, the text, and the rows that it makes, by rising keys.
type Made = (
    &'static str,
    Reading,
    &'static [u8],
    &'static [(&'static [u8], &'static [u8])],
);

const USERS: &[u8] =
    b"# users\nroot:x:0:0::/root:/bin/sh\n\n \t\n+::::::\n-joe::::::\nann:x:10:1:#1 user:/home/ann:/bin/sh";

/// Fields that lack, that are empty, and that have blanks.
const SHORT_USERS: &[u8] = b"a:x:10\nb:y\nc:z:\n d:x:11 \n:x:12\na:again:13\n";

const GROUPS: &[u8] = b"wheel:*:0:root\n#old:*:1:\n staff:*:50:ann,joe\nnone\n";

const HOSTS: &[u8] =
    b"10.0.0.1 alpha al # first\n\t10.0.0.2\tbeta \n#10.0.0.3 gamma\n10.0.0.4\n \t \n\n10.0.0.5 alpha # again";

static MADE: [Made; 24] = [
    (
        "users by name",
        Text(Kind::PasswdByname),
        USERS,
        &[
            (b"ann", b"ann:x:10:1:#1 user:/home/ann:/bin/sh"),
            (b"root", b"root:x:0:0::/root:/bin/sh"),
        ],
    ),
    (
        "users by number",
        Text(Kind::PasswdByuid),
        USERS,
        &[
            (b"0", b"root:x:0:0::/root:/bin/sh"),
            (b"10", b"ann:x:10:1:#1 user:/home/ann:/bin/sh"),
        ],
    ),
    (
        "short users by name",
        Text(Kind::PasswdByname),
        SHORT_USERS,
        &[
            (b" d", b" d:x:11 "),
            (b"a", b"a:x:10"),
            (b"b", b"b:y"),
            (b"c", b"c:z:"),
        ],
    ),
    (
        "short users by number",
        Text(Kind::PasswdByuid),
        SHORT_USERS,
        &[
            (b"10", b"a:x:10"),
            (b"11 ", b" d:x:11 "),
            (b"12", b":x:12"),
            (b"13", b"a:again:13"),
        ],
    ),
    (
        "groups by name",
        Text(Kind::GroupByname),
        GROUPS,
        &[
            (b" staff", b" staff:*:50:ann,joe"),
            (b"none", b"none"),
            (b"wheel", b"wheel:*:0:root"),
        ],
    ),
    (
        "groups by number",
        Text(Kind::GroupBygid),
        GROUPS,
        &[(b"0", b"wheel:*:0:root"), (b"50", b" staff:*:50:ann,joe")],
    ),
    (
        "hosts by name",
        Text(Kind::HostsByname),
        HOSTS,
        &[
            (b"al", b"10.0.0.1 alpha al"),
            (b"alpha", b"10.0.0.1 alpha al"),
            (b"beta", b"10.0.0.2\tbeta"),
        ],
    ),
    (
        "hosts by address",
        Text(Kind::HostsByaddr),
        HOSTS,
        &[
            (b"10.0.0.1", b"10.0.0.1 alpha al"),
            (b"10.0.0.2", b"10.0.0.2\tbeta"),
            (b"10.0.0.4", b"10.0.0.4"),
            (b"10.0.0.5", b"10.0.0.5 alpha"),
        ],
    ),
    (
        "services",
        Text(Kind::ServicesByname),
        b"smtp 25/tcp mail\nsmtp  25/udp\n\ndomain\n http\t80/tcp#www\nsubmit 25/tcp\n",
        &[
            (b"25/tcp", b"smtp 25/tcp mail"),
            (b"25/udp", b"smtp  25/udp"),
            (b"80/tcp", b"http\t80/tcp"),
        ],
    ),
    (
        "protocols",
        Text(Kind::ProtocolsBynumber),
        b"tcp 6 TCP # x\nip 0 IP\nicmp # 1\n",
        &[(b"0", b"ip 0 IP"), (b"6", b"tcp 6 TCP")],
    ),
    (
        "servers",
        Text(Kind::Ypservers),
        b" m1 main\ns1\n#s2\n m1\n",
        &[(b"m1", b"m1"), (b"s1", b"s1")],
    ),
    // Several lines are one before its comment is cut. A group may have no members.
    (
        "groups of several lines",
        Text(Kind::Netgroup),
        b"a b c \\\n  d # e \\\nf\nall\ng\t (h,,) \\",
        &[(b"a", b"b c    d"), (b"all", b""), (b"g", b"(h,,) \\")],
    ),
    // No line follows a line feed at the end of the text.
    (
        "a backslash in the last line",
        Text(Kind::Netgroup),
        b"x y\\\n",
        &[(b"x", b"y\\")],
    ),
    // An empty line follows.
    (
        "an empty line follows a backslash",
        Text(Kind::Netgroup),
        b"x y\\\n\n\\\nz",
        &[(b"x", b"y"), (b"z", b"")],
    ),
    // A blank stands behind the backslash.
    (
        "a blank behind a backslash",
        Text(Kind::Netgroup),
        b"p q\\ \nr s\n",
        &[(b"p", b"q\\"), (b"r", b"s")],
    ),
    (
        "a name in two lines",
        Text(Kind::Netgroup),
        b"gr\\\nou p",
        &[(b"gr", b"ou p")],
    ),
    // Other texts have no continuation lines.
    (
        "no continuation in hosts",
        Text(Kind::HostsByaddr),
        b"1 a\\\n2 b",
        &[(b"1", b"1 a\\"), (b"2", b"2 b")],
    ),
    (
        "bytes of hosts",
        Text(Kind::HostsByname),
        b"1 \x00a\xff\x0b\r\n",
        &[(b"\x00a\xff\x0b\r", b"1 \x00a\xff\x0b\r")],
    ),
    (
        "bytes of users",
        Text(Kind::PasswdByname),
        b"\x00:\xff\n",
        &[(b"\x00", b"\x00:\xff")],
    ),
    ("no users", Text(Kind::PasswdByname), b"", &[]),
    ("no hosts", Text(Kind::HostsByname), b"\n \n\t", &[]),
    ("no groups", Text(Kind::Netgroup), b"\\\n\n", &[]),
    (
        "rows that stand in the text",
        Rows,
        b"beta  \ttwo words \nalpha\t 1\n\ngamma\nalpha 3\n\tno key\n#d\te\\\nf g",
        &[
            (b"", b"no key"),
            (b"#d", b"e\\"),
            (b"alpha", b" 1"),
            (b"beta", b"two words "),
            (b"f", b"g"),
            (b"gamma", b""),
        ],
    ),
    ("no rows that stand in the text", Rows, b"\n\n", &[]),
];

fn built<R: RandomSource + Abort>(rt: &R, alloc: Global, reading: Reading, text: &[u8]) -> Version {
    let source = SourceText {
        reading,
        text: text_of(rt, alloc, text),
    };
    let maker = Maker {
        name: b"m1",
        moment: 7,
    };
    build(alloc, rt, source, None, &maker).expect(rt, "a version")
}

fn assert_rows<R: Abort>(rt: &R, version: &Version, rows: &[(&[u8], &[u8])], name: &str) {
    for i in 0..=rows.len() {
        let came = (i, version.len(), version.row(i));
        let wanted = (i, rows.len(), rows.get(i).copied());
        assert_same(rt, &came, &wanted, name);
    }
}

#[test]
fn rows_of_texts(rt: HostRuntime) {
    for (name, reading, text, rows) in &MADE {
        let version = built(&rt, rt.alloc(), *reading, *text);
        assert_rows(&rt, &version, *rows, *name);
    }
}

/// Adds the line of one of 38 users, of whom the last has the number of the first.
fn put_user<R: Abort>(rt: &R, alloc: Global, text: &mut Vec<u8>, n: u8) {
    let uid = if n == 38 { 1001 } else { 1000 + u32::from(n) };
    let (tens, ones) = (n / 10, n % 10);
    let line = format!(in alloc; "u{tens}{ones}:x:{uid}:100::/home/u{tens}{ones}:/bin/sh\n");
    let line = line.expect(rt, "a line");
    text.extend_from_slice(line.as_bytes()).expect(rt, "room");
}

fn users<R: Abort>(rt: &R, alloc: Global) -> Vec<u8> {
    let mut text = b"# users\n".to_vec(alloc).expect(rt, "a text");
    for n in 1..39 {
        put_user(rt, alloc, &mut text, n);
    }
    text.extend_from_slice(b"+::::::\n").expect(rt, "room");
    text
}

// How many rows a version has, and the value of the number that two users have.
fn assert_users<R: Abort>(rt: &R, version: &Version, wanted: (usize, Option<&[u8]>), row: &str) {
    let came = (version.len(), version.get(b"1001"));
    assert_same(rt, &came, &wanted, row);
}

#[test]
fn passwd_rows(rt: HostRuntime) {
    let text = users(&rt, rt.alloc());
    let by_name = built(&rt, rt.alloc(), Text(Kind::PasswdByname), &text);
    assert_users(&rt, &by_name, (38, None), "by name");
    let by_uid = built(&rt, rt.alloc(), Text(Kind::PasswdByuid), &text);
    let first = b"u01:x:1001:100::/home/u01:/bin/sh".as_slice();
    assert_users(&rt, &by_uid, (37, Some(first)), "by number");
}

/// A name, how a text with long lines is read and made, its fault, and how many rows come before. Each line has this
/// front, and is filled with `x` to this length.
type Long = (
    &'static str,
    Reading,
    &'static [(&'static [u8], usize)],
    BuildFault,
    usize,
);

static LONG: [Long; 7] = [
    (
        "a long value",
        Text(Kind::PasswdByname),
        &[(b"a:", 65536), (b"b:", 65537), (b"c", 65537)],
        BuildFault::ValueLong { line: 2 },
        1,
    ),
    (
        "a long key",
        Text(Kind::PasswdByname),
        &[(b"", 0), (b"#", 70000), (b"c", 65537), (b"d:", 65537)],
        BuildFault::KeyLong { line: 3 },
        0,
    ),
    // The line is over the limit, and so each of its rows.
    (
        "a long line of hosts",
        Text(Kind::HostsByname),
        &[(b"1 a ", 65541)],
        BuildFault::ValueLong { line: 1 },
        0,
    ),
    // The number of a line is that of its first part.
    (
        "a long line of three parts",
        Text(Kind::Netgroup),
        &[
            (b"a b \\", 5),
            (b"c", 1),
            (b"d \\", 3),
            (b"\\", 1),
            (b"e", 65537),
        ],
        BuildFault::ValueLong { line: 3 },
        1,
    ),
    (
        "a long key behind two rows",
        Text(Kind::Ypservers),
        &[(b"a", 65536), (b"a", 1), (b"b", 65537)],
        BuildFault::KeyLong { line: 3 },
        2,
    ),
    (
        "a long key that stands in the text",
        Rows,
        &[(b"a\t", 65538), (b"", 0), (b"b", 65537)],
        BuildFault::KeyLong { line: 3 },
        1,
    ),
    (
        "a long value that stands in the text",
        Rows,
        &[(b"a ", 65539)],
        BuildFault::ValueLong { line: 1 },
        0,
    ),
];

/// What the rows of a text come to in a new builder, and how many it has then.
fn rows_told<R: RandomSource + Abort>(
    rt: &R,
    alloc: Global,
    reading: Reading,
    text: &[u8],
) -> (Result<(), BuildFault>, usize) {
    assert_fits(rt, text);
    let mut builder = VersionBuilder::new(alloc, rt, Order(1), b"m1").expect(rt, "a builder");
    let answer = rows_of(alloc, reading, text, &mut builder);
    (answer, builder.len())
}

#[test]
fn lines_of_faults(rt: HostRuntime) {
    for (name, reading, lines, fault, rows) in &LONG {
        let text = long_text(&rt, rt.alloc(), *lines);
        let came = rows_told(&rt, rt.alloc(), *reading, &text);
        assert_same(&rt, &came, &(Err(*fault), *rows), *name);
    }
}

/// 256 lines with keys of four bytes, each of 65536 bytes.
fn big_text<R: Abort>(rt: &R, alloc: Global) -> Vec<u8> {
    let mut text = Vec::new(alloc);
    for n in 0..256u32 {
        let front = format!(in alloc; "{}:", 1000 + n).expect(rt, "a front");
        let line = long_text(rt, alloc, &[(front.as_bytes(), 65536)]);
        text.extend_from_slice(&line).expect(rt, "room");
    }
    text
}

#[test]
fn too_big_at_a_line(rt: HostRuntime) {
    let text = big_text(&rt, rt.alloc());
    assert_fits(&rt, &text);
    let source = SourceText {
        reading: Text(Kind::PasswdByname),
        text,
    };
    let maker = Maker {
        name: b"m1",
        moment: 7,
    };
    let fault = build(rt.alloc(), &rt, source, None, &maker).err();
    // 16 bytes, 4 of the master and 255 rows of 8, 4 and 65,536 are 16,714,760; one more row is over 16,777,216.
    let wanted = Some(BuildFault::TooBig { line: 256 });
    assert_same(&rt, &fault, &wanted, "256 long lines");
}
