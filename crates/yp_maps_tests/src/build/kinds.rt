//! Kinds of maps: their numbers, their names, and the texts that they are built of.

use crate::given::assert_same;
use yp_texts::*;

static KINDS: [(u32, &[u8], &[u8]); 10] = [
    (1, b"passwd.byname", b"passwd"),
    (2, b"passwd.byuid", b"passwd"),
    (3, b"group.byname", b"group"),
    (4, b"group.bygid", b"group"),
    (5, b"hosts.byname", b"hosts"),
    (6, b"hosts.byaddr", b"hosts"),
    (7, b"services.byname", b"services"),
    (8, b"protocols.bynumber", b"protocols"),
    (9, b"netgroup", b"netgroup"),
    (10, b"ypservers", b"ypservers"),
];

#[test]
fn kinds(rt: HostRuntime) {
    for (number, name, text) in &KINDS {
        let kind = Kind::of_number(*number).expect(&rt, "a kind");
        let came = (*number, kind.name(), kind.text(), Kind::of_name(*name));
        assert_same(&rt, &came, &(*number, *name, *text, Some(kind)), "a kind");
    }
    let numbers = [
        Kind::of_number(0),
        Kind::of_number(11),
        Kind::of_number(u32::MAX),
    ];
    assert_same(&rt, &numbers, &[None; 3], "numbers of no kind");
    let names = [
        Kind::of_name(b""),
        Kind::of_name(b"passwd"),
        Kind::of_name(b"netgroup "),
        Kind::of_name(b"Netgroup"),
    ];
    assert_same(&rt, &names, &[None; 4], "names of no kind");
}

// The name of a map, how its text is read, and the name of that text.
static READINGS: [(&[u8], Reading, &[u8]); 6] = [
    (b"hosts.byaddr", Reading::Text(Kind::HostsByaddr), b"hosts"),
    (b"netgroup", Reading::Text(Kind::Netgroup), b"netgroup"),
    (b"passwd", Reading::Rows, b"passwd"),
    (b"auto.master", Reading::Rows, b"auto.master"),
    (b"Hosts.byname", Reading::Rows, b"Hosts.byname"),
    (b"", Reading::Rows, b""),
];

#[test]
fn readings_of_maps(rt: HostRuntime) {
    for (map, reading, text) in &READINGS {
        let came = (*map, Reading::of_map(*map), reading.source(*map));
        assert_same(&rt, &came, &(*map, *reading, *text), "a reading");
    }
}
