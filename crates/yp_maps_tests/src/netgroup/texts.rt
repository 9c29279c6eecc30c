//! The members that texts spell.

use crate::given::assert_same;
use std::alloc::{AllocError, Global};
use std::process::Abort;
use yp_netgroup::{Member, members};

// Puts a member behind others: a name as it is, a triple in parentheses, and a semicolon behind each.
fn put(text: &mut Vec<u8>, member: &Member) -> Result<(), AllocError> {
    match member {
        Member::Group(name) => text.extend_from_slice(*name)?,
        Member::Triple { host, user, domain } => {
            text.push(b'(')?;
            text.extend_from_slice(*host)?;
            text.push(b',')?;
            text.extend_from_slice(*user)?;
            text.push(b',')?;
            text.extend_from_slice(*domain)?;
            text.push(b')')?;
        }
    }
    text.push(b';')?;
    Ok(())
}

// The members of a text, one behind the other.
fn spelled<R: Abort>(rt: &R, alloc: Global, text: &[u8]) -> Vec<u8> {
    let members = members(alloc, text).expect(rt, "memory");
    let mut spelled = Vec::new(alloc);
    for member in members.as_slice() {
        put(&mut spelled, member).expect(rt, "memory");
    }
    spelled
}

// Texts, and their members.
static TEXTS: [(&[u8], &[u8]); 18] = [
    (b"", b""),
    (b" \t ", b""),
    (b"a", b"a;"),
    (b"\ta  bc\t\td ", b"a;bc;d;"),
    (b"a\n\x80-b *", b"a\n\x80-b;*;"),
    (b"(h,u,d)", b"(h,u,d);"),
    (b"( h\t,  , d e )", b"(h,,d e);"),
    (b"(,,)(-,-,-)", b"(,,);(-,-,-);"),
    (b"a(,u,)b", b"a;(,u,);b;"),
    // From here on the rest is ignored.
    (b", a", b""),
    (b") a", b""),
    (b"a, b", b"a;"),
    (b"a) b", b"a;"),
    (b"(h,u,d", b""),
    (b"a () b", b"a;"),
    (b"(h,u) b", b""),
    (b"(h,u,d,e) b", b""),
    (b"(,,) (h,(u,d) b", b"(,,);"),
];

#[test]
fn members_of_texts(rt: HostRuntime) {
    for (text, wanted) in &TEXTS {
        let came = spelled(&rt, rt.alloc(), *text);
        assert_same(&rt, &came.as_slice(), wanted, "a text");
    }
}
