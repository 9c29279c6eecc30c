//! The numbers of YP version 2, of the push response program and of the binder (yp.x), and of the make program, and the
//! limits of what their messages hold.

ghost use Rattle.std.specs.Prelude.{◌≡◌};
ghost use Rattle.yp_messages.specs.Numbers.{program, version, name_max, key_max, value_max};
ghost use Rattle.yp_messages.specs.Numbers.{null_procedure, domain_procedure, domain_nonack_procedure, match_procedure};
ghost use Rattle.yp_messages.specs.Numbers.{first_procedure, next_procedure, xfr_procedure, clear_procedure};
ghost use Rattle.yp_messages.specs.Numbers.{all_procedure, master_procedure, order_procedure, maplist_procedure};
ghost use Rattle.yp_messages.specs.Numbers.{make_program, make_version, make_null_procedure, make_procedure};
ghost use Rattle.yp_messages.specs.Numbers.{make_named_procedure};
ghost use Rattle.yp_messages.specs.Numbers.{push_version, push_null_procedure, xfrresp_procedure};
ghost use Rattle.yp_messages.specs.Numbers.{bind_program, bind_version, bind_null_procedure, bind_domain_procedure};
ghost use Rattle.yp_messages.specs.Numbers.{setdom_procedure, addr_len, port_len};

/// The program number of YP.
pub const YPPROG: u32 = 100_004;

/// The version of YP that is spoken.
pub const YPVERS: u32 = 2;

/// The procedure that does nothing.
pub const NULL: u32 = 0;

/// The procedure that tells whether a domain is served.
pub const DOMAIN: u32 = 1;

/// The same, with silence in place of no.
pub const DOMAIN_NONACK: u32 = 2;

/// The procedure that gives a key's value.
pub const MATCH: u32 = 3;

/// The procedure that gives the first row of a map.
pub const FIRST: u32 = 4;

/// The procedure that gives the row behind a key's.
pub const NEXT: u32 = 5;

/// The procedure that has a map fetched from its master.
pub const XFR: u32 = 6;

/// The procedure that has open maps closed.
pub const CLEAR: u32 = 7;

/// The procedure that gives all rows of a map.
pub const ALL: u32 = 8;

/// The procedure that names the master of a map.
pub const MASTER: u32 = 9;

/// The procedure that gives the order number of a map.
pub const ORDER: u32 = 10;

/// The procedure that lists the maps of a domain.
pub const MAPLIST: u32 = 11;

/// The program number of the make program, which is this project's own.
pub const MAKEPROG: u32 = 536_890_953;

/// Its version.
pub const MAKEVERS: u32 = 1;

/// Its procedure that does nothing.
pub const MAKE_NULL: u32 = 0;

/// Its procedure that has the map of a kind made anew.
pub const MAKE: u32 = 1;

/// Its procedure that has a map made anew by its name.
pub const MAKE_NAMED: u32 = 2;

/// The version of the program that is told how a pushed transfer went. Each request has the program's number.
pub const PUSHVERS: u32 = 1;

/// Its procedure that does nothing.
pub const PUSH_NULL: u32 = 0;

/// Its procedure that takes how a transfer went.
pub const XFRRESP: u32 = 1;

/// The program number of the binder.
pub const BINDPROG: u32 = 100_007;

/// Its version.
pub const BINDVERS: u32 = 2;

/// Its procedure that does nothing.
pub const BIND_NULL: u32 = 0;

/// Its procedure that tells which server a domain is bound to.
pub const BIND_DOMAIN: u32 = 1;

/// Its procedure that binds a domain.
pub const SETDOM: u32 = 2;

/// The bytes of an IPv4 address.
pub const ADDR_LEN: usize = 4;

/// The bytes of a port.
pub const PORT_LEN: usize = 2;

/// The most bytes of a domain's, a map's, a master's or a host's name.
pub const NAME_MAX: u32 = 64;

/// The most bytes of a key.
pub const KEY_MAX: u32 = 65_536;

/// The most bytes of a value.
pub const VALUE_MAX: u32 = 65_536;

/// The numbers of the program are those that the definitions have. It does nothing.
pub fn program_is_defined()
    ensures program { YPPROG ≡ program }
    ensures version { YPVERS ≡ version }
    ensures null { NULL ≡ null_procedure }
    ensures domain { DOMAIN ≡ domain_procedure }
    ensures domain_nonack { DOMAIN_NONACK ≡ domain_nonack_procedure }
    ensures match_ { MATCH ≡ match_procedure }
    ensures first { FIRST ≡ first_procedure }
    ensures next { NEXT ≡ next_procedure }
    ensures xfr { XFR ≡ xfr_procedure }
    ensures clear { CLEAR ≡ clear_procedure }
    ensures all { ALL ≡ all_procedure }
    ensures master { MASTER ≡ master_procedure }
    ensures order { ORDER ≡ order_procedure }
    ensures maplist { MAPLIST ≡ maplist_procedure }
{}

/// The numbers of the make program are those that the definitions have. It does nothing.
pub fn make_program_is_defined()
    ensures program { MAKEPROG ≡ make_program }
    ensures version { MAKEVERS ≡ make_version }
    ensures null { MAKE_NULL ≡ make_null_procedure }
    ensures make { MAKE ≡ make_procedure }
    ensures named { MAKE_NAMED ≡ make_named_procedure }
{}

/// The numbers of the push response program are those that the definitions have. It does nothing.
pub fn push_program_is_defined()
    ensures version { PUSHVERS ≡ push_version }
    ensures null { PUSH_NULL ≡ push_null_procedure }
    ensures xfrresp { XFRRESP ≡ xfrresp_procedure }
{}

/// The numbers of the binder are those that the definitions have. It does nothing.
pub fn bind_program_is_defined()
    ensures program { BINDPROG ≡ bind_program }
    ensures version { BINDVERS ≡ bind_version }
    ensures null { BIND_NULL ≡ bind_null_procedure }
    ensures domain { BIND_DOMAIN ≡ bind_domain_procedure }
    ensures setdom { SETDOM ≡ setdom_procedure }
    ensures addr { ADDR_LEN ≡ addr_len }
    ensures port { PORT_LEN ≡ port_len }
{}

/// The limits are those that the definitions have. It does nothing.
pub fn limits_are_defined()
    ensures name { NAME_MAX ≡ name_max }
    ensures key { KEY_MAX ≡ key_max }
    ensures value { VALUE_MAX ≡ value_max }
{}
