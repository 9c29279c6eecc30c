//! The forms of the words of the command line: what a word says by each of them.

ghost use Rattle.std.specs.Prelude.{◌≡◌, ◌<◌, option_map};
ghost use Rattle.std.specs.List.{list_all};
ghost use Rattle.yp_command.specs.Forms.{is_name_byte, is_name, name, store, kind_store, reverse_store, pair, number};
ghost use Rattle.yp_command.specs.Forms.{most, within, octet, port, window, workers, address, host, text, key, member};
ghost use Rattle.yp_command.specs.Forms.{before, after, flag, mode, policy};

use yp_binding::Policy;
use yp_board::NAME_MAX;
use yp_board::readers::WORKERS_MAX;
use yp_io::Peer;
use yp_texts::Kind;
use yp_version::{KEY_MAX, VALUE_MAX};

/// The map of netgroups by users, and that by hosts.
pub const BY_USER: &str = "netgroup.byuser";

const BY_HOST: &str = "netgroup.byhost";

/// The word for as many as can be counted.
const FOREVER: &str = "forever";

/// The most slaves of a push that may be outstanding.
const WINDOW_MAX: u32 = 4_096;

/// 1 to 64 visible characters without a slash and an at sign, the first of which is no dot.
pub fn name(word: &str) -> Option<&str>
    ensures { option_map (λ said. said.now) result ≡ name word.now }
{
    if is_name(word) { Some(word) } else { None }
}

fn is_name(word: &str) -> bool
    ensures { result ≡ is_name word.now }
{
    let bytes = word.as_bytes();
    !bytes.is_empty() && bytes.len() <= NAME_MAX && bytes[0] != b'.' && are_name_bytes(bytes)
}

fn are_name_bytes(bytes: &[u8]) -> bool
    ensures { result ≡ list_all is_name_byte bytes.now }
{
    bytes.iter().all(|byte| is_name_byte(*byte))
}

fn is_name_byte(byte: u8) -> bool
    ensures { result ≡ is_name_byte byte }
{
    0x21 <= byte && byte <= 0x7e && byte != b'/' && byte != b'@'
}

/// The names of a domain and a map, with a slash between.
pub fn store(word: &str) -> Option<(&str, &str)>
    ensures { option_map (λ said. (said.0.now, said.1.now)) result ≡ store word.now }
{
    let (domain, map) = cut_at(word, '/');
    Some((name(domain)?, name(map)?))
}

/// A store whose map has the name of a kind.
pub fn kind_store(word: &str) -> Option<(&str, &str)>
    ensures { option_map (λ said. (said.0.now, said.1.now)) result ≡ kind_store word.now }
{
    let (domain, map) = store(word)?;
    Kind::of_name(map.as_bytes())?;
    Some((domain, map))
}

/// A store whose map is that of netgroups by users, or by hosts.
pub fn reverse_store(word: &str) -> Option<(&str, &str)>
    ensures { option_map (λ said. (said.0.now, said.1.now)) result ≡ reverse_store word.now }
{
    match store(word)? {
        (domain, map) if map == BY_USER || map == BY_HOST => Some((domain, map)),
        _ => None,
    }
}

/// A row: its key, which isn't empty, and its value behind the first equals sign.
pub fn pair(word: &str) -> Option<(&str, &str)>
    ensures { option_map (λ said. (said.0.now, said.1.now)) result ≡ pair word.now }
{
    match word.split_once('=')? {
        (key, value) if !key.is_empty() && key.len() <= KEY_MAX && value.len() <= VALUE_MAX => {
            Some((key, value))
        }
        _ => None,
    }
}

/// A number of 32 bits in decimal, without a sign and without zeros in front.
pub fn number(word: &str) -> Option<u32>
    ensures { result ≡ number word.now }
{
    match word.parse::<u32>() {
        Ok(number) if itoa::Buffer::new().format(number) == word => Some(number),
        _ => None,
    }
}

/// How many there are at most: such a number, or, for `forever`, all that can be counted, 2^64 - 1.
pub fn most(word: &str) -> Option<u64>
    ensures { result ≡ most word.now }
{
    if word == FOREVER {
        return Some(u64::MAX);
    }
    Some(u64::from(number(word)?))
}

/// Such a number from a least one to a most.
fn within(least: u32, most: u32, word: &str) -> Option<u32>
    ensures { result ≡ within least most word.now }
{
    match number(word)? {
        value if least <= value && value <= most => Some(value),
        _ => None,
    }
}

fn octet(word: &str) -> Option<u8>
    ensures { result ≡ octet word.now }
{
    Some(within(0, 255, word)? as u8)
}

/// A port, which isn't 0.
pub fn port(word: &str) -> Option<u16>
    ensures { result ≡ port word.now }
{
    Some(within(1, 65_535, word)? as u16)
}

/// How many slaves of a push may be outstanding.
pub fn window(word: &str) -> Option<u32>
    ensures { result ≡ window word.now }
{
    within(1, WINDOW_MAX, word)
}

/// How many workers a server has.
pub fn workers(word: &str) -> Option<u32>
    ensures { result ≡ workers word.now }
{
    within(1, WORKERS_MAX, word)
}

/// Four numbers of a byte with dots between, a colon, and a port.
pub fn address(word: &str) -> Option<Peer>
    ensures { result ≡ address word.now }
{
    let (first, rest) = cut_at(word, '.');
    let (second, rest) = cut_at(rest, '.');
    let (third, rest) = cut_at(rest, '.');
    let (fourth, at) = cut_at(rest, ':');
    Some(Peer {
        addr: [octet(first)?, octet(second)?, octet(third)?, octet(fourth)?],
        port: port(at)?,
    })
}

/// A host: its name and its address, with an at sign between.
pub fn host(word: &str) -> Option<(&str, Peer)>
    ensures { option_map (λ said. (said.0.now, said.1)) result ≡ host word.now }
{
    let (own, peer) = cut_at(word, '@');
    Some((name(own)?, address(peer)?))
}

/// A name that a server is asked for: 1 to 64 bytes.
pub fn text(word: &str) -> Option<&str>
    ensures { option_map (λ said. said.now) result ≡ text word.now }
{
    if !word.is_empty() && word.len() <= NAME_MAX {
        Some(word)
    } else {
        None
    }
}

/// A key that a server is asked for, or a group: it may be empty.
pub fn key(word: &str) -> Option<&str>
    ensures { option_map (λ said. said.now) result ≡ key word.now }
{
    if word.len() <= KEY_MAX {
        Some(word)
    } else {
        None
    }
}

/// Who may be in a group, where an asterisk stands for any.
pub fn member(word: &str) -> Option<Option<&str>>
    ensures { option_map (option_map (λ said. said.now)) result ≡ member word.now }
{
    let given = key(word)?;
    Some(if given == "*" { None } else { Some(given) })
}

/// Whether a version is secure.
pub fn flag(word: &str) -> Option<bool>
    ensures { result ≡ flag word.now }
{
    match word {
        "secure" => Some(true),
        "plain" => Some(false),
        _ => None,
    }
}

/// Whether a version is taken whatever its order is.
pub fn mode(word: &str) -> Option<bool>
    ensures { result ≡ mode word.now }
{
    match word {
        "force" => Some(true),
        "newer" => Some(false),
        _ => None,
    }
}

/// Who may bind a domain by a call: nobody, a caller on the binder's own host, or anybody.
pub fn policy(word: &str) -> Option<Policy>
    ensures { result ≡ policy word.now }
{
    match word {
        "fixed" => Some(Policy::Fixed),
        "ypsetme" => Some(Policy::Ypsetme),
        "ypset" => Some(Policy::Ypset),
        _ => None,
    }
}

/// What stands before and after the first such mark.
fn cut_at(word: &str, mark: char) -> (&str, &str)
    requires { mark < 128 }
    ensures front { result.0.now ≡ before mark word.now }
    ensures back { result.1.now ≡ after mark word.now }
{
    word.split_once(mark).unwrap_or((word, ""))
}
