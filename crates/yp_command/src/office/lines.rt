//! Lines of text, which are made without memory.

ghost use Rattle.std.specs.Prelude.{◌≡◌, ◌+◌, ◌≤◌, ◌++◌, codes, decimal, length};
ghost use Rattle.arrayvec.specs.ArrayVec.{array_vec_len};
ghost use Rattle.yp_board.specs.Catalogues.{name_view};
ghost use Rattle.yp_command.specs.office.Lines.{map_text, peer_text};

use arrayvec::ArrayVec;
use yp_board::MapName;
use yp_io::Peer;

/// The most bytes of a line: the longest tells a map, three numbers and a master.
pub const LINE_MAX: usize = 320;

/// A line while it is made.
pub type Line = ArrayVec<u8, LINE_MAX>;

/// Adds a text.
pub fn add(line: &mut Line, text: &[u8])
    requires { array_vec_len line.old + length text.now ≤ LINE_MAX }
    ensures text { line.new.items ≡ line.old.items ++ text.now }
    ensures len { array_vec_len line.new ≡ array_vec_len line.old + length text.now }
{
    let _ = line.try_extend_from_slice(text);
}

/// Adds a number in decimal, of at most 20 digits.
pub fn add_number(line: &mut Line, number: u64)
    requires { array_vec_len line.old + 20 ≤ LINE_MAX }
    ensures text { line.new.items ≡ line.old.items ++ decimal number }
    ensures len { array_vec_len line.new ≤ array_vec_len line.old + 20 }
{
    add(line, itoa::Buffer::new().format(number).as_bytes());
}

/// Adds the name of a map: its domain and its map, with a slash between.
pub fn add_map(line: &mut Line, map: &MapName)
    requires domain { length map.now.domain.items ≤ 64 }
    requires map { length map.now.map.items ≤ 64 }
    requires room { array_vec_len line.old + 129 ≤ LINE_MAX }
    ensures text { line.new.items ≡ line.old.items ++ map_text (name_view map.now) }
    ensures len { array_vec_len line.new ≤ array_vec_len line.old + 129 }
{
    add(line, &map.domain);
    add(line, b"/");
    add(line, &map.map);
}

/// Adds an address: four numbers and a port.
pub fn add_peer(line: &mut Line, peer: Peer)
    requires { array_vec_len line.old + 104 ≤ LINE_MAX }
    ensures text { line.new.items ≡ line.old.items ++ peer_text peer }
    ensures len { array_vec_len line.new ≤ array_vec_len line.old + 104 }
{
    add_number(line, u64::from(peer.addr[0]));
    add(line, b".");
    add_number(line, u64::from(peer.addr[1]));
    add(line, b".");
    add_number(line, u64::from(peer.addr[2]));
    add(line, b".");
    add_number(line, u64::from(peer.addr[3]));
    add(line, b":");
    add_number(line, u64::from(peer.port));
}
