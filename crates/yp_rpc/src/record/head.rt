//! The heads of fragments.

ghost use Rattle.std.specs.Prelude.{◌≡◌, ◌^◌, ◌<◌};
ghost use Rattle.yp_rpc.specs.Records.{head};

// The bytes of a head.
pub(super) const HEAD: usize = 4;

// The bit that marks a record's last fragment.
const LAST: u32 = 0x8000_0000;

// What the head of a fragment says.
#[derive(Clone, Copy)]
pub(super) struct Head {
    pub(super) last: bool,
    pub(super) len: usize,
}

impl Head {
    // What four bytes say.
    pub(super) fn from_bytes(bytes: [u8; HEAD]) -> Head
        ensures spelled { head result.last result.len ≡ bytes }
        ensures short { result.len < 2 ^ 31 }
    {
        let word = u32::from_be_bytes(bytes);
        Head {
            last: word >= LAST,
            len: (word % LAST) as usize,
        }
    }

    // The four bytes that say so.
    pub(super) fn to_bytes(self) -> [u8; HEAD]
        requires { self.len < 2 ^ 31 }
        ensures { result ≡ head self.last self.len }
    {
        let mark = if self.last { LAST } else { 0 };
        (self.len as u32 + mark).to_be_bytes()
    }
}
