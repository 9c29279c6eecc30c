//! The kinds of maps that are made of texts.

ghost use Rattle.std.specs.Prelude.{◌≡◌, ◌==◌};
ghost use Rattle.std.specs.List.{find};
ghost use Rattle.yp_texts.specs.Kinds.{kinds, number_of, name_of, file_of, kind_named};

/// What a map is made of, and by which key.
#[derive(Clone, Copy, Debug, PartialEq, Eq)]
pub enum Kind {
    PasswdByname,
    PasswdByuid,
    GroupByname,
    GroupBygid,
    HostsByname,
    HostsByaddr,
    ServicesByname,
    ProtocolsBynumber,
    Netgroup,
    Ypservers,
}

/// In the order of their numbers.
const KINDS: [Kind; 10] = [
    Kind::PasswdByname,
    Kind::PasswdByuid,
    Kind::GroupByname,
    Kind::GroupBygid,
    Kind::HostsByname,
    Kind::HostsByaddr,
    Kind::ServicesByname,
    Kind::ProtocolsBynumber,
    Kind::Netgroup,
    Kind::Ypservers,
];

impl Kind {
    /// The kind of this number, from 1 to 10.
    pub fn of_number(number: u32) -> Option<Kind>
        ensures { result ≡ find (λ kind. number_of kind == number) kinds }
    {
        KINDS.iter().copied().find(|kind| kind.number() == number)
    }

    fn number(self) -> u32
        ensures { result ≡ number_of self }
    {
        self as u32 + 1
    }

    /// The kind whose map has this name.
    pub fn of_name(name: &[u8]) -> Option<Kind>
        ensures { result ≡ kind_named name.now }
    {
        KINDS.iter().copied().find(|kind| kind.name() == name)
    }

    /// The name of its map.
    pub fn name(self) -> &'static [u8]
        ensures { result.now ≡ name_of self }
    {
        match self {
            Kind::PasswdByname => b"passwd.byname",
            Kind::PasswdByuid => b"passwd.byuid",
            Kind::GroupByname => b"group.byname",
            Kind::GroupBygid => b"group.bygid",
            Kind::HostsByname => b"hosts.byname",
            Kind::HostsByaddr => b"hosts.byaddr",
            Kind::ServicesByname => b"services.byname",
            Kind::ProtocolsBynumber => b"protocols.bynumber",
            Kind::Netgroup => b"netgroup",
            Kind::Ypservers => b"ypservers",
        }
    }

    /// The name of the text that its map is made of.
    pub fn text(self) -> &'static [u8]
        ensures { result.now ≡ file_of self }
    {
        match self {
            Kind::PasswdByname | Kind::PasswdByuid => b"passwd",
            Kind::GroupByname | Kind::GroupBygid => b"group",
            Kind::HostsByname | Kind::HostsByaddr => b"hosts",
            Kind::ServicesByname => b"services",
            Kind::ProtocolsBynumber => b"protocols",
            Kind::Netgroup => b"netgroup",
            Kind::Ypservers => b"ypservers",
        }
    }
}
