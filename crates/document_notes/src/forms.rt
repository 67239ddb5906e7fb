//! The tables of a scenario in TOML: the keys of each, what stands there, and whether it has to be there.
use crate::kinds::Kind;

/// A key of a table.
pub(crate) type Key = (&'static str, Kind, bool);

pub(crate) const DOCUMENT: [Key; 6] = [
    ("version", Kind::Integer, true),
    ("group", Kind::Table, false),
    ("ident", Kind::Table, false),
    ("subgroups", Kind::Tables, false),
    ("sinks", Kind::Tables, false),
    ("steps", Kind::Steps, true),
];

pub(crate) const GROUP: [Key; 15] = [
    ("framing", Kind::Text, true),
    ("origin", Kind::Integer, true),
    ("delay", Kind::Integer, true),
    ("iso", Kind::Integer, true),
    ("sdu", Kind::Integer, true),
    ("max_sdu", Kind::Integer, true),
    ("max_pdu", Kind::Integer, true),
    ("num_bis", Kind::Integer, true),
    ("bn", Kind::Integer, true),
    ("nse", Kind::Integer, true),
    ("irc", Kind::Integer, true),
    ("pto", Kind::Integer, true),
    ("sub", Kind::Integer, true),
    ("spacing", Kind::Integer, true),
    ("phy", Kind::Integer, true),
];

pub(crate) const IDENT: [Key; 4] = [
    ("type", Kind::Integer, true),
    ("address", Kind::Text, true),
    ("sid", Kind::Integer, true),
    ("id", Kind::Text, true),
];

pub(crate) const SUBGROUP: [Key; 4] = [
    ("codec", Kind::Text, true),
    ("config", Kind::Text, true),
    ("meta", Kind::Text, false),
    ("bis", Kind::Tables, false),
];

pub(crate) const BIS: [Key; 2] = [("index", Kind::Integer, true), ("config", Kind::Text, true)];

pub(crate) const SINK: [Key; 7] = [
    ("number", Kind::Integer, true),
    ("streams", Kind::Integer, true),
    ("slots", Kind::Integer, true),
    ("mtu", Kind::Integer, false),
    ("pacs", Kind::Tables, false),
    ("locations", Kind::Text, false),
    ("contexts", Kind::Pair, false),
];

pub(crate) const PAC: [Key; 3] = [
    ("codec", Kind::Text, true),
    ("caps", Kind::Text, true),
    ("meta", Kind::Text, true),
];
