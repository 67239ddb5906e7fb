ghost use Rattle.std.specs.Prelude.{◌≡◌, ◌==◌, ◌++◌, map};
ghost use Rattle.std.specs.List.{list_any};
ghost use Rattle.base_grammar.specs.Layout.{is_lc3, bis_of, indices, stands_in};

use bcast_base::{Bis, Items, Octets};

/// An entry of a subgroup: the index of a stream, and the codec configuration that it has of its own (level 3).
#[derive(Drop)]
pub struct BaseEntry {
    pub bis: Bis,
    pub config: Octets,
}

/// The entries of a subgroup.
pub type Entries = Items<BaseEntry>;

/// A subgroup: its Codec_ID, the codec configuration of all its streams (level 2), its metadata, and its streams.
#[derive(Drop)]
pub struct Subgroup {
    pub codec: [u8; 5],
    pub config: Octets,
    pub metadata: Octets,
    pub entries: Entries,
}

const LC3: [u8; 5] = [0x06, 0, 0, 0, 0];

/// Whether the Codec_ID is that of LC3.
pub fn is_lc3_codec(codec: &[u8; 5]) -> bool
    ensures { result ≡ is_lc3 codec.now }
{
    codec.as_slice() == LC3.as_slice()
}

// Whether one of the entries has this index.
fn has_entry(entries: &[BaseEntry], bis: u8) -> bool
    ensures { result ≡ list_any (λ e. e.bis == bis) entries.now }
{
    entries.iter().any(|entry| entry.bis.get() == bis)
}

// Whether one of the subgroups has an entry with this index.
fn has_index(subgroups: &[Subgroup], bis: u8) -> bool
    ensures { result ≡ list_any (λ s. list_any (λ e. e.bis == bis) s.entries) subgroups.now }
{
    subgroups
        .iter()
        .any(|subgroup| has_entry(subgroup.entries.as_slice(), bis))
}

// Whether the index stands in one of the subgroups, or of the entries behind them.
pub(crate) fn stands_before(subgroups: &[Subgroup], entries: &[BaseEntry], bis: u8) -> bool
    ensures { result ≡ stands_in (indices subgroups.now ++ map bis_of entries.now) bis }
{
    has_index(subgroups, bis) || has_entry(entries, bis)
}
