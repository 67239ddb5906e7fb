ghost use Rattle.std.specs.Prelude.{◌≡◌, ◌+◌, map};
ghost use Rattle.std.specs.List.{AllByRecursion};
ghost use Rattle.std.specs.Option.{option_copied};
ghost use Rattle.ltv_codec.specs.Layout.{AreLtvs};
ghost use Rattle.base_grammar.specs.Effective.{config_of, values_of, entry_of, effective_from};
ghost use Rattle.base_grammar.specs.Layout.{IsConfig, SubgroupFits, is_lc3};

use crate::subgroup::{BaseEntry, Subgroup, is_lc3_codec};
use bcast_base::Bis;
use ltv_codec::{Config, contexts_of};

/// What holds for one stream of a BASE.
#[derive(Clone, Copy, Debug, PartialEq, Eq)]
pub struct Effective {
    /// The Codec_ID of its subgroup.
    pub codec: [u8; 5],
    /// Each value of level 3, or of level 2 where it is absent there; all are absent where the codec is not LC3.
    pub config: Config,
    /// The Streaming_Audio_Contexts of its subgroup.
    pub contexts: Option<u16>,
    /// The place of its subgroup, from 0.
    pub subgroup: usize,
}

const NO_CONFIG: Config = Config {
    frequency: None,
    duration: None,
    allocation: None,
    frame_octets: None,
    blocks: None,
};

// The entry that has the index.
fn find_entry(entries: &[BaseEntry], bis: Bis) -> Option<&BaseEntry>
    ensures { option_copied result ≡ entry_of bis entries.now }
{
    entries.iter().find(|entry| entry.bis == bis)
}

// The configuration by both levels.
fn config_at(is_lc3: bool, high: &[u8], low: &[u8]) -> Config
    requires high { IsConfig is_lc3 high.now }
    requires low { IsConfig is_lc3 low.now }
    ensures { result ≡ config_of is_lc3 high.now low.now }
{
    if is_lc3 {
        Config::of(high, low)
    } else {
        NO_CONFIG
    }
}

// What holds for an entry of the subgroup at this place.
fn values_at(place: usize, from: &Subgroup, entry: &BaseEntry) -> Effective
    requires high { IsConfig (is_lc3 from.now.codec) entry.now.config }
    requires low { IsConfig (is_lc3 from.now.codec) from.now.config }
    requires metadata { AreLtvs from.now.metadata }
    ensures { result ≡ values_of place from.now entry.now }
{
    let is_lc3 = is_lc3_codec(&from.codec);
    Effective {
        codec: from.codec,
        config: config_at(is_lc3, entry.config.as_slice(), from.config.as_slice()),
        contexts: contexts_of(from.metadata.as_slice()),
        subgroup: place,
    }
}

// What holds for the index, which stands in one of the subgroups or in none.
pub(crate) fn effective_in(subgroups: &[Subgroup], bis: Bis) -> Option<Effective>
    requires { AllByRecursion SubgroupFits subgroups.now }
    ensures { result ≡ effective_from 0 bis subgroups.now }
{
    for place in 0..subgroups.len() {
        let subgroup = &subgroups[place];
        if let Some(entry) = find_entry(subgroup.entries.as_slice(), bis) {
            return Some(values_at(place, subgroup, entry));
        }
    }
    None
}
