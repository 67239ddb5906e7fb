ghost use Rattle.std.specs.Prelude.{◌≡◌, ◌<◌, ◌^◌, [], length, OnOk, OnErr, IfOk, MatchResult, Err, None, Some};
ghost use Rattle.std.specs.Option.{ForSome};
ghost use Rattle.ltv_codec.specs.Layout.{AreLtvs};
ghost use Rattle.base_grammar.specs.declared.fault.DraftFault.TheVariants.{Memory as NoMemory};
ghost use Rattle.base_grammar.specs.Draft.{last_of, opened, with_subgroup, with_metadata, with_entry, subgroup_fault, metadata_fault, entry_fault, finish_fault, Refuses};
ghost use Rattle.base_grammar.specs.Layout.{endpoint, is_lc3, IsBase, IsConfig};

use crate::base::Base;
use crate::draft_steps::{finish_refusal, open_subgroup, put_entry, put_metadata};
use crate::fault::DraftFault;
use crate::subgroup::Subgroup;
use bcast_base::{Bis, Kept};
use std::alloc::Global;
use std::marker::Model;

/// A BASE that is put together from the left: a subgroup, its metadata and its entries, then the next subgroup.
#[derive(Drop)]
pub struct BaseDraft {
    alloc: Global,
    delay: u32,
    subgroups: Vec<Subgroup>,
}

impl Model for BaseDraft {
    ghost use Rattle.base_grammar.specs.Draft.{IsDraft};
    ghost use Rattle.base_grammar.specs.Layout.{Endpoint, endpoint};

    ghost Value = { Endpoint };

    ghost view = { λ d. endpoint d.delay d.subgroups.items };

    ghost invariant = { λ d. IsDraft (endpoint d.delay d.subgroups.items) };
}

impl BaseDraft {
    /// No subgroup yet. The delay in µs is below 2^24. It takes no memory.
    pub fn new(alloc: Global, delay: u32) -> BaseDraft
        requires { delay < 2 ^ 24 }
        ensures { result ≡ endpoint delay [] }
    {
        BaseDraft {
            alloc,
            delay,
            subgroups: Vec::new(alloc),
        }
    }

    /// Opens a subgroup with this Codec_ID and level 2, an LTV list where the codec is LC3. `NoBis` where the last
    /// subgroup has no entry yet. A refusal changes nothing.
    pub fn subgroup(&mut self, codec: [u8; 5], config: &[u8]) -> Result<(), DraftFault>
        requires { IsConfig (is_lc3 codec) config.now }
        ensures ok { OnOk result (self.new ≡ with_subgroup (opened codec config.now) self.old) }
        ensures err { OnErr result (self.new ≡ self.old) }
        ensures refuses { Refuses (subgroup_fault self.old.subgroups) result }
    {
        open_subgroup(self.alloc, &mut self.subgroups, codec, config)
    }

    /// Gives the last subgroup this metadata, an LTV list, in place of what it had. `NoSubgroup` where there is none. A
    /// refusal changes nothing. No octets take no memory.
    pub fn metadata(&mut self, from: &[u8]) -> Result<(), DraftFault>
        requires { AreLtvs from.now }
        ensures ok { OnOk result (self.new ≡ with_metadata from.now self.old) }
        ensures err { OnErr result (self.new ≡ self.old) }
        ensures refuses { Refuses (metadata_fault self.old.subgroups) result }
        ensures memory { result ≡ Err NoMemory → 0 < length from.now }
    {
        put_metadata(self.alloc, &mut self.subgroups, from)
    }

    /// Puts an entry with this level 3 at the end of the last subgroup, an LTV list where its codec is LC3. `NoSubgroup`
    /// where there is none, then `IndexTwice` where the index has an entry in any subgroup. A refusal changes nothing.
    pub fn bis(&mut self, bis: Bis, config: &[u8]) -> Result<(), DraftFault>
        requires { ForSome (last_of self.old.subgroups) (λ s. IsConfig (is_lc3 s.codec) config.now) }
        ensures ok { OnOk result (self.new ≡ with_entry (record { bis = bis; config = config.now }) self.old) }
        ensures err { OnErr result (self.new ≡ self.old) }
        ensures refuses { Refuses (entry_fault self.old.subgroups bis) result }
    {
        put_entry(self.alloc, &mut self.subgroups, bis, config)
    }

    /// What `finish` would refuse; `None` exactly where it gives the BASE. It takes no memory.
    pub fn check(&self) -> Option<DraftFault>
        ensures { result ≡ finish_fault self.now }
    {
        finish_refusal(&self.subgroups)
    }

    /// The BASE. `NoSubgroup` where there is no subgroup, then `NoBis` where the last one has no entry, then `TooLong`
    /// where there would be more than 252 octets. A refusal hands the draft back. It takes no memory.
    pub fn finish(self) -> Result<Base, Kept<BaseDraft, DraftFault>>
        ensures ok { IfOk result (λ base. base ≡ self) }
        ensures base { IfOk result IsBase }
        ensures refuses { MatchResult result (λ _. finish_fault self ≡ None)
            (λ kept. (finish_fault self ≡ Some kept.fault) × (kept.state ≡ self)) }
    {
        if let Some(fault) = self.check() {
            return Err(Kept { state: self, fault });
        }
        let BaseDraft {
            alloc: _,
            delay,
            subgroups,
        } = self;
        Ok(Base::new(delay, subgroups))
    }
}
