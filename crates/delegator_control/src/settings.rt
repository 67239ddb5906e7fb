//! What is set of a sink: its capability, and the MTU.
ghost use Rattle.std.specs.Prelude.{◌≡◌, ◌<◌, ◌≤◌, ◌∷◌, ◌++◌, [], List, length, OnOk, OnErr, IfErr};
ghost use Rattle.base_grammar.specs.Layout.{lc3};
ghost use Rattle.delegator_history.specs.States.{Step, contexts_set, locations_set, mtu_set, record_added};
ghost use Rattle.delegator_history.specs.Steps.{located, opened, recorded};
ghost use Rattle.ltv_codec.specs.Layout.{AreLtvs};
ghost use Rattle.pacs_records.specs.Layout.{greatest_value, value};
ghost use Rattle.pacs_records.specs.Pushes.{RefusesPush};
ghost use Rattle.delegator_control.specs.State.Machines.{machine, moved, step_on, StandsFor};

use crate::scan_delegator::ScanDelegator;
use pacs_records::{PacRecord, PushFault};

impl ScanDelegator {
    /// Adds a record of capabilities. TooLong comes exactly where the value of all would have more than 512 octets. A
    /// refusal changes nothing.
    pub fn add_pac(&mut self, entry: PacRecord) -> Result<(), PushFault>
        requires caps_count { length entry.caps < 256 }
        requires metadata_count { length entry.metadata < 256 }
        requires caps { entry.codec ≡ lc3 → AreLtvs entry.caps }
        requires metadata { AreLtvs entry.metadata }
        ensures refused { IfErr result (λ fault. RefusesPush fault (machine self.old).snapshot.capability.entries entry) }
        ensures fits { OnOk result (length (value ((machine self.old).snapshot.capability.entries ++ entry ∷ [])) ≤ greatest_value) }
        ensures step { OnOk result (machine self.new ≡ moved (recorded entry) (machine self.old)) }
        ensures err { OnErr result (machine self.new ≡ machine self.old) }
        ensures stands { OnOk result ((steps : List Step) → StandsFor steps (machine self.old)
            → StandsFor (record_added entry ∷ steps) (machine self.new)) }
    {
        self.capability.entries.push(entry)
    }

    /// Sets the Sink Audio Locations. It takes no memory.
    pub fn set_locations(&mut self, bits: u32)
        ensures step { machine self.new ≡ moved (located bits) (machine self.old) }
        ensures stands { (steps : List Step) → StandsFor steps (machine self.old)
            → StandsFor (locations_set bits ∷ steps) (machine self.new) }
    {
        self.capability.locations = bits;
    }

    /// Sets the Available Sink Contexts. It takes no memory.
    pub fn set_contexts(&mut self, bits: u16)
        ensures step { machine self.new ≡ moved (opened bits) (machine self.old) }
        ensures stands { (steps : List Step) → StandsFor steps (machine self.old)
            → StandsFor (contexts_set bits ∷ steps) (machine self.new) }
    {
        self.capability.contexts = bits;
    }

    /// Sets the MTU, from 23 to 517. It takes no memory.
    pub fn set_mtu(&mut self, mtu: u16)
        requires least { 23 ≤ mtu }
        requires most { mtu ≤ 517 }
        ensures step { machine self.new ≡ step_on (mtu_set mtu) (machine self.old) }
        ensures stands { (steps : List Step) → StandsFor steps (machine self.old) → StandsFor (mtu_set mtu ∷ steps) (machine self.new) }
    {
        self.mtu = Some(mtu);
    }
}
