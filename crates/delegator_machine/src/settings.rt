//! What is set of a Scan Delegator: its capability, and the MTU.
ghost use Rattle.std.specs.Prelude.{◌≡◌, ◌≤◌, ◌<◌, ◌∷◌, ◌++◌, [], List, Some, length, OnOk, OnErr, IfErr};
ghost use Rattle.base_grammar.specs.Layout.{lc3};
ghost use Rattle.delegator_history.specs.States.{contexts_set, locations_set, mtu_set, record_added, snapshot_of};
ghost use Rattle.delegator_history.specs.Trains.{Setup};
ghost use Rattle.ltv_codec.specs.Layout.{AreLtvs};
ghost use Rattle.pacs_records.specs.Layout.{greatest_value, value};
ghost use Rattle.pacs_records.specs.Pushes.{RefusesPush};
ghost use Rattle.delegator_machine.specs.Calls.{Call, control, steps_of};
ghost use Rattle.delegator_machine.specs.State.Halves.{StandsFor, settings_of};

use crate::delegator::Delegator;
use pacs_records::{PacRecord, PushFault};

impl Delegator {
    /// Adds a record of capabilities (Published Audio Capabilities Service 1.0, section 3.1). TooLong comes exactly where the
    /// value of all would have more than 512 octets. A refusal changes nothing.
    pub fn add_pac(&mut self, entry: PacRecord) -> Result<(), PushFault>
        requires caps_count { length entry.caps < 256 }
        requires metadata_count { length entry.metadata < 256 }
        requires caps { entry.codec ≡ lc3 → AreLtvs entry.caps }
        requires metadata { AreLtvs entry.metadata }
        ensures refused { (setup : Setup) (calls : List Call) → StandsFor setup calls self.old
            → IfErr result (λ fault. RefusesPush fault (snapshot_of setup (steps_of calls)).capability.entries entry) }
        ensures fits { (setup : Setup) (calls : List Call) → StandsFor setup calls self.old
            → OnOk result (length (value ((snapshot_of setup (steps_of calls)).capability.entries ++ entry ∷ [])) ≤ greatest_value) }
        ensures stands { (setup : Setup) (calls : List Call) → StandsFor setup calls self.old
            → OnOk result (StandsFor setup (control (record_added entry) ∷ calls) self.new) }
        ensures settings { settings_of self.new ≡ settings_of self.old }
        ensures err { OnErr result (self.new ≡ self.old) }
    {
        self.scan.add_pac(entry)
    }

    /// Sets the Sink Audio Locations. It takes no memory.
    pub fn set_locations(&mut self, bits: u32)
        ensures stands { (setup : Setup) (calls : List Call) → StandsFor setup calls self.old
            → StandsFor setup (control (locations_set bits) ∷ calls) self.new }
        ensures settings { settings_of self.new ≡ settings_of self.old }
    {
        self.scan.set_locations(bits);
    }

    /// Sets the Available Sink Contexts. It takes no memory.
    pub fn set_contexts(&mut self, bits: u16)
        ensures stands { (setup : Setup) (calls : List Call) → StandsFor setup calls self.old
            → StandsFor setup (control (contexts_set bits) ∷ calls) self.new }
        ensures settings { settings_of self.new ≡ settings_of self.old }
    {
        self.scan.set_contexts(bits);
    }

    /// Sets the MTU, from 23 to 517. It takes no memory.
    pub fn set_mtu(&mut self, mtu: u16)
        requires least { 23 ≤ mtu }
        requires most { mtu ≤ 517 }
        ensures stands { (setup : Setup) (calls : List Call) → StandsFor setup calls self.old
            → StandsFor setup (control (mtu_set mtu) ∷ calls) self.new }
        ensures settings { settings_of self.new ≡ record (settings_of self.old) { mtu = Some mtu } }
    {
        self.scan.set_mtu(mtu);
    }
}
