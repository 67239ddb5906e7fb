ghost use Rattle.std.specs.Prelude.{◌≡◌, ◌++◌, ◌∷◌, [], OnOk, OnErr};
ghost use Rattle.unit_outlets.specs.Handed.{Caused, valid, lost};

use crate::relay::Relay;
use bcast_base::Bis;
use unit_outlets::{TakerFault, UnitTaker};

/// A taker that hands everything to the taker `inner`, and copies each valid unit of the relay's stream that `inner`
/// accepts to the end of the relay.
#[derive(Drop)]
pub struct RelayTaker<T> {
    relay: Relay,
    inner: T,
    wants: u64,
}

impl<T: UnitTaker> RelayTaker<T> {
    ghost use Rattle.relay_role.specs.State.Relays.{with_own, with_unit};

    /// A taker of a relay and the taker that units are handed to. It takes no memory.
    pub fn new(relay: Relay, inner: T) -> RelayTaker<T>
        ensures { result ≡ record { relay = relay; inner = inner; wants = 0 } }
    {
        RelayTaker {
            relay,
            inner,
            wants: 0,
        }
    }

    /// The relay and the taker that units were handed to.
    pub fn parts(self) -> (Relay, T)
        ensures { result ≡ (self.relay, self.inner) }
    {
        (self.relay, self.inner)
    }

    /// Copies a unit of the relay's stream to its end and hands it on; where it is refused the copy is taken back.
    fn copy(&mut self, bis: Bis, time: u64, octets: &[u8]) -> Result<(), TakerFault>
        ensures ok { OnOk result (T.calls self.new.inner ≡ T.calls self.old.inner ++ valid bis time octets.now ∷ []) }
        ensures err { OnErr result (T.calls self.new.inner ≡ T.calls self.old.inner) }
        ensures cause { Caused (with_own self.old.wants (T.counts self.old.inner))
            (with_own self.new.wants (T.counts self.new.inner)) result }
        ensures copied { OnOk result (self.new.relay ≡ with_unit time octets.now self.old.relay) }
        ensures same { OnErr result (self.new.relay ≡ self.old.relay) }
    {
        if self.relay.push(time, octets).is_err() {
            self.wants = self.wants.saturating_add(1);
            return Err(TakerFault::Memory);
        }
        match self.inner.valid(bis, time, octets) {
            Ok(()) => Ok(()),
            Err(fault) => {
                self.relay.take_back();
                Err(fault)
            }
        }
    }
}

impl<T: UnitTaker> UnitTaker for RelayTaker<T> {
    ghost use Rattle.relay_role.specs.State.Relays.{copied, with_own};

    ghost calls = { λ t. T.calls t.inner };

    ghost counts = { λ t. with_own t.wants (T.counts t.inner) };

    fn valid(&mut self, bis: Bis, time: u64, octets: &[u8]) -> Result<(), TakerFault>
        ensures ok { OnOk result (T.calls self.new.inner ≡ T.calls self.old.inner ++ valid bis time octets.now ∷ []) }
        ensures err { OnErr result (T.calls self.new.inner ≡ T.calls self.old.inner) }
        ensures cause { Caused (with_own self.old.wants (T.counts self.old.inner))
            (with_own self.new.wants (T.counts self.new.inner)) result }
        ensures copied { OnOk result (self.new.relay ≡ copied bis time octets.now self.old.relay) }
        ensures same { OnErr result (self.new.relay ≡ self.old.relay) }
    {
        if self.relay.hears(bis) {
            self.copy(bis, time, octets)
        } else {
            self.inner.valid(bis, time, octets)
        }
    }

    fn lost(&mut self, bis: Bis, time: u64) -> Result<(), TakerFault>
        ensures ok { OnOk result (T.calls self.new.inner ≡ T.calls self.old.inner ++ lost bis time ∷ []) }
        ensures err { OnErr result (T.calls self.new.inner ≡ T.calls self.old.inner) }
        ensures cause { Caused (with_own self.old.wants (T.counts self.old.inner))
            (with_own self.new.wants (T.counts self.new.inner)) result }
        ensures same { self.new.relay ≡ self.old.relay }
    {
        self.inner.lost(bis, time)
    }
}
