ghost use Rattle.std.specs.Prelude.{◌≡◌, ◌<◌, ◌==◌, [], ℕ, List, length, IfOk, IfSome, OnOk, OnErr};

use crate::dropped::Dropped;
use crate::flush::{drop_all, offer_all};
use bcast_base::{Bis, Memory, Octets, Unit};
use source_machine::SourceStreaming;
use std::alloc::Global;
use std::collections::VecDeque;
use std::marker::Model;

/// What hands the valid units of a stream on to stream `to` of another source: the units wait, each with its time in µs,
/// until they are flushed (a unit is an SDU of Core 5.2, volume 6 part G, section 1).
#[derive(Drop)]
pub struct Relay {
    alloc: Global,
    bis: Bis,
    to: Bis,
    waiting: VecDeque<Unit>,
}

impl Model for Relay {
    ghost use Rattle.relay_role.specs.State.Relays.{Relay};

    ghost Value = { Relay };

    ghost view = { λ r. record { bis = r.bis; to = r.to; waiting = r.waiting.items } };
}

impl Relay {
    ghost use Rattle.relay_role.specs.State.Flushing.{Flushes, MayTake, StopsShort, left_by, second_in};
    ghost use Rattle.relay_role.specs.State.Relays.{Relay as State, with_unit};

    /// A relay of stream `bis` to stream `to`. No unit waits. It takes no memory.
    pub fn new(alloc: Global, bis: Bis, to: Bis) -> Relay
        ensures { result ≡ record { bis = bis; to = to; waiting = [] } }
    {
        Relay {
            alloc,
            bis,
            to,
            waiting: VecDeque::new(alloc),
        }
    }

    /// Offers the units that wait to the source, in order, each with its time; none waits after it. It answers the units
    /// that the source didn't take, each with the first reason that holds as it is offered, after the units before it:
    /// NotStreaming where there is no source, UnitTooLong above Max_SDU octets, TimeOrder where its time isn't above that of
    /// the last unit that stream `to` took, Backlog where 16 units of that stream wait.
    ///
    /// After want of memory the first units, in order, were offered, and the rest waits; which of the first were dropped is
    /// not told. Where no unit waits it takes no memory. The source is of a framed group that has stream `to` and isn't encrypted, and was configured with limits
    /// that let times be ahead.
    pub fn flush(&mut self, source: Option<&mut SourceStreaming>) -> Result<Dropped, Memory>
        requires { IfSome (second_in source) (MayTake self.old.to) }
        ensures ok { IfOk result (λ dropped. Flushes self.old.to self.old.waiting dropped (second_in source.entry) (left_by source.exit)) }
        ensures none { OnOk result (self.new ≡ record self.old { waiting = [] }) }
        ensures err { OnErr result (StopsShort self.old self.new (second_in source.entry) (left_by source.exit)) }
        ensures some { OnErr result (0 < length self.old.waiting) }
    {
        match source {
            Some(source) => offer_all(self.alloc, &mut self.waiting, self.to, source),
            None => drop_all(self.alloc, &mut self.waiting, self.to),
        }
    }

    /// Whether this is the stream whose units are handed on.
    pub(crate) fn hears(&self, bis: Bis) -> bool
        ensures { result ≡ (self.now.bis == bis) }
    {
        self.bis.get() == bis.get()
    }

    /// Puts a copy of a unit behind those that wait.
    pub(crate) fn push(&mut self, time: u64, octets: &[u8]) -> Result<(), Memory>
        ensures ok { OnOk result (self.new ≡ with_unit time octets.now self.old) }
        ensures err { OnErr result (self.new ≡ self.old) }
    {
        let octets = Octets::copy(self.alloc, octets)?;
        self.waiting.push_back(Unit { time, octets })?;
        Ok(())
    }

    /// Takes the unit that was put last back.
    pub(crate) fn take_back(&mut self)
        ensures { (time : ℕ) (octets : List ℕ) (relay : State) → self.old ≡ with_unit time octets relay → self.new ≡ relay }
    {
        let _ = self.waiting.pop_back();
    }
}
