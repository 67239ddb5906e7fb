//! The PDUs that a sink is handed.
use crate::asking::{answer, sent};
use crate::ledger::Stream;
use crate::marks::{has, with};
use crate::schedule::Schedule;
use crate::units::Units;
use bcast_base::{Bis, Memory};
use isoal_base::{Heard, Hearing};
use replay_steps::Machine;

impl Units {
    /// A PDU will be handed to a sink, or other octets in its place.
    pub(crate) fn hear(
        &mut self,
        machine: &Machine,
        source: u8,
        sink: u8,
        back: u8,
        bis: Bis,
        subevent: u64,
        injected: Option<&[u8]>,
    ) -> Result<(), Memory> {
        let Some(event) = self.schedule(source).event(back) else {
            return Ok(());
        };
        let Some(pdu) = sent(machine, source, back, bis, subevent) else {
            return Ok(());
        };
        let octets = injected.unwrap_or(pdu);
        match answer(machine, sink, source, event, bis, subevent, octets) {
            Some(Hearing::Heard(heard)) => self.hand(source, sink, bis, event, subevent, heard),
            _ => Ok(()),
        }
    }

    /// A PDU, or octets in its place, gets this answer of a sink that is on its stream.
    fn hand(
        &mut self,
        source: u8,
        sink: u8,
        bis: Bis,
        event: u64,
        subevent: u64,
        heard: Heard,
    ) -> Result<(), Memory> {
        let place = self.place_for(Stream {
            sink,
            source,
            bis: bis.get(),
        })?;
        if let Some(ledger) = self.ledgers.get_mut(place) {
            ledger.hand(event, subevent, heard);
        }
        Ok(())
    }

    /// The PDUs of the last event will be handed to a sink, but those that are lost.
    pub(crate) fn air(
        &mut self,
        machine: &Machine,
        source: u8,
        sink: u8,
        lose: u64,
    ) -> Result<(), Memory> {
        let numbers = *self.numbers(source);
        let Some(event) = self.schedule(source).event(0) else {
            return Ok(());
        };
        let mut position = event
            .saturating_mul(numbers.num_bis)
            .saturating_mul(numbers.nse);
        'streams: for index in 1..32u8 {
            if u64::from(index) > numbers.num_bis {
                break 'streams;
            }
            if let Some(bis) = Bis::new(index) {
                self.air_stream(machine, source, sink, lose, event, position, bis)?;
            }
            position = position.saturating_add(numbers.nse);
        }
        Ok(())
    }

    /// The PDUs of a stream in the last event will be handed to a sink, of which the first is this one of all.
    fn air_stream(
        &mut self,
        machine: &Machine,
        source: u8,
        sink: u8,
        lose: u64,
        event: u64,
        first: u64,
        bis: Bis,
    ) -> Result<(), Memory> {
        let schedule = *self.schedule(source);
        let mut kept = 0;
        'subevents: for subevent in 0..32u64 {
            if subevent >= schedule.numbers.nse {
                break 'subevents;
            }
            if is_lost(lose, first.saturating_add(subevent)) {
                continue 'subevents;
            }
            let Some(pdu) = sent(machine, source, 0, bis, subevent) else {
                return Ok(());
            };
            let Some(Hearing::Heard(heard)) = answer(
                machine, sink, source, event, bis, subevent, pdu,
            ) else {
                return Ok(());
            };
            let heard = heard_behind(kept, &schedule, subevent, heard);
            if schedule.ahead(subevent) == 0 && heard == Heard::Kept {
                kept = with(kept, schedule.place(subevent));
            }
            self.hand(source, sink, bis, event, subevent, heard)?;
        }
        Ok(())
    }

    /// An event was performed.
    pub(crate) fn begin_event(&mut self, machine: &Machine, source: u8) -> Result<(), Memory> {
        let schedule = *self.schedule(source);
        let Some(event) = schedule.event(0) else {
            return Ok(());
        };
        'sinks: for sink in 0..8u8 {
            'streams: for index in 1..32u8 {
                if u64::from(index) > schedule.numbers.num_bis {
                    break 'streams;
                }
                if let Some(bis) = Bis::new(index) {
                    self.begin_stream(machine, source, sink, bis, event, schedule.numbers.nse)?;
                }
            }
        }
        Ok(())
    }

    /// An event of a stream was performed, with so many PDUs, whether a sink is on the stream or not.
    fn begin_stream(
        &mut self,
        machine: &Machine,
        source: u8,
        sink: u8,
        bis: Bis,
        event: u64,
        count: u64,
    ) -> Result<(), Memory> {
        let stream = Stream {
            sink,
            source,
            bis: bis.get(),
        };
        let Some(pdu) = sent(machine, source, 0, bis, 0) else {
            return Ok(());
        };
        let is_on = matches!(
            answer(machine, sink, source, event, bis, 0, pdu),
            Some(Hearing::Heard(_))
        );
        let place = if is_on {
            self.place_for(stream)?
        } else {
            match self.place_of(stream) {
                Some(place) => place,
                None => return Ok(()),
            }
        };
        if let Some(ledger) = self.ledgers.get_mut(place) {
            ledger.begin_event(event, count, is_on);
        }
        Ok(())
    }
}

/// What the answer to a PDU is behind others of its event, of whose own payloads those at these places are kept.
fn heard_behind(kept: u32, schedule: &Schedule, subevent: u64, heard: Heard) -> Heard {
    if schedule.ahead(subevent) == 0
        && heard == Heard::Kept
        && has(kept, schedule.place(subevent))
    {
        Heard::Repeat
    } else {
        heard
    }
}

/// Whether the PDU of this number among all is lost, where of each `lose` PDUs the last one is.
fn is_lost(lose: u64, number: u64) -> bool {
    if lose == 0 {
        return false;
    }
    number % lose == lose - 1
}
