//! The line of each step, as its first word and the values at its places.
ghost use Rattle.std.specs.Prelude.{◌∷◌, []};
ghost use Rattle.scenario_words.specs.Given.{placed};
ghost use Rattle.scenario_words.specs.declared.value.Value.TheVariants.{Link as ALink, Number as ANumber, Sink as ASink};
ghost use Rattle.scenario_text.specs.declared.step.Step.TheVariants.{Add, Modify};
ghost use Rattle.scenario_text.specs.Whose.{IsOfClient, IsOfSink};
ghost use Rattle.scenario_text.specs.Written.{placed_step};

use crate::limits::{BEFORE_ADD, BEFORE_MODIFY, MOST_OF_OPERATION};
use crate::step::Step;
use crate::taker::LineTaker;
use bass_operations::{AddSource, ModifySource};
use scenario_words::Value::{
    Exactly, FourOctets, Framing, Link, List, Number, Octets, Perhaps, Sink, Stream, Streams, Time,
    TwoOctets, Wishes,
};

/// The line of an Add Source.
fn give_add<T: LineTaker>(taker: &T, sink: u8, op: &AddSource) -> T::Made
    ensures { T.makes taker.now (placed_step (Add sink op.now)) result }
{
    taker.take(
        b"add",
        &[
            Sink(sink),
            Number(op.address_type as u64, 0, 1),
            Exactly(&op.address, 6),
            Number(op.sid as u64, 0, 15),
            Exactly(&op.broadcast_id, 3),
            Number(op.pa_sync as u64, 0, 2),
            Number(op.pa_interval as u64, 0, 65_535),
            Wishes(&op.wishes, MOST_OF_OPERATION - BEFORE_ADD),
        ],
    )
}

/// The line of a Modify Source.
fn give_modify<T: LineTaker>(taker: &T, sink: u8, op: &ModifySource) -> T::Made
    ensures { T.makes taker.now (placed_step (Modify sink op.now)) result }
{
    taker.take(
        b"modify",
        &[
            Sink(sink),
            Number(op.source_id as u64, 0, 255),
            Number(op.pa_sync as u64, 0, 2),
            Number(op.pa_interval as u64, 0, 65_535),
            Wishes(&op.wishes, MOST_OF_OPERATION - BEFORE_MODIFY),
        ],
    )
}

/// A line that has a sink alone.
fn give_sink<T: LineTaker>(taker: &T, word: &[u8], sink: u8) -> T::Made
    ensures { T.makes taker.now (placed word.now (ASink sink ∷ [])) result }
{
    taker.take(word, &[Sink(sink)])
}

/// A line that has a sink and a link of it.
fn give_link<T: LineTaker>(taker: &T, word: &[u8], sink: u8, link: u8) -> T::Made
    ensures { T.makes taker.now (placed word.now (ASink sink ∷ ALink link ∷ [])) result }
{
    taker.take(word, &[Sink(sink), Link(link)])
}

/// A line that has a number alone, which has these bounds.
fn give_number<T: LineTaker>(taker: &T, word: &[u8], number: u64, least: u64, most: u64) -> T::Made
    ensures { T.makes taker.now (placed word.now (ANumber number least most ∷ [])) result }
{
    taker.take(word, &[Number(number, least, most)])
}

impl Step {
    /// Hands on the first word of the line of the step, and the values at its places, whether they have words there or not.
    pub fn give_line<T: LineTaker>(&self, taker: &T) -> T::Made
        ensures { T.makes taker.now (placed_step self.now) result }
    {
        match *self {
            Step::Scenario { version } => give_number(taker, b"scenario", version as u64, 1, 2),
            Step::Group {
                framing,
                origin,
                delay,
                iso,
                sdu,
                max_sdu,
                max_pdu,
                num_bis,
                bn,
                nse,
                irc,
                pto,
                sub,
                spacing,
                phy,
            } => taker.take(
                b"group",
                &[
                    Framing(framing),
                    Number(origin, 3_000, 1 << 48),
                    Number(delay as u64, 0, 16_777_215),
                    Number(iso as u64, 0, 4_095),
                    Number(sdu as u64, 0, 1_048_575),
                    Number(max_sdu as u64, 0, 4_095),
                    Number(max_pdu as u64, 0, 255),
                    Number(num_bis as u64, 0, 31),
                    Number(bn as u64, 0, 7),
                    Number(nse as u64, 0, 31),
                    Number(irc as u64, 0, 15),
                    Number(pto as u64, 0, 15),
                    Number(sub as u64, 0, 1_048_575),
                    Number(spacing as u64, 0, 1_048_575),
                    Number(phy as u64, 0, 7),
                ],
            ),
            Step::Ident {
                address_type,
                ref address,
                sid,
                ref broadcast_id,
            } => taker.take(
                b"ident",
                &[
                    Number(address_type as u64, 0, 1),
                    Exactly(address, 6),
                    Number(sid as u64, 0, 15),
                    Exactly(broadcast_id, 3),
                ],
            ),
            Step::Subgroup {
                ref codec,
                ref config,
            } => taker.take(b"subgroup", &[Exactly(codec, 5), List(config, 255)]),
            Step::Meta { ref metadata } => taker.take(b"meta", &[List(metadata, 255)]),
            Step::Bis { bis, ref config } => taker.take(b"bis", &[Stream(bis), List(config, 255)]),
            Step::Cipher { ref giv, ref gskd } => taker.take(
                b"cipher",
                &[Exactly(giv, 8), Exactly(gskd, 16)],
            ),
            Step::Start { first } => give_number(taker, b"start", first, 0, 549_755_813_887),
            Step::Unit {
                bis,
                time,
                ref octets,
            } => taker.take(
                b"unit",
                &[Stream(bis), Time(time, 1 << 62), Octets(octets, 4_095)],
            ),
            Step::Event => taker.take(b"event", &[]),
            Step::Sniff {
                back,
                bis,
                subevent,
            } => taker.take(
                b"sniff",
                &[
                    Number(back as u64, 0, 31),
                    Stream(bis),
                    Number(subevent as u64, 0, 30),
                ],
            ),
            Step::Terminate { reason } => give_number(taker, b"terminate", reason as u64, 0, 255),
            Step::Stop => taker.take(b"stop", &[]),
            Step::End => taker.take(b"end", &[]),
            Step::Source { source } => give_number(taker, b"source", source as u64, 0, 1),
            Step::Relay { sink, bis, to } => taker.take(
                b"relay",
                &[Sink(sink), Stream(bis), Stream(to)],
            ),
            Step::Sink { .. }
            | Step::Pac { .. }
            | Step::Locate { .. }
            | Step::Context { .. }
            | Step::Tuned { .. }
            | Step::Hear { .. }
            | Step::Air { .. }
            | Step::Inject { .. }
            | Step::Announce { .. }
            | Step::Train { .. }
            | Step::Show { .. }
            | Step::Lose { .. }
            | Step::Drop { .. }
            | Step::Control { .. }
            | Step::Forge { .. } => self.give_line_of_sink(taker),
            Step::Write { .. }
            | Step::Add { .. }
            | Step::Modify { .. }
            | Step::Remove { .. }
            | Step::Code { .. }
            | Step::Serve { .. }
            | Step::Tell { .. }
            | Step::Read { .. }
            | Step::Drain { .. }
            | Step::Assist { .. }
            | Step::Apart { .. }
            | Step::AWrite { .. }
            | Step::AServe { .. }
            | Step::ATell { .. }
            | Step::ARead { .. }
            | Step::ADrain { .. }
            | Step::AShow { .. } => self.give_line_of_client(taker),
        }
    }

    /// The same for a line of a sink, or of what it hears.
    fn give_line_of_sink<T: LineTaker>(&self, taker: &T) -> T::Made
        requires { IsOfSink self.now }
        ensures { T.makes taker.now (placed_step self.now) result }
    {
        match *self {
            Step::Sink {
                sink,
                streams,
                slots,
                mtu,
            } => taker.take(
                b"sink",
                &[
                    Sink(sink),
                    Number(streams as u64, 1, 31),
                    Number(slots as u64, 1, 8),
                    Perhaps(mtu, 23, 517),
                ],
            ),
            Step::Pac {
                sink,
                ref codec,
                ref caps,
                ref metadata,
            } => taker.take(
                b"pac",
                &[
                    Sink(sink),
                    Exactly(codec, 5),
                    List(caps, 255),
                    List(metadata, 255),
                ],
            ),
            Step::Locate { sink, bits } => taker.take(b"locate", &[Sink(sink), FourOctets(bits)]),
            Step::Context {
                sink,
                sink_bits,
                source_bits,
            } => taker.take(
                b"context",
                &[Sink(sink), TwoOctets(sink_bits), TwoOctets(source_bits)],
            ),
            Step::Tuned { sink, which } => taker.take(b"tuned", &[Sink(sink), Streams(which)]),
            Step::Hear {
                sink,
                back,
                bis,
                subevent,
            } => taker.take(
                b"hear",
                &[
                    Sink(sink),
                    Number(back as u64, 0, 31),
                    Stream(bis),
                    Number(subevent as u64, 0, 30),
                ],
            ),
            Step::Air { sink, lose } => taker.take(
                b"air",
                &[Sink(sink), Number(lose as u64, 0, 255)],
            ),
            Step::Inject {
                sink,
                back,
                bis,
                subevent,
                ref octets,
            } => taker.take(
                b"inject",
                &[
                    Sink(sink),
                    Number(back as u64, 0, 31),
                    Stream(bis),
                    Number(subevent as u64, 0, 30),
                    Octets(octets, 300),
                ],
            ),
            Step::Announce { sink } => give_sink(taker, b"announce", sink),
            Step::Train {
                sink,
                time,
                ref ext,
                ref adv,
                ref acad,
            } => taker.take(
                b"train",
                &[
                    Sink(sink),
                    Number(time, 0, 1 << 48),
                    Octets(ext, 255),
                    Octets(adv, 1_650),
                    Octets(acad, 255),
                ],
            ),
            Step::Show { sink } => give_sink(taker, b"show", sink),
            Step::Lose { sink } => give_sink(taker, b"lose", sink),
            Step::Drop { sink } => give_sink(taker, b"drop", sink),
            Step::Control { sink, ref octets } => taker.take(
                b"control",
                &[Sink(sink), Octets(octets, 300)],
            ),
            Step::Forge {
                sink,
                slot,
                ref octets,
            } => taker.take(
                b"forge",
                &[
                    Sink(sink),
                    Number(slot as u64, 0, 255),
                    Octets(octets, 1_024),
                ],
            ),
            _ => unreachable!(),
        }
    }

    /// The same for a line of the clients of a sink.
    fn give_line_of_client<T: LineTaker>(&self, taker: &T) -> T::Made
        requires { IsOfClient self.now }
        ensures { T.makes taker.now (placed_step self.now) result }
    {
        match *self {
            Step::Write { sink, ref octets } => taker.take(
                b"write",
                &[Sink(sink), Octets(octets, 512)],
            ),
            Step::Add { sink, ref op } => give_add(taker, sink, op),
            Step::Modify { sink, ref op } => give_modify(taker, sink, op),
            Step::Remove { sink, source_id } => taker.take(
                b"remove",
                &[Sink(sink), Number(source_id as u64, 0, 255)],
            ),
            Step::Code {
                sink,
                source_id,
                ref code,
            } => taker.take(
                b"code",
                &[
                    Sink(sink),
                    Number(source_id as u64, 0, 255),
                    Exactly(code, 16),
                ],
            ),
            Step::Serve { sink } => give_sink(taker, b"serve", sink),
            Step::Tell { sink } => give_sink(taker, b"tell", sink),
            Step::Read { sink } => give_sink(taker, b"read", sink),
            Step::Drain { sink } => give_sink(taker, b"drain", sink),
            Step::Assist { sink, link } => give_link(taker, b"assist", sink, link),
            Step::Apart { sink, link } => taker.take(
                b"apart",
                &[Sink(sink), Number(link as u64, 1, 3)],
            ),
            Step::AWrite {
                sink,
                link,
                ref octets,
            } => taker.take(b"awrite", &[Sink(sink), Link(link), Octets(octets, 512)]),
            Step::AServe { sink, link } => give_link(taker, b"aserve", sink, link),
            Step::ATell { sink, link } => give_link(taker, b"atell", sink, link),
            Step::ARead { sink, link } => give_link(taker, b"aread", sink, link),
            Step::ADrain { sink, link } => give_link(taker, b"adrain", sink, link),
            Step::AShow { sink, link } => give_link(taker, b"ashow", sink, link),
            _ => unreachable!(),
        }
    }
}
