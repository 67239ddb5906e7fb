use bass_operations::{AddSource, ModifySource};
use bcast_base::{Bis, BisSet, Octets};

/// A step of a scenario: a variant a line. Sinks are 0 to 7, links 0 to 3, sources 0 and 1. Configurations, capabilities and
/// metadata are LTV lists.
#[rattlefmt::skip]
#[derive(Drop)]
pub enum Step {
    /// The version of the scenario, 1 or 2.
    Scenario { version: u8 },
    /// What the source sends: framing 0 unframed or 1 framed, origin and delay in µs, then the numbers of the
    /// BIGInfo (Core 5.2, volume 6 part B, section 4.4.6.11).
    Group { framing: u8, origin: u64, delay: u32, iso: u16, sdu: u32, max_sdu: u16, max_pdu: u8,
        num_bis: u8, bn: u8, nse: u8, irc: u8, pto: u8, sub: u32, spacing: u32, phy: u8 },
    /// Who the source is: address type 0 public or 1 random, advertising set, and octets in the order in which they are sent.
    Ident { address_type: u8, address: [u8; 6], sid: u8, broadcast_id: [u8; 3] },
    /// A subgroup of the source, with its codec and the configuration of that codec.
    Subgroup { codec: [u8; 5], config: Octets },
    /// The metadata of the last subgroup.
    Meta { metadata: Octets },
    /// A stream of the last subgroup, with its own configuration.
    Bis { bis: Bis, config: Octets },
    /// The source is encrypted, with this GIV and this GSKD.
    Cipher { giv: [u8; 8], gskd: [u8; 16] },
    /// Starts the source with this first event.
    Start { first: u64 },
    /// A new sink that takes so many streams and has so many receive states, with an ATT_MTU in octets or none.
    Sink { sink: u8, streams: u8, slots: u8, mtu: Option<u16> },
    /// Adds a PAC record to a sink.
    Pac { sink: u8, codec: [u8; 5], caps: Octets, metadata: Octets },
    /// The locations of a sink.
    Locate { sink: u8, bits: u32 },
    /// The audio contexts of a sink, as one that takes audio and as one that sends it.
    Context { sink: u8, sink_bits: u16, source_bits: u16 },
    /// Puts a sink on the group, on these streams.
    Tuned { sink: u8, which: BisSet },
    /// Gives the source a unit of a stream, with a time in µs or none.
    Unit { bis: Bis, time: Option<u64>, octets: Octets },
    /// Performs the next event.
    Event,
    /// Hands a sink a PDU of the event that came `back` before the last.
    Hear { sink: u8, back: u8, bis: Bis, subevent: u8 },
    /// Hands a sink all PDUs of the last event but the lost ones: none where `lose` is 0, else of each `lose` PDUs the last.
    Air { sink: u8, lose: u8 },
    /// Hands a sink other octets in the place of a PDU.
    Inject { sink: u8, back: u8, bis: Bis, subevent: u8, octets: Octets },
    /// Shows a PDU of the event that came `back` before the last.
    Sniff { back: u8, bis: Bis, subevent: u8 },
    /// Hands a sink the announcement of the source.
    Announce { sink: u8 },
    /// Hands a sink an announcement with these octets at this time in µs.
    Train { sink: u8, time: u64, ext: Octets, adv: Octets, acad: Octets },
    /// Puts these octets at the end of the writes that wait.
    Write { sink: u8, octets: Octets },
    /// Puts an Add Source at the end of the writes that wait.
    Add { sink: u8, op: AddSource },
    /// Puts a Modify Source at the end of the writes that wait.
    Modify { sink: u8, op: ModifySource },
    /// Puts a Remove Source at the end of the writes that wait.
    Remove { sink: u8, source_id: u8 },
    /// Puts a Set Broadcast_Code at the end of the writes that wait.
    Code { sink: u8, source_id: u8, code: [u8; 16] },
    /// Serves the first write that waits.
    Serve { sink: u8 },
    /// Delivers the first notification that waits.
    Tell { sink: u8 },
    /// Serves the read that waits.
    Read { sink: u8 },
    /// Serves all writes, then delivers all notifications, then serves all reads.
    Drain { sink: u8 },
    /// Shows the receive states of a sink, and the views of its first assistant.
    Show { sink: u8 },
    /// A sink loses its train.
    Lose { sink: u8 },
    /// Ends a sink.
    Drop { sink: u8 },
    /// Ends the source with a control PDU that has this reason.
    Terminate { reason: u8 },
    /// Hands a sink the octets of a control PDU.
    Control { sink: u8, octets: Octets },
    /// Delivers a notification of this slot that the sink didn't send.
    Forge { sink: u8, slot: u8, octets: Octets },
    /// Stops the source.
    Stop,
    /// Ends the scenario.
    End,
    /// Joins an assistant to a sink, on this link.
    Assist { sink: u8, link: u8 },
    /// Parts an assistant from a sink.
    Apart { sink: u8, link: u8 },
    /// As `Write`, on this link; the five steps below are as `Serve`, `Tell`, `Read`, `Drain` and `Show`.
    AWrite { sink: u8, link: u8, octets: Octets },
    AServe { sink: u8, link: u8 },
    ATell { sink: u8, link: u8 },
    ARead { sink: u8, link: u8 },
    ADrain { sink: u8, link: u8 },
    AShow { sink: u8, link: u8 },
    /// Chooses the source that later lines mean.
    Source { source: u8 },
    /// A sink hands the valid units of its stream `bis` on to stream `to` of source 1.
    Relay { sink: u8, bis: Bis, to: Bis },
}
