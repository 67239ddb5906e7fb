//! Why a line is refused.
use transcript_text::Refusal;

/// The row of the language that holds where a line is refused so, for the refusals that ask for nothing else.
pub fn row_of(reason: Refusal) -> &'static str {
    match reason {
        Refusal::TextTooLong => "this line holds octet 67108865 of the text",
        Refusal::LineTooLong => "the line has more than 9000 octets without its end",
        Refusal::BadLine { .. } => "the line is none of the language",
        Refusal::AfterEnd => "a step follows `end`",
        Refusal::Order => "the step stands in the wrong phase",
        Refusal::BadGroup { .. } => "the numbers of the group don't go together",
        Refusal::BaseTooLong => "the BASE has more than 252 octets",
        Refusal::IdentTwice =>
            "the other source was started with the same address type, SID and Broadcast_ID",
        Refusal::NoSuchSink => "no sink of this number lives: its `sink` line comes before it",
        Refusal::NoSuchLink => "this link of the sink is not joined: `assist` joins it",
        Refusal::LinkTwice => "this link is joined already",
        Refusal::SinkTwice => "a sink of this number lives already",
        Refusal::NoOutlet => "no box is left: a scenario makes at most eight sinks",
        Refusal::NoSuchBis => "an index is above NUMBIS, or `bis` names one again",
        Refusal::UnitTooLong => "the unit has more than MAXSDU octets",
        Refusal::TimeOrder =>
            "a unit of an unframed group has no TIME; one of a framed group has a TIME above that of the last one of its stream",
        Refusal::RelayTaken =>
            "the sink has a relay, or the stream of source 1 has had one or was given a unit",
        Refusal::Relayed => "the stream has had a relay, and takes no unit of a line",
        Refusal::Backlog => "16 units of the stream wait",
        Refusal::NoSuchSubevent => "SUBEVENT is NSE or more",
        Refusal::NotOnAir => "fewer than BACK + 1 events were performed; for `air`, none",
        Refusal::CounterEnds => "the payload numbers of the next event would pass 2^39",
        Refusal::NothingWaiting => "no write, no notice or no read waits",
        Refusal::RecordsTooLong => "the value of the records would pass 512 octets",
        Refusal::NoEnd => "the text ends without `end`",
        Refusal::BadToml => "the document is no TOML",
        Refusal::BadDocument => "the document has not the form of a scenario",
    }
}
