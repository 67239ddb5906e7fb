//! The phases of the sources, and which order of lines a step breaks.
use scenario_text::Step;

/// How far a source has come.
#[derive(Clone, Copy, PartialEq, Eq)]
pub enum Phase {
    Absent,
    Described,
    Sending,
    Stopped,
}

/// What the lines of a source said, as far as the order of lines asks for it.
#[derive(Clone, Copy)]
pub struct Source {
    pub phase: Phase,
    pub is_framed: bool,
    pub has_ident: bool,
    pub has_cipher: bool,
    pub has_subgroup: bool,
    /// Whether the last subgroup has no stream.
    pub is_bare: bool,
    /// Of `ident`, else 0.
    pub address_type: u8,
    pub sid: u8,
}

/// A source of which no line was said.
pub const ABSENT: Source = Source {
    phase: Phase::Absent,
    is_framed: false,
    has_ident: false,
    has_cipher: false,
    has_subgroup: false,
    is_bare: false,
    address_type: 0,
    sid: 0,
};

impl Source {
    /// Notes a step of this source that was made.
    pub fn made(&mut self, step: &Step) {
        match step {
            Step::Group { framing, .. } => {
                self.phase = Phase::Described;
                self.is_framed = *framing == 1;
            }
            Step::Ident {
                address_type,
                sid,
                ..
            } => {
                self.has_ident = true;
                self.address_type = *address_type;
                self.sid = *sid;
            }
            Step::Cipher { .. } => self.has_cipher = true,
            Step::Subgroup { .. } => {
                self.has_subgroup = true;
                self.is_bare = true;
            }
            Step::Bis { .. } => self.is_bare = false,
            Step::Start { .. } => self.phase = Phase::Sending,
            Step::Stop | Step::Terminate { .. } => self.phase = Phase::Stopped,
            _ => {}
        }
    }

    /// Which order a step that describes the source breaks.
    fn describing(&self, step: &Step) -> &'static str {
        match self.phase {
            Phase::Absent => "`group` comes first: the chosen source has none yet",
            Phase::Sending | Phase::Stopped =>
                "it stands before `start`: the chosen source was started, and is as it was then",
            Phase::Described => match step {
                Step::Ident { .. } => "the chosen source has an `ident`, and has one alone",
                Step::Cipher { .. } => "the chosen source has a `cipher`, and has one alone",
                Step::Meta { .. } | Step::Bis { .. } =>
                    "`subgroup` comes before it: the chosen source has none yet",
                _ => "the last `subgroup` of the chosen source has no `bis` yet",
            },
        }
    }

    /// Which order a step of a source that sends breaks.
    fn sending(&self) -> &'static str {
        match self.phase {
            Phase::Absent | Phase::Described =>
                "`start` comes before it: the chosen source is not started",
            Phase::Stopped => "the chosen source has stopped, and starts once",
            Phase::Sending => self.encrypted(),
        }
    }

    /// Which order a step that shows or hears what was sent breaks.
    fn heard(&self) -> &'static str {
        match self.phase {
            Phase::Absent | Phase::Described =>
                "`start` comes before it: the chosen source is not started",
            Phase::Sending | Phase::Stopped => self.encrypted(),
        }
    }

    fn encrypted(&self) -> &'static str {
        "the chosen source has a `cipher`, so no PDU of it is sent or heard"
    }
}

/// Which order `relay` breaks.
fn relaying(first: &Source, second: &Source) -> &'static str {
    if first.phase == Phase::Stopped || second.phase == Phase::Stopped {
        return "a source has stopped: `relay` stands before that";
    }
    if first.phase != Phase::Sending {
        return "both sources are started before `relay`: source 0 is not";
    }
    if second.phase != Phase::Sending {
        return "both sources are started before `relay`: source 1 is not";
    }
    if first.has_cipher || second.has_cipher {
        return "a source has a `cipher`, so nothing of it is relayed";
    }
    "source 1 is unframed, and a relayed unit has its time"
}

/// Which order a step breaks, where `is_begun` tells whether `scenario` was made.
pub fn order_of(
    step: &Step,
    is_begun: bool,
    chosen: &Source,
    first: &Source,
    second: &Source,
) -> &'static str {
    if !is_begun {
        return "the first step is `scenario 1` or `scenario 2`";
    }
    match step {
        Step::Scenario { .. } => "`scenario` is the first step, and stands once",
        Step::Group { .. } => "the chosen source has a `group`, and has one alone",
        Step::Ident { .. }
        | Step::Cipher { .. }
        | Step::Subgroup { .. }
        | Step::Meta { .. }
        | Step::Bis { .. }
        | Step::Start { .. } => chosen.describing(step),
        Step::Hear { .. } | Step::Air { .. } | Step::Inject { .. } | Step::Sniff { .. } => {
            chosen.heard()
        }
        Step::Relay { .. } => relaying(first, second),
        _ => chosen.sending(),
    }
}
