//! What a sink hears of an event of a stream.
ghost use Rattle.std.specs.Prelude.{◌≡◌, ◌≤◌, length};

use radio_schedule::StreamEvent;
use source_machine::SentStream;

/// The PDUs that the subevents of a stream sent in an event, of which some are lost.
#[derive(Drop)]
pub(crate) struct HeardEvent<'a> {
    sent: &'a SentStream<'a>,
    lost: &'a [bool; 31],
    ghost few: { length sent.now ≤ 31 },
}

impl<'a> HeardEvent<'a> {
    /// Those PDUs but the lost ones, which are told by subevent from 0.
    #[inline(always)]
    pub(crate) fn new(sent: &'a SentStream<'a>, lost: &'a [bool; 31]) -> HeardEvent<'a>
        ensures { (result.sent.now ≡ sent.now) × (result.lost.now ≡ lost.now) }
    {
        let _count = sent.count();
        HeardEvent { sent, lost }
    }
}

impl<'a> StreamEvent for HeardEvent<'a> {
    ghost use Rattle.radio_schedule.specs.Losing.{unlost};

    ghost pdus = { λ heard. unlost heard.sent.now heard.lost.now };

    #[inline(always)]
    fn count(&self) -> u8 {
        self.sent.count()
    }

    #[inline(always)]
    fn pdu(&self, subevent: u8) -> Option<&[u8]> {
        if self.lost[usize::from(subevent)] {
            return None;
        }
        Some(self.sent.pdu(subevent))
    }
}
