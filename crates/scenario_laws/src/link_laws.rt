//! What the assistants of a sink come to know of it.
ghost use Rattle.scenario_laws.specs.Links.{AgreementLaw, LinksLaw};

use scenario_text::a_line_says_one_step;
use sink_history::{agreement_law as links_agree, links_law as links_stand_apart};

/// The agreement law over the lines of any text (Broadcast Audio Scan Service 1.0, section 3.2): on each link of each living sink
/// over which no notice was forged since it was joined, a slot for which neither a notice nor a read waits has its state as its
/// view, and the views that follow when all waiting notices are delivered in order and then all waiting reads are served are
/// the states.
pub fn agreement_law()
    ensures { AgreementLaw }
{
    a_line_says_one_step();
    links_agree();
}

/// The links law over the lines of any text: the same of each link but 0 whatever comes over link 0, whatever the other links do
/// and however often it parted and joined; what happens on another link changes nothing of it but through the states of the
/// slots, and a link that is joined begins anew.
pub fn links_law()
    ensures { LinksLaw }
{
    a_line_says_one_step();
    links_agree();
    links_stand_apart();
}
