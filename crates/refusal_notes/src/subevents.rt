use bcast_base::{Memory, Octets};
use note_parts::Numbers;
use scenario_text::Step;
use scenario_words::{Word, put_words};

/// Puts the subevent that a step names, and how many the group with these numbers has.
pub fn put_subevent(rows: &mut Octets, step: &Step, group: &Numbers) -> Result<(), Memory> {
    let Some(subevent) = subevent_of(step) else {
        return Ok(());
    };
    put_words(rows, b"  # SUBEVENT", &[Word::Number(u64::from(subevent))])?;
    put_words(rows, b"; NSE is", &[Word::Number(group.nse)])?;
    put_words(
        rows,
        b", counted from 0 to",
        &[Word::Number(group.nse.saturating_sub(1))],
    )?;
    rows.push(b'\n')
}

/// The subevent that a step names.
fn subevent_of(step: &Step) -> Option<u8> {
    match step {
        Step::Hear { subevent, .. }
        | Step::Inject { subevent, .. }
        | Step::Sniff { subevent, .. } => Some(*subevent),
        _ => None,
    }
}
