//! What a scenario brings that is written in version 2.
ghost use Rattle.std.specs.Prelude.{List};
ghost use Rattle.unit_outlets.specs.Account.{Account};
ghost use Rattle.scenario_laws.specs.Versions.{MigrationLaw};

use crate::{one_transcript, some_airs_meet};
use announcement_train::an_announcement_is_read;
use delegator_history::a_source_has_one_train;
use scenario_text::a_line_says_one_step;

/// The migration law of the scenario language, which is this project's own: for a text in which no `train` step prints
/// `BadGroup 11`, and whose transcript has no refusal or a refusal other than BadLine, `BadGroup 11` and TimeOrder, the text
/// in version 2 has the same transcript and the same end, and hands the boxes the same units. The group of a train that is
/// announced passed the group check of its own scenario (Core 5.2, volume 6 part B, section 4.4.6), so that nothing is asked of
/// `announce`.
pub fn migration_law()
    ensures { (starts : List Account) → MigrationLaw starts }
{
    a_line_says_one_step();
    one_transcript();
    some_airs_meet();
    a_source_has_one_train();
    an_announcement_is_read();
}
