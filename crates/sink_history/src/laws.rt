//! Scenarios worked by hand.
ghost use Rattle.sink_history.specs.History.{World};
ghost use Rattle.sink_history.specs.Rows.{PartedRefuses, Prints, an_add, its_value, known_source};
ghost use Rattle.sink_history.specs.Rows.{known_source_lines, parted, parted_lines, second_assistant, second_assistant_lines};
ghost use Rattle.sink_history.specs.TrainRows.{ForgedTrains, a_world, coded_world, encrypted, encrypted_lines};
ghost use Rattle.sink_history.specs.TrainRows.{train_and_loss, train_and_loss_lines, whole_life, whole_life_lines};
ghost use Rattle.sink_history.specs.WriteRows.{RefusedWrites, a_longer_add, forged, forged_lines, longer_value, read_lines_of, read_of};

/// Three scenarios worked by hand, whatever lies outside of the sinks: a source that is added twice, a second assistant, and
/// an assistant that parts and joins again.
pub fn worked_rows()
    ensures known_source { (world : World) → Prints world known_source known_source_lines }
    ensures second_assistant { (world : World) → Prints world second_assistant second_assistant_lines }
    ensures parted { (world : World) → Prints world parted parted_lines }
    ensures refused { (world : World) → PartedRefuses world }
{}

/// Scenarios with trains worked by hand: a sink that is synchronized to its BIG by what a source announces and loses the train, a
/// whole life but for the air, an encrypted group, and eight trains that are given by their octets.
pub fn worked_trains()
    ensures train_and_loss { Prints a_world train_and_loss train_and_loss_lines }
    ensures whole_life { Prints a_world whole_life whole_life_lines }
    ensures encrypted { Prints coded_world encrypted encrypted_lines }
    ensures forged { ForgedTrains }
{}

/// Scenarios with writes worked by hand: seven that a new sink refuses, two on a link with an MTU, where a value that may have
/// been cut is read, and notices that no sink sent.
pub fn worked_writes()
    ensures refused { (world : World) → RefusedWrites world }
    ensures read { (world : World) → Prints world (read_of an_add) (read_lines_of its_value) }
    ensures cut { (world : World) → Prints world (read_of a_longer_add) (read_lines_of longer_value) }
    ensures forged { (world : World) → Prints world forged forged_lines }
{}
