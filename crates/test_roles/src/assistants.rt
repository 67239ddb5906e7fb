use assistant_machine::{AssistApart, AssistJoined, NoticeFault, NoticeTaken};
use receive_state::StateFault;

/// A state of Source_ID 7 with no subgroup: Source_ID, address type and address, SID, Broadcast_ID, PA_Sync_State,
/// BIG_Encryption, Num_Subgroups.
const STATE: [u8; 15] = [7, 0, 1, 2, 3, 4, 5, 6, 3, 0x0a, 0x0b, 0x0c, 2, 0, 0];

/// Whether a notice of slot 1 gives its view.
fn keeps_its_view(assistant: &mut AssistJoined) -> bool {
    if assistant.notice(1, &STATE) != Ok(NoticeTaken::View) {
        return false;
    }
    match assistant.view(1) {
        Some(state) => state.source_id == 7,
        None => false,
    }
}

/// Whether a notice that the MTU may have cut asks for a read, of which an answer is no state.
fn reads_what_was_cut(assistant: &mut AssistJoined) -> bool {
    assistant.set_mtu(23);
    assistant.notice(0, &[0; 20]) == Ok(NoticeTaken::ReadWaits)
        && assistant.next_read() == Some(0)
        && assistant.answer_read(0, &[0; 2])
            == Err(NoticeFault::BadNotice(StateFault::Short { place: 2 }))
}

/// Whether an assistant that leaves joins anew with no view.
fn joins_anew(assistant: AssistJoined) -> bool {
    match assistant.leave().join(2) {
        Ok(again) => again.view(1).is_none(),
        Err(_) => false,
    }
}

#[test]
fn an_assistant_keeps_views_until_it_leaves(rt: HostRuntime) {
    let Ok(mut assistant) = AssistApart::new(rt.alloc()).join(2) else {
        return assert!(rt; false);
    };
    assert!(rt; keeps_its_view(&mut assistant) && reads_what_was_cut(&mut assistant));
    assert!(rt; joins_anew(assistant));
}
