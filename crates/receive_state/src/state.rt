ghost use Rattle.std.specs.Prelude.{◌≡◌, ◌↔◌, IsTrue};
ghost use Rattle.std.specs.List.{list_all};
ghost use Rattle.receive_state.specs.Layout.{HasEncoding, is_encoded, group_is_encoded};

use bcast_base::{Items, Octets, are_reserved};

/// What is known of the key of an encrypted group (BIG_Encryption).
#[derive(Drop)]
pub enum Encryption {
    /// The group is not encrypted.
    None,
    /// A Broadcast_Code is wanted.
    CodeRequired,
    Decrypting,
    /// The Broadcast_Code that did not fit.
    BadCode([u8; 16]),
}

/// What is received of one subgroup.
#[derive(Drop)]
pub struct GroupState {
    /// Bit n stands for the stream index n + 1, for n from 0 to 30; 0xFFFFFFFF is a failure to synchronise.
    pub bis_sync_state: u32,
    /// At most 255 octets where it is written.
    pub metadata: Octets,
}

/// What is received of each subgroup, at most 255 where it is written.
pub type GroupStates = Items<GroupState>;

/// A source that a server receives or is to receive (Broadcast Audio Scan Service 1.0, section 3.2).
#[derive(Drop)]
pub struct ReceiveState {
    pub source_id: u8,
    /// 0 is public or resolved, 1 is random.
    pub address_type: u8,
    pub address: [u8; 6],
    /// The advertising set, 0 to 15.
    pub sid: u8,
    pub broadcast_id: [u8; 3],
    /// 0 is not synchronised, 1 SyncInfo request, 2 synchronised, 3 failed, 4 no PAST.
    pub pa_sync_state: u8,
    pub encryption: Encryption,
    pub groups: GroupStates,
}

impl ReceiveState {
    /// Whether the state has an encoding: no field has a reserved value, there are at most 255 subgroups, and each metadata
    /// has at most 255 octets.
    pub fn fits(&self) -> bool
        ensures { IsTrue result ↔ HasEncoding self.now }
    {
        self.is_encoded()
    }

    // The same as a test of each field.
    fn is_encoded(&self) -> bool
        ensures { result ≡ is_encoded self.now }
    {
        if self.address_type > 1 || self.sid > 15 || self.pa_sync_state > 4 {
            return false;
        }
        self.groups.count() <= 255 && groups_fit(self.groups.as_slice())
    }
}

// Whether each subgroup has an encoding.
fn groups_fit(groups: &[GroupState]) -> bool
    ensures { result ≡ list_all group_is_encoded groups.now }
{
    groups.iter().all(|group| group_fits(group))
}

// Whether the bits are not reserved and the metadata has at most 255 octets.
fn group_fits(group: &GroupState) -> bool
    ensures { result ≡ group_is_encoded group.now }
{
    !are_reserved(group.bis_sync_state) && group.metadata.as_slice().len() <= 255
}
