ghost use Rattle.std.specs.Prelude.{◌≡◌};
ghost use Rattle.delegator_control.specs.Groups.{has_group};
ghost use Rattle.delegator_control.specs.State.Machines.{machine};

use crate::place::Place;
use crate::scan_delegator::ScanDelegator;

impl ScanDelegator {
    /// Whether the sink is on a group, of a slot's source or of no slot. It takes no memory.
    pub fn is_on_group(&self) -> bool
        ensures { result ≡ has_group (machine self.now).snapshot.place }
    {
        match &self.place {
            Place::Idle(_) | Place::OnTrain(_) => false,
            Place::OnGroup(_) => true,
        }
    }
}
