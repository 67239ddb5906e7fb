ghost use Rattle.std.specs.Prelude.{◌≡◌, ◌<◌, length, map};
ghost use Rattle.unit_outlets.specs.Account.{Account};
ghost use Rattle.unit_outlets.specs.Took.{OthersSame, Took, TookAt};

use crate::fault::OutletFault;

/// A box for the valid units of a sink. It sums them up, and some boxes keep the newest.
pub trait Outlet: Drop {
    /// Its sums, its count of faults, and where it tells them the units that it keeps.
    ghost account: { Self → Account };

    /// Puts a unit into the box. `Failed` is counted, and comes in each case where a sum would pass 2^64 - 1; from a sound box it comes
    /// in no other. A refusal leaves the sums and the units kept.
    fn take(&mut self, octets: &[u8]) -> Result<(), OutletFault>
        ensures { Took octets.now (account self.old) (account self.new) result };

    /// How many units it took.
    fn units(&self) -> u64
        ensures { result ≡ (account self.now).units };

    /// How many octets these units had in sum.
    fn octets(&self) -> u64
        ensures { result ≡ (account self.now).octets };
}

/// Puts a unit into the box at a place of the list, from 0. Each other box is the same as before.
#[tactic(auto, using(crate::proofs::Places::took_at, crate::proofs::Places::others_same))]
pub fn take_at(
    outlets: &mut Vec<Box<dyn Outlet>>,
    place: usize,
    octets: &[u8],
) -> Result<(), OutletFault>
    requires { place < length outlets.old.items }
    ensures took { TookAt place octets.now
        (map account outlets.old.items) (map account outlets.new.items) result }
    ensures others { OthersSame place outlets.old.items outlets.new.items }
{
    take(&mut outlets[place], octets)
}

/// Puts a unit into a box.
fn take(outlet: &mut Box<dyn Outlet>, octets: &[u8]) -> Result<(), OutletFault>
    ensures { Took octets.now (account outlet.old) (account outlet.new) result }
{
    outlet.take(octets)
}
