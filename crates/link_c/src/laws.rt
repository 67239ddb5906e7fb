//! What a program in C may rely on over all calls.
ghost use Rattle.std.specs.Prelude.{ℕ, ◌≡◌, ◌<◌, false, Option, Some, slice_get};
ghost use Rattle.assistant_machine.specs.Links.{AreFounded, AreReadBack, NoneWaits, is_forged, value_of};
ghost use Rattle.link_c.specs.Agreement.{Acts, calls_of, language, reads_in, views_in};
ghost use Rattle.link_c.specs.Links.{LinkStands};
ghost use Rattle.link_c.specs.declared.handle.VmLink.{VmLink};

use assistant_machine::where_nothing_waits_both_agree;
use receive_state::ReceiveState;

/// The agreement law in C's words: where no notice was forged, a slot for which neither a notice nor a read waits has its state as
/// what the handle has of it, whatever was cut, read or joined anew, and in whatever order.
pub fn a_link_at_rest_has_the_states()
    ensures { (mtu : Option ℕ) (slots slot : ℕ) (acts : Acts) (link : VmLink) → AreFounded acts → AreReadBack (language mtu) acts
        → is_forged acts ≡ false → slot < slots → LinkStands slots (calls_of mtu acts) link → NoneWaits slot acts
        → slice_get (reads_in link) slot ≡ Some false → slice_get (views_in link) slot ≡ Some (value_of (language mtu) slot acts) }
{
    where_nothing_waits_both_agree::<Option<ReceiveState>>();
}
