//! The agreement of a client with a server, whatever the values are.
ghost use Rattle.std.specs.Prelude.{ℕ, ◌≡◌, ◌<◌, false, List};
ghost use Rattle.assistant_machine.specs.Links.{Act, Agrees, AreFounded, AreReadBack, Language, drained, is_forged, value_of, view_of};

/// The agreement law: on a link on which no notice was forged since it was joined, a slot for which neither a notice nor a
/// read waits has its value as the client's view, whatever was cut, read or joined anew, and in whatever order.
pub fn where_nothing_waits_both_agree<V>()
    ensures { (language : Language V) (slot : ℕ) (acts : List (Act V)) → AreFounded acts → AreReadBack language acts
        → is_forged acts ≡ false → Agrees language slot acts }
{}

/// The views that follow when all waiting notices are delivered in order and then all waiting reads are served are the
/// values of the slots.
pub fn a_drained_link_agrees<V>()
    ensures { (language : Language V) (slots slot : ℕ) (acts : List (Act V)) → slot < slots → AreFounded acts → AreReadBack language acts
        → is_forged acts ≡ false → view_of language slot (drained language slots acts) ≡ value_of language slot acts }
{}
