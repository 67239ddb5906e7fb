ghost use Rattle.std.specs.Prelude.{◌≡◌, ◌<◌, ℕ, List, Option, Some, length, option_copied, slice_get};

/// What the subevents of an event of a stream bring to a sink: the PDU of each, by rising subevent from 0, or none where it is lost.
pub trait StreamEvent {
    /// The PDU of each subevent, and none where it is lost.
    ghost pdus: { Self → List (Option (List ℕ)) };

    /// How many subevents there are.
    fn count(&self) -> u8
        ensures { result ≡ length (pdus self.now) };

    /// The PDU of a subevent, from 0; none where it is lost.
    fn pdu(&self, subevent: u8) -> Option<&[u8]>
        requires { subevent < length (pdus self.now) }
        ensures { slice_get (pdus self.now) subevent ≡ Some (option_copied result) };
}
