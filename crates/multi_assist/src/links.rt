ghost use Rattle.std.specs.Prelude.{ℕ, ◌≡◌, ◌≢◌, ◌↔◌, ◌≤◌, ◌<◌, ◌∷◌, [], map, is_some, true};
ghost use Rattle.std.specs.Prelude.{Some, None, Ok, Err, option_map, slice_index_or, slice_set, IfOk, OnOk, OnErr};
ghost use Rattle.std.specs.Borrow.{sem};
ghost use Rattle.multi_assist.specs.Mtus.{IsMtu};
ghost use Rattle.multi_assist.specs.declared.fault.LinkFault.TheVariants.{LinkTwice as Twice};

use crate::fault::LinkFault;
use crate::place::Place;
use crate::terms::Terms;
use assistant_machine::AssistJoined;
use bcast_base::Memory;
use delegator_history::Notice;
use delegator_machine::Delegator;
use std::alloc::Global;

/// The four links of a sink, numbered from 0, all with the MTU of the sink: on each that is joined an assistant, and the
/// notices that wait for it.
#[derive(Drop)]
pub struct Links {
    terms: Terms,
    first: Place,
    second: Place,
    third: Place,
    fourth: Place,
}

impl Links {
    ghost use Rattle.multi_assist.specs.State.Gathering.{Gathers, StandsOn, StopsShort};
    ghost use Rattle.multi_assist.specs.State.Links.{LendsOn, link_at, linked, mtu_of, slots_of};
    ghost use Rattle.multi_assist.specs.State.Places.{asking, assistant_in, first_of, link_of, with_notice, without_first};
    ghost use Rattle.multi_assist.specs.State.Terms.{joining};

    /// The links of a sink with so many slots, 1 to 8, and this MTU, 23 to 517. Link 0 is joined and no other; no read of
    /// it waits.
    pub fn new(alloc: Global, slots: u8, mtu: Option<u16>) -> Result<Links, Memory>
        requires few { slots ≤ 8 }
        requires mtu { IsMtu mtu }
        ensures links { IfOk result (λ links. linked links
            ≡ Some (record { waiting = []; assistant = joining slots mtu }) ∷ None ∷ None ∷ None ∷ []) }
        ensures terms { IfOk result (λ links. (slots_of links ≡ slots) × (mtu_of links ≡ mtu)) }
    {
        let terms = Terms { alloc, slots, mtu };
        let assistant = terms.join()?;
        Ok(Links {
            terms,
            first: Place::joined(alloc, assistant),
            second: Place::empty(alloc),
            third: Place::empty(alloc),
            fourth: Place::empty(alloc),
        })
    }

    /// An assistant joins a link, 0 to 3: no write and no notice waits on it, each view is empty, and a read of every slot
    /// waits. LinkTwice comes exactly where the link is joined. A refusal changes nothing.
    pub fn assist(&mut self, link: u8) -> Result<(), LinkFault>
        requires { link ≤ 3 }
        ensures ok { OnOk result (linked self.new ≡ slice_set (linked self.old) link
            (Some (asking (slots_of self.old) (mtu_of self.old)))) }
        ensures twice { (result ≡ Err Twice) ↔ (is_some (link_at self.old link) ≡ true) }
        ensures err { OnErr result (linked self.new ≡ linked self.old) }
        ensures terms { (slots_of self.new ≡ slots_of self.old) × (mtu_of self.new ≡ mtu_of self.old) }
    {
        if self.is_joined(link) {
            return Err(LinkFault::LinkTwice);
        }
        let mut assistant = self.terms.join()?;
        assistant.ask_all();
        self.set(link, Place::joined(self.terms.alloc, assistant));
        Ok(())
    }

    /// The assistant leaves a joined link, 1 to 3: its views, and the writes, notices and reads that wait on the link, are
    /// gone. It takes no memory.
    pub fn part(&mut self, link: u8)
        requires least { 1 ≤ link }
        requires most { link ≤ 3 }
        requires joined { is_some (link_at self.old link) ≡ true }
        ensures links { linked self.new ≡ slice_set (linked self.old) link None }
        ensures terms { (slots_of self.new ≡ slots_of self.old) × (mtu_of self.new ≡ mtu_of self.old) }
    {
        self.set(link, Place::empty(self.terms.alloc));
    }

    /// Moves all notices that wait at the sink, each behind those that wait on every joined link. The sink has the number of
    /// slots and the MTU of the links.
    ///
    /// After want of memory the first of them, in order, stand on every joined link; the sink has the rest, of which the one
    /// taken last is missing.
    pub fn gather(&mut self, from: &mut Delegator) -> Result<(), Memory>
        ensures ok { OnOk result (Gathers from.old.scan from.new.scan (linked self.old) (linked self.new)) }
        ensures err { OnErr result (StopsShort from.old.scan from.new.scan (linked self.old) (linked self.new)) }
        ensures stands { StandsOn from.old from.new }
        ensures receivers { from.new.sink ≡ from.old.sink }
        ensures terms { (slots_of self.new ≡ slots_of self.old) × (mtu_of self.new ≡ mtu_of self.old) }
    {
        'notices: while let Some(notice) = from.next_notice() {
            self.put(notice)?;
        }
        Ok(())
    }

    /// The first notice that waits on a link, which waits no longer; `None` exactly where none waits or the link isn't
    /// joined. It takes no memory.
    pub fn next_notice(&mut self, link: u8) -> Option<Notice>
        ensures notice { result ≡ first_of (link_at self.old link) }
        ensures links { linked self.new ≡ slice_set (linked self.old) link (without_first (link_at self.old link)) }
        ensures terms { (slots_of self.new ≡ slots_of self.old) × (mtu_of self.new ≡ mtu_of self.old) }
    {
        match link {
            0 => self.first.next(),
            1 => self.second.next(),
            2 => self.third.next(),
            3 => self.fourth.next(),
            _ => None,
        }
    }

    /// The assistant of a link; `None` exactly where it isn't joined.
    pub fn assistant(&mut self, link: u8) -> Option<&mut AssistJoined>
        ensures* lends { sem 𝓛 (LendsOn self.entry link result) }
        ensures value { option_map (λ assistant. assistant.now) result ≡ assistant_in (link_at self.old link) }
    {
        match link {
            0 => self.first.assistant(),
            1 => self.second.assistant(),
            2 => self.third.assistant(),
            3 => self.fourth.assistant(),
            _ => None,
        }
    }

    /// Whether an assistant is on a link.
    pub fn is_joined(&self, link: u8) -> bool
        ensures { result ≡ is_some (link_at self.now link) }
    {
        match link {
            0 => self.first.is_joined(),
            1 => self.second.is_joined(),
            2 => self.third.is_joined(),
            3 => self.fourth.is_joined(),
            _ => false,
        }
    }

    /// Puts this in the place of a link.
    fn set(&mut self, link: u8, place: Place)
        ensures links { linked self.new ≡ slice_set (linked self.old) link (link_of place) }
        ensures terms { self.new.terms ≡ self.old.terms }
    {
        match link {
            0 => self.first.set(place),
            1 => self.second.set(place),
            2 => self.third.set(place),
            3 => self.fourth.set(place),
            _ => {}
        }
    }

    /// Puts a notice behind those that wait on every joined link, or on none.
    fn put(&mut self, notice: Notice) -> Result<(), Memory>
        ensures ok { OnOk result (linked self.new ≡ map (with_notice notice) (linked self.old)) }
        ensures err { OnErr result (linked self.new ≡ linked self.old) }
        ensures terms { self.new.terms ≡ self.old.terms }
    {
        let second = self.second.ready(&notice)?;
        let third = self.third.ready(&notice)?;
        let fourth = self.fourth.ready(&notice)?;
        self.first.put_own(notice)?;
        self.second.put(second);
        self.third.put(third);
        self.fourth.put(fourth);
        Ok(())
    }
}
