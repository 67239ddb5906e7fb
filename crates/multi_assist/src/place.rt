ghost use Rattle.std.specs.Prelude.{◌≡◌, ◌<◌, [], Some, None, is_some, option_map, IfOk, OnOk, OnErr, OnSome};
ghost use Rattle.std.specs.VecDeque.{deque_len, deque_capacity};
ghost use Rattle.std.specs.Borrow.{sem};
ghost use Rattle.multi_assist.specs.State.Places.{LendsAssistant, assistant_in, copy_for, first_of};
ghost use Rattle.multi_assist.specs.State.Places.{link_of, with_copy, with_notice, without_first};

use assistant_machine::AssistJoined;
use bcast_base::Memory;
use delegator_history::Notice;
use std::alloc::Global;
use std::collections::VecDeque;

/// A link: the assistant that is on it, where one is, and the notices that wait for it.
#[derive(Drop)]
pub(crate) struct Place {
    assistant: Option<AssistJoined>,
    waiting: VecDeque<Notice>,
}

impl Place {
    /// A link that no assistant is on. It takes no memory.
    pub(crate) fn empty(alloc: Global) -> Place
        ensures { link_of result ≡ None }
    {
        Place {
            assistant: None,
            waiting: VecDeque::new(alloc),
        }
    }

    /// A link that this assistant is on. No notice waits. It takes no memory.
    pub(crate) fn joined(alloc: Global, assistant: AssistJoined) -> Place
        ensures { link_of result ≡ Some (record { waiting = []; assistant = assistant }) }
    {
        Place {
            assistant: Some(assistant),
            waiting: VecDeque::new(alloc),
        }
    }

    /// Puts another in its place.
    pub(crate) fn set(&mut self, place: Place)
        ensures { self.new ≡ place }
    {
        *self = place;
    }

    /// Whether an assistant is on it.
    pub(crate) fn is_joined(&self) -> bool
        ensures { result ≡ is_some (link_of self.now) }
    {
        self.assistant.is_some()
    }

    /// The assistant that is on it.
    pub(crate) fn assistant(&mut self) -> Option<&mut AssistJoined>
        ensures* lends { sem 𝓛 (LendsAssistant self.entry result) }
        ensures value { option_map (λ assistant. assistant.now) result ≡ assistant_in (link_of self.old) }
    {
        self.assistant.as_mut()
    }

    /// The first notice that waits, which waits no longer.
    pub(crate) fn next(&mut self) -> Option<Notice>
        ensures notice { result ≡ first_of (link_of self.old) }
        ensures rest { link_of self.new ≡ without_first (link_of self.old) }
    {
        if self.assistant.is_none() {
            return None;
        }
        self.waiting.pop_front()
    }

    /// A copy of a notice, and room for it, where an assistant is on the link.
    pub(crate) fn ready(&mut self, notice: &Notice) -> Result<Option<Notice>, Memory>
        ensures same { link_of self.new ≡ link_of self.old }
        ensures copy { IfOk result (λ copy. copy ≡ copy_for notice.now (link_of self.old)) }
        ensures room { IfOk result (λ copy. OnSome copy (deque_len self.new.waiting < deque_capacity self.new.waiting)) }
    {
        if self.assistant.is_none() {
            return Ok(None);
        }
        let value = notice.value.copy_again()?;
        self.waiting.reserve(1)?;
        Ok(Some(Notice {
            slot: notice.slot,
            value,
        }))
    }

    /// Puts a copy that there is room for behind the notices that wait.
    pub(crate) fn put(&mut self, copy: Option<Notice>)
        requires { OnSome copy (deque_len self.old.waiting < deque_capacity self.old.waiting) }
        ensures { link_of self.new ≡ with_copy copy (link_of self.old) }
    {
        if let Some(notice) = copy {
            self.waiting.push_back_reserved(notice);
        }
    }

    /// Puts a notice behind those that wait, where an assistant is on the link.
    pub(crate) fn put_own(&mut self, notice: Notice) -> Result<(), Memory>
        ensures ok { OnOk result (link_of self.new ≡ with_notice notice (link_of self.old)) }
        ensures err { OnErr result (link_of self.new ≡ link_of self.old) }
    {
        if self.assistant.is_none() {
            return Ok(());
        }
        Ok(self.waiting.push_back(notice)?)
    }
}
