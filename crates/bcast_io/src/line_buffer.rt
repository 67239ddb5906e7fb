ghost use Rattle.std.specs.Prelude.{◌≡◌, ◌≤◌, [], ◌++◌, length, take, IfOk};

use bcast_base::Memory;
use std::alloc::Global;
use std::marker::Model;

/// The most octets that are kept of a line: one more than a line may have.
const KEPT: usize = 9001;

/// The first octets of a line. It keeps no more than 9,001 of them.
#[derive(Drop)]
pub(crate) struct LineBuffer {
    buffer: Vec<u8>,
}

impl Model for LineBuffer {
    ghost use Rattle.std.specs.Prelude.{ℕ, List, ◌≤◌, length};
    ghost use Rattle.std.specs.Vec.{vec_capacity};

    ghost Value = { List ℕ };

    ghost view = { λ a. a.buffer.items };

    ghost invariant = { λ a. (length a.buffer.items ≤ 9001) × (9001 ≤ vec_capacity a.buffer) };
}

impl LineBuffer {
    /// No octet, with all the space that it will need.
    pub(crate) fn new(alloc: Global) -> Result<LineBuffer, Memory>
        ensures { IfOk result (λ line. line ≡ []) }
    {
        Ok(LineBuffer {
            buffer: Vec::with_capacity(alloc, KEPT)?,
        })
    }

    /// The octets that are kept.
    pub(crate) fn as_slice(&self) -> &[u8]
        ensures { result.now ≡ self.now }
    {
        self.buffer.as_slice()
    }

    /// How many octets are kept.
    pub(crate) fn len(&self) -> usize
        ensures { result ≡ length self.now }
    {
        self.buffer.len()
    }

    /// Lets all octets go.
    pub(crate) fn clear(&mut self)
        ensures { self.new ≡ [] }
    {
        self.buffer.clear();
    }

    /// Puts octets at the end, as far as there is room.
    pub(crate) fn append(&mut self, more: &[u8])
        ensures { self.new ≡ take 9001 (self.old ++ more.now) }
    {
        let count = more.len().min(KEPT - self.buffer.len());
        match self.buffer.extend_from_slice(&more[..count]) {
            Ok(()) => {}

            // There is room for them.
            Err(_) => unreachable!(),
        }
    }
}
