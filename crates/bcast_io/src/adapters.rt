ghost use Rattle.std.specs.Prelude.{◌≡◌, ◌<◌, ◌≤◌, Err, OnOk, OnErr, IfOk, length};
ghost use Rattle.std.specs.Io.{ReadsAtMost, WritesAtMost};
ghost use Rattle.std.specs.Io.KnownBytes.{ReadConsumes, WriteAppends};
ghost use Rattle.bcast_base.specs.Counts.{counted};

use crate::sink::{ByteSink, SinkFault};
use crate::source::{ByteSource, Failed};
use std::io::{ErrorKind, Read, Write};
use std::marker::Model;

/// A source over a reader of std. An interrupted read is made again, and each other error is a fault.
#[derive(Drop)]
pub struct ReadSource<R: Read + Drop> {
    inner: R,
    faults: u64,
}

impl<R: Read + Drop> Model for ReadSource<R> {
    ghost use Rattle.bcast_io.specs.Stores.{Adapted};

    ghost Value = { Adapted R };

    ghost view = { λ a. record { inner = a.inner; faults = a.faults } };
}

impl<R: Read + Drop> ReadSource<R> {
    /// No fault yet.
    pub fn new(inner: R) -> ReadSource<R>
        ensures { result ≡ record { inner = inner; faults = 0 } }
    {
        ReadSource { inner, faults: 0 }
    }
}

impl<R: Read + Drop> ByteSource for ReadSource<R> {
    ghost left = { λ s. R.remaining s.inner };

    ghost faults = { λ s. s.faults };

    fn read(&mut self, into: &mut [u8]) -> Result<usize, Failed>
        ensures bound { ReadsAtMost result into.new }
        ensures bytes { ReadConsumes (R.remaining self.old.inner) (R.remaining self.new.inner) result into.new }
        ensures ok { OnOk result (self.new.faults ≡ self.old.faults) }
        ensures failed { OnErr result (self.new.faults ≡ counted self.old.faults) }
        ensures never_falls { self.old.faults ≤ self.new.faults }
    {
        match read_again(&mut self.inner, into) {
            Ok(n) => Ok(n),
            Err(Failed) => {
                self.faults = self.faults.saturating_add(1);
                Err(Failed)
            }
        }
    }
}

// One read that no signal interrupted.
fn read_again<R: Read>(inner: &mut R, into: &mut [u8]) -> Result<usize, Failed>
    ensures bound { ReadsAtMost result into.new }
    ensures bytes { ReadConsumes (R.remaining inner.old) (R.remaining inner.new) result into.new }
{
    'turns: for _ in 0..u64::MAX {
        match inner.read(into) {
            Ok(n) => return Ok(n),
            Err(error) if error.kind() == ErrorKind::Interrupted => continue 'turns,
            Err(_) => return Err(Failed),
        }
    }
    Err(Failed)
}

/// A sink over a writer of std. An interrupted write is made again. A write that takes nothing of a
/// piece that isn't empty is a fault, and so is each other error but want of memory.
#[derive(Drop)]
pub struct WriteSink<W: Write + Drop> {
    inner: W,
    faults: u64,
}

impl<W: Write + Drop> Model for WriteSink<W> {
    ghost use Rattle.bcast_io.specs.Stores.{Adapted};

    ghost Value = { Adapted W };

    ghost view = { λ a. record { inner = a.inner; faults = a.faults } };
}

impl<W: Write + Drop> WriteSink<W> {
    /// No fault yet.
    pub fn new(inner: W) -> WriteSink<W>
        ensures { result ≡ record { inner = inner; faults = 0 } }
    {
        WriteSink { inner, faults: 0 }
    }
}

impl<W: Write + Drop> ByteSink for WriteSink<W> {
    ghost contents = { λ s. W.contents s.inner };

    ghost faults = { λ s. s.faults };

    fn write(&mut self, from: &[u8]) -> Result<usize, SinkFault>
        ensures bound { WritesAtMost result from.now }
        ensures some { 0 < length from.now → IfOk result (λ n. 1 ≤ n) }
        ensures bytes { WriteAppends (W.contents self.old.inner) (W.contents self.new.inner) result from.now }
        ensures ok { OnOk result (self.new.faults ≡ self.old.faults) }
        ensures memory { result ≡ Err SinkFault.Memory → self.new.faults ≡ self.old.faults }
        ensures failed { result ≡ Err SinkFault.Failed → self.new.faults ≡ counted self.old.faults }
        ensures never_falls { self.old.faults ≤ self.new.faults }
    {
        let written = write_again(&mut self.inner, from);
        if written == Err(SinkFault::Failed) {
            self.faults = self.faults.saturating_add(1);
        }
        written
    }
}

// One write that no signal interrupted.
fn write_again<W: Write>(inner: &mut W, from: &[u8]) -> Result<usize, SinkFault>
    ensures bound { WritesAtMost result from.now }
    ensures some { 0 < length from.now → IfOk result (λ n. 1 ≤ n) }
    ensures bytes { WriteAppends (W.contents inner.old) (W.contents inner.new) result from.now }
{
    'turns: for _ in 0..u64::MAX {
        match inner.write(from) {
            Ok(0) if !from.is_empty() => return Err(SinkFault::Failed),
            Ok(n) => return Ok(n),
            Err(error) => match error.kind() {
                ErrorKind::Interrupted => continue 'turns,
                ErrorKind::OutOfMemory => return Err(SinkFault::Memory),
                _ => return Err(SinkFault::Failed),
            },
        }
    }
    Err(SinkFault::Failed)
}
