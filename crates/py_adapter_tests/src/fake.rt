//! A file of the system that answers what a test wants.
ghost use Rattle.std.specs.Prelude.{◌≤◌, IfOk};

use std::fs::{Metadata, OpenFile};
use std::io;
use std::io::{Error, ErrorKind, Read, Seek, SeekFrom, Write};

/// What the system answers to a transfer.
#[derive(Clone, Copy)]
pub(crate) enum Step {
    Moves(usize),
    Fails(ErrorKind),
}

/// A file that answers every transfer alike, and every seek with the same place.
#[derive(Drop)]
pub(crate) struct Fake {
    pub(crate) step: Step,
    pub(crate) stands: u64,
}

impl Fake {
    pub(crate) fn new(step: Step, stands: u64) -> Self {
        Fake { step, stands }
    }

    fn transfer(&self, length: usize) -> io::Result<usize>
        ensures { IfOk result (λ count. count ≤ length) }
    {
        match self.step {
            Step::Moves(count) => Ok(count.min(length)),
            Step::Fails(kind) => Err(Error::from(kind)),
        }
    }
}

impl Read for Fake {
    fn read(&mut self, buf: &mut [u8]) -> io::Result<usize> {
        self.transfer(buf.len())
    }
}

impl Write for Fake {
    fn write(&mut self, buf: &[u8]) -> io::Result<usize> {
        self.transfer(buf.len())
    }

    fn flush(&mut self) -> io::Result<()> {
        Ok(())
    }
}

impl Seek for Fake {
    fn seek(&mut self, _to: SeekFrom) -> io::Result<u64> {
        Ok(self.stands)
    }
}

impl OpenFile for Fake {
    fn metadata(&self) -> io::Result<Metadata> {
        Err(Error::from(ErrorKind::Other))
    }

    fn set_len(&self, _size: u64) -> io::Result<()> {
        Err(Error::from(ErrorKind::Other))
    }

    fn sync_all(&self) -> io::Result<()> {
        Ok(())
    }

    fn sync_data(&self) -> io::Result<()> {
        Ok(())
    }
}

/// A writer with a buffer of its own, which takes all that it is given. Its first flushes come to these errors; each further one
/// passes on what it holds.
#[derive(Drop)]
pub(crate) struct Holding<'a> {
    pub(crate) errors: &'a [ErrorKind],
    pub(crate) flushes: usize,
    pub(crate) held: usize,
    pub(crate) passed: usize,
}

impl<'a> Holding<'a> {
    pub(crate) fn new(errors: &'a [ErrorKind]) -> Self {
        Holding {
            errors,
            flushes: 0,
            held: 0,
            passed: 0,
        }
    }
}

impl Write for Holding<'_> {
    fn write(&mut self, buf: &[u8]) -> io::Result<usize> {
        self.held = self.held.saturating_add(buf.len());
        Ok(buf.len())
    }

    fn flush(&mut self) -> io::Result<()> {
        let answer = self.errors.get(self.flushes).copied();
        self.flushes = self.flushes.saturating_add(1);
        if let Some(kind) = answer {
            return Err(Error::from(kind));
        }
        self.passed = self.passed.saturating_add(self.held);
        self.held = 0;
        Ok(())
    }
}
