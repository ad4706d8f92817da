//! A disk that is lent is a disk.

use crate::{Disk, Failed};

impl<D: Disk> Disk for &mut D {
    ghost len = { λ d. D.len d.now };

    ghost bytes = { λ d. D.bytes d.now };

    ghost sent = { λ d. D.sent d.now };

    ghost moments = { λ d. D.moments d.now };

    ghost queue = { λ d. D.queue d.now };

    ghost reads = { λ d. D.reads d.now };

    ghost faults = { λ d. D.faults d.now };

    ghost hides_length = { λ d. D.hides_length d.now };

    ghost told_length = { λ d. D.told_length d.now };

    ghost told_moments = { λ d. D.told_moments d.now };

    fn length(&mut self) -> Result<u64, Failed> {
        Disk::length(&mut **self)
    }

    fn read(&mut self, at: u64, into: &mut [u8]) -> Result<(), Failed> {
        Disk::read(&mut **self, at, into)
    }

    fn write(&mut self, at: u64, from: &[u8]) -> Result<(), Failed> {
        Disk::write(&mut **self, at, from)
    }

    fn flush(&mut self) -> Result<(), Failed> {
        Disk::flush(&mut **self)
    }
}
