//! Why a step that reads gives no value.

ghost use Rattle.std.specs.Prelude.{◌≡◌};
ghost use Rattle.block_source.specs.declared.halt.Fault.TheVariants.{Disk as FaultOfDisk, NoMemory as Want};
ghost use Rattle.block_source.specs.declared.halt.Halt.TheVariants.{Found, Disk, NoMemory as Memory};
ghost use Rattle.block_source.specs.Gives.{halt_of, told};

use recon_disk::Failed;
use std::alloc::{AllocError, AllocFailed};
use verdict::{Finding, NoMemory};

/// Why a call that reads a disk gave no answer.
#[derive(Clone, Copy, Debug, PartialEq, Eq)]
pub enum Fault {
    /// A call of the disk failed.
    Disk,
    /// Out of memory.
    NoMemory,
}

/// Why a step that reads gives no value.
#[derive(Clone, Copy, Debug, PartialEq, Eq)]
pub enum Halt {
    /// A rule fails.
    Found(Finding),
    /// A call of the disk failed.
    Disk,
    /// Out of memory.
    NoMemory,
}

impl From<Finding> for Halt {
    ghost from_gives = { λ finding halt. halt ≡ Found finding };

    fn from(finding: Finding) -> Halt {
        Halt::Found(finding)
    }
}

impl From<Failed> for Halt {
    ghost from_gives = { λ _ halt. halt ≡ Disk };

    fn from(_failed: Failed) -> Halt {
        Halt::Disk
    }
}

impl From<NoMemory> for Halt {
    ghost from_gives = { λ _ halt. halt ≡ Memory };

    fn from(_none: NoMemory) -> Halt {
        Halt::NoMemory
    }
}

impl From<AllocError> for Halt {
    ghost from_gives = { λ _ halt. halt ≡ Memory };

    fn from(_none: AllocError) -> Halt {
        Halt::NoMemory
    }
}

impl<T: Drop> From<AllocFailed<T>> for Halt {
    ghost from_gives = { λ _ halt. halt ≡ Memory };

    fn from(_refused: AllocFailed<T>) -> Halt {
        Halt::NoMemory
    }
}

impl From<Fault> for Halt {
    ghost from_gives = { λ fault halt. halt ≡ halt_of fault };

    fn from(fault: Fault) -> Halt {
        match fault {
            Fault::Disk => Halt::Disk,
            Fault::NoMemory => Halt::NoMemory,
        }
    }
}

impl From<Failed> for Fault {
    ghost from_gives = { λ _ fault. fault ≡ FaultOfDisk };

    fn from(_failed: Failed) -> Fault {
        Fault::Disk
    }
}

/// What a step says to others: its value or its finding, or the fault that stopped it.
pub fn told<T>(step: Result<T, Halt>) -> Result<Result<T, Finding>, Fault>
    ensures { result ≡ told step }
{
    match step {
        Ok(value) => Ok(Ok(value)),
        Err(Halt::Found(finding)) => Ok(Err(finding)),
        Err(Halt::Disk) => Err(Fault::Disk),
        Err(Halt::NoMemory) => Err(Fault::NoMemory),
    }
}
