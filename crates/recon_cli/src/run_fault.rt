//! Why a run stops before its outcome.

ghost use Rattle.std.specs.Prelude.{◌≡◌};
ghost use Rattle.recon_cli.specs.Status.{fault_status};

/// Why a run stops before its outcome.
#[derive(Clone, Copy, Debug, PartialEq, Eq)]
pub enum RunFault {
    /// A call of the disk failed.
    Device,
    /// A read of the trace failed.
    Trace,
    /// A write of a line failed.
    Lines,
    /// Out of memory.
    Memory,
}

// The status of such a run.
pub fn status_of(fault: RunFault) -> u8
    ensures { result ≡ fault_status fault }
{
    match fault {
        RunFault::Device => 4,
        RunFault::Trace => 5,
        RunFault::Lines => 6,
        RunFault::Memory => 7,
    }
}
