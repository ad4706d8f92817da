//! The full check of an image.

ghost use Rattle.std.specs.Prelude.{ℕ, ◌≡◌, ◌⊎◌, ◌++◌, List, Some, IfOk, IfErr, OnOk, option_map};
ghost use Rattle.report.specs.Lines.{text_line};
ghost use Rattle.recon_cli.specs.Stopped.{CheckStops};
ghost use Rattle.recon_cli.specs.Stopping.{IsCutPrint};
ghost use Rattle.recon_cli.specs.Run.{ChecksAs, HasPrintCause, HasTurnCause, TookLines};

use crate::lines::{Style, print, refuse};
use crate::run_fault::RunFault;
use plain_check::{Fault, Verdict, judge};
use recon_disk::{Disk, Sink};
use report::Line;
use std::alloc::Global;
use write_cache::WriteCache;

// Prints that the image is accepted.
fn accept<K: Sink>(alloc: Global, generation: u64, out: &mut K) -> Result<u8, RunFault>
    ensures status { IfOk result (λ status. status ≡ 0) }
    ensures printed { OnOk result (K.kept out.new ≡
        option_map (λ kept. kept ++ text_line (Line.Image generation)) (K.kept out.old)) }
    ensures stopped { let line = text_line (Line.Image generation) in
        IfErr result (λ cause. IsCutPrint (K.kept out.old) line cause (K.kept out.new)) }
    ensures lines { TookLines K.Sink Style.Text out.old out.new }
    ensures cause { HasPrintCause (K.faults out.old) (K.faults out.new) result }
{
    print(alloc, Style::Text, out, &Line::Image { generation })?;
    Ok(0)
}

// Checks the disk's image and prints what is said of it. The disk's bytes stay, and no trace is asked for.
pub fn check<D: Disk, K: Sink>(alloc: Global, disk: &mut D, out: &mut K) -> Result<u8, RunFault>
    ensures outcome { (image kept : List ℕ) →
        D.bytes disk.old ≡ Some image → K.kept out.old ≡ Some kept →
        IfOk result (λ status. ChecksAs image kept status (D.bytes disk.new) (K.kept out.new)) }
    ensures stopped { (image kept : List ℕ) →
        D.bytes disk.old ≡ Some image → K.kept out.old ≡ Some kept →
        IfErr result (λ cause. CheckStops image kept cause (D.bytes disk.new) (K.kept out.new)) }
    ensures status { IfOk result (λ status. (status ≡ 0) ⊎ (status ≡ 1)) }
    ensures bytes { D.bytes disk.new ≡ D.bytes disk.old }
    ensures sent { D.sent disk.new ≡ D.sent disk.old }
    ensures lines { TookLines K.Sink Style.Text out.old out.new }
    ensures cause { HasTurnCause (D.faults disk.old) (D.faults disk.new)
        (K.faults out.old) (K.faults out.new) result }
{
    match judge(alloc, disk, &WriteCache::new(alloc)) {
        Ok(Verdict::Accept { generation }) => accept(alloc, generation, out),
        Ok(Verdict::Found(finding)) => refuse(alloc, Style::Text, finding, out),
        Err(Fault::Disk) => Err(RunFault::Device),
        Err(Fault::NoMemory) => Err(RunFault::Memory),
    }
}
