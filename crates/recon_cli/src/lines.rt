//! How a line is printed.

ghost use Rattle.std.specs.Prelude.{◌≡◌, ◌++◌, IfOk, IfErr, OnOk, option_map};
ghost use Rattle.report.specs.Lines.{IsPrintable};
ghost use Rattle.recon_cli.specs.Outcome.{line_in};
ghost use Rattle.recon_cli.specs.Run.{HasPrintCause, TookLines};
ghost use Rattle.recon_cli.specs.Stopping.{IsCutPrint};

use crate::run_fault::RunFault;
use recon_disk::Sink;
use report::{Line, json_of, text_of};
use std::alloc::Global;
use verdict::{Bytes, Finding, NoMemory};

/// How lines are printed.
#[derive(Clone, Copy, Debug, PartialEq, Eq)]
pub enum Style {
    /// As text.
    Text,
    /// As JSON.
    Json,
}

// The bytes of a line.
fn bytes_of(alloc: Global, style: Style, line: &Line) -> Result<Bytes, NoMemory>
    requires { IsPrintable line.now }
    ensures { IfOk result (λ bytes. bytes ≡ line_in style line.now) }
{
    match style {
        Style::Text => text_of(alloc, line),
        Style::Json => json_of(alloc, line),
    }
}

// Prints a line in one write.
pub fn print<K: Sink>(alloc: Global, style: Style, out: &mut K, line: &Line) -> Result<(), RunFault>
    requires { IsPrintable line.now }
    ensures printed { OnOk result (K.kept out.new ≡
        option_map (λ kept. kept ++ line_in style line.now) (K.kept out.old)) }
    ensures stopped { IfErr result (λ fault.
        IsCutPrint (K.kept out.old) (line_in style line.now) fault (K.kept out.new)) }
    ensures lines { TookLines K.Sink style out.old out.new }
    ensures cause { HasPrintCause (K.faults out.old) (K.faults out.new) result }
{
    let Ok(bytes) = bytes_of(alloc, style, line) else {
        return Err(RunFault::Memory);
    };
    match out.write(bytes.as_slice()) {
        Ok(()) => Ok(()),
        Err(_) => Err(RunFault::Lines),
    }
}

// Prints that the image is refused.
pub fn refuse<K: Sink>(
    alloc: Global,
    style: Style,
    finding: Finding,
    out: &mut K,
) -> Result<u8, RunFault>
    ensures status { IfOk result (λ status. status ≡ 1) }
    ensures printed { OnOk result (K.kept out.new ≡
        option_map (λ kept. kept ++ line_in style (Line.Refused finding)) (K.kept out.old)) }
    ensures stopped { IfErr result (λ fault.
        IsCutPrint (K.kept out.old) (line_in style (Line.Refused finding)) fault (K.kept out.new)) }
    ensures lines { TookLines K.Sink style out.old out.new }
    ensures cause { HasPrintCause (K.faults out.old) (K.faults out.new) result }
{
    print(alloc, style, out, &Line::Refused(finding))?;
    Ok(1)
}
