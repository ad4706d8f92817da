//! A line as JSON.

ghost use Rattle.std.specs.Prelude.{◌≡◌, ◌≤◌, IfOk, string_bytes};
ghost use Rattle.report.specs.Json.{finding_json, json_line, json_object, IsWritten};
ghost use Rattle.report.specs.Lines.{IsPrintable};

use crate::Line;
use crate::text::{digits_of, event_of, name_of, rule_of};
use serde_json::{Value, json};
use std::alloc::{AllocError, Global};
use verdict::{Bytes, Finding, NoMemory};

/// The JSON text of a line, with the line feed that ends it: one object with no space, whose members stand
/// in the order of the bytes of their names. The number of a trace's fault must be from 1 to 7.
pub fn json_of(alloc: Global, line: &Line) -> Result<Bytes, NoMemory>
    requires { IsPrintable line.now }
    ensures { IfOk result (λ text. text ≡ json_line line.now) }
{
    Ok(Bytes::from(written(alloc, line)?.into_bytes()))
}

// The line as a string.
fn written(alloc: Global, line: &Line) -> Result<String, AllocError>
    requires { IsPrintable line.now }
    ensures { IfOk result (λ text. string_bytes text ≡ json_line line.now) }
{
    let value = value_of(alloc, line)?;
    let mut text = value.to_string(alloc)?;
    text.push('\n')?;
    Ok(text)
}

// The object of the line.
fn value_of(alloc: Global, line: &Line) -> Result<Value, AllocError>
    requires { IsPrintable line.now }
    ensures { IfOk result (λ value. IsWritten value (json_object line.now)) }
{
    match line {
        Line::Image { generation } => accepted(alloc, *generation),
        Line::Refused(finding) => refused(alloc, finding),
        Line::Passed {
            settle,
            number,
            generation,
            blocks,
            hot,
        } => passed(alloc, *settle, *number, *generation, *blocks, *hot),
        Line::Rejected {
            settle,
            number,
            finding,
        } => rejected(alloc, *settle, *number, finding),
        Line::Fetched { at, bytes } => fetched(alloc, *at, bytes),
        Line::End { passed, rejected } => ended(alloc, *passed, *rejected),
        Line::BadTrace { number, place } => malformed(alloc, *number, *place),
        Line::Past {
            place,
            at,
            len,
            end,
        } => past_end(alloc, *place, *at, *len, *end),
    }
}

// An image is accepted.
fn accepted(alloc: Global, generation: u64) -> Result<Value, AllocError>
    ensures { IfOk result (λ value. IsWritten value (json_object (Line.Image generation))) }
{
    json!(in alloc; {"event": "image", "generation": generation, "result": "accepted"})
}

// An image is refused.
fn refused(alloc: Global, finding: &Finding) -> Result<Value, AllocError>
    ensures { IfOk result (λ value. IsWritten value (json_object (Line.Refused finding.now))) }
{
    let finding = finding_value(alloc, finding)?;
    json!(in alloc; {"event": "image", "finding": finding, "result": "refused"})
}

// A judged event passed.
fn passed(
    alloc: Global,
    settle: bool,
    number: u64,
    generation: u64,
    blocks: u64,
    hot: u64,
) -> Result<Value, AllocError>
    ensures { let line = Line.Passed settle number generation blocks hot in
        IfOk result (λ value. IsWritten value (json_object line)) }
{
    let event = event_of(settle);
    json!(in alloc; {
        "blocks": blocks,
        "event": event,
        "generation": generation,
        "hot": hot,
        "number": number,
        "result": "passed"
    })
}

// A judged event was rejected.
fn rejected(
    alloc: Global,
    settle: bool,
    number: u64,
    finding: &Finding,
) -> Result<Value, AllocError>
    ensures { let line = Line.Rejected settle number finding.now in
        IfOk result (λ value. IsWritten value (json_object line)) }
{
    let event = event_of(settle);
    let finding = finding_value(alloc, finding)?;
    json!(in alloc; {"event": event, "finding": finding, "number": number, "result": "rejected"})
}

// The answer of a fetch.
fn fetched(alloc: Global, at: u64, bytes: &Bytes) -> Result<Value, AllocError>
    ensures { IfOk result (λ value. IsWritten value (json_object (Line.Fetched at bytes.now))) }
{
    let bytes = bytes.as_slice();
    let len = bytes.len();
    let digits = digits_of(alloc, bytes)?;
    json!(in alloc; {"at": at, "bytes": digits, "event": "fetch", "len": len})
}

// The end of the trace was reached.
fn ended(alloc: Global, passed: u64, rejected: u64) -> Result<Value, AllocError>
    ensures { IfOk result (λ value. IsWritten value (json_object (Line.End passed rejected))) }
{
    json!(in alloc; {"event": "end", "passed": passed, "rejected": rejected})
}

// The trace is malformed.
fn malformed(alloc: Global, number: u8, place: u64) -> Result<Value, AllocError>
    requires least { 1 ≤ number }
    requires greatest { number ≤ 7 }
    ensures { IfOk result (λ value. IsWritten value (json_object (Line.BadTrace number place))) }
{
    let name = name_of(number);
    json!(in alloc; {"event": "trace fault", "fault": name, "number": number, "record": place})
}

// A record passes the end of the device.
fn past_end(alloc: Global, place: u64, at: u64, len: u64, end: u64) -> Result<Value, AllocError>
    ensures { IfOk result (λ value. IsWritten value (json_object (Line.Past place at len end))) }
{
    json!(in alloc; {"at": at, "end": end, "event": "past end", "len": len, "record": place})
}

// The object of a finding.
fn finding_value(alloc: Global, finding: &Finding) -> Result<Value, AllocError>
    ensures { IfOk result (λ value. IsWritten value (finding_json finding.now)) }
{
    let rule = rule_of(alloc, &finding.rule)?;
    json!(in alloc; {
        "block": finding.block, "detail": finding.detail,
        "key": [finding.key.objectid, finding.key.kind, finding.key.offset],
        "rule": rule, "tree": finding.tree
    })
}
