//! A line as text.

ghost use Rattle.std.specs.Prelude.{◌≡◌, ◌≤◌, IfOk, string_bytes};
ghost use Rattle.hex.specs.Hex.{encode_lower};
ghost use Rattle.json.specs.Print.{escape};
ghost use Rattle.report.specs.Lines.{event_word, fault_name, finding_text, rule_text, text_line, IsPrintable};

use crate::Line;
use std::alloc::{AllocError, Global};
use verdict::{Bytes, Finding, NoMemory, Rule};

/// The text of a line, with the line feed that ends it. The number of a trace's fault must be from 1
/// to 7.
pub fn text_of(alloc: Global, line: &Line) -> Result<Bytes, NoMemory>
    requires { IsPrintable line.now }
    ensures { IfOk result (λ text. text ≡ text_line line.now) }
{
    Ok(Bytes::from(printed(alloc, line)?.into_bytes()))
}

// The line as a string.
#[tactic(auto, unfolding(crate::specs::Lines::text_line))]
fn printed(alloc: Global, line: &Line) -> Result<String, AllocError>
    requires { IsPrintable line.now }
    ensures { IfOk result (λ text. string_bytes text ≡ text_line line.now) }
{
    match line {
        Line::Image { generation } => {
            format!(in alloc; "image accepted generation {generation}\n")
        }
        Line::Refused(finding) => {
            let finding = finding_of(alloc, finding)?;
            format!(in alloc; "image refused {finding}\n")
        }
        Line::Passed {
            settle,
            number,
            generation,
            blocks,
            hot,
        } => {
            let event = event_of(*settle);
            format!(in alloc;
                "{event} {number} passed generation {generation} blocks {blocks} hot {hot}\n"
            )
        }
        Line::Rejected {
            settle,
            number,
            finding,
        } => {
            let event = event_of(*settle);
            let finding = finding_of(alloc, finding)?;
            format!(in alloc; "{event} {number} rejected {finding}\n")
        }
        Line::Fetched { at, bytes } => {
            let len = bytes.as_slice().len();
            let digits = digits_of(alloc, bytes.as_slice())?;
            format!(in alloc; "fetch {at} {len} {digits}\n")
        }
        Line::End { passed, rejected } => {
            format!(in alloc; "end passed {passed} rejected {rejected}\n")
        }
        Line::BadTrace { number, place } => {
            let name = name_of(*number);
            format!(in alloc; "trace fault {number} {name} record {place}\n")
        }
        Line::Past {
            place,
            at,
            len,
            end,
        } => { format!(in alloc; "trace past end record {place} at {at} len {len} end {end}\n") }
    }
}

// Two hexadecimal digits a byte. A JSON text has no escape for them.
pub fn digits_of(alloc: Global, bytes: &[u8]) -> Result<String, AllocError>
    ensures digits { IfOk result (λ text. string_bytes text ≡ encode_lower bytes.now) }
    ensures plain { escape (encode_lower bytes.now) ≡ encode_lower bytes.now }
{
    hex::encode(alloc, bytes)
}

// The letter of the rule's family, and the number. A JSON text has no escape for it.
pub fn rule_of(alloc: Global, rule: &Rule) -> Result<String, AllocError>
    ensures text { IfOk result (λ text. string_bytes text ≡ rule_text rule.now) }
    ensures plain { IfOk result (λ _. escape (rule_text rule.now) ≡ rule_text rule.now) }
{
    let letter = char::from(rule.family.letter());
    let number = rule.number;
    format!(in alloc; "{letter}{number}")
}

// The rule, and where it fails.
fn finding_of(alloc: Global, finding: &Finding) -> Result<String, AllocError>
    ensures { IfOk result (λ text. string_bytes text ≡ finding_text finding.now) }
{
    let rule = rule_of(alloc, &finding.rule)?;
    format!(in alloc;
        "{rule} tree {} block {} key {} {} {} detail {}",
        finding.tree,
        finding.block,
        finding.key.objectid,
        finding.key.kind,
        finding.key.offset,
        finding.detail
    )
}

// What a judged event is called.
pub fn event_of(settle: bool) -> &'static str
    ensures { result.now ≡ event_word settle }
{
    if settle { "settle" } else { "commit" }
}

// The name of a trace's fault.
pub fn name_of(number: u8) -> &'static str
    requires least { 1 ≤ number }
    requires greatest { number ≤ 7 }
    ensures { result.now ≡ fault_name number }
{
    match number {
        1 => "BadHeader",
        2 => "BadTag",
        3 => "BadLength",
        4 => "Truncated",
        5 => "ReadFault",
        6 => "NoMemory",
        _ => "TooMany",
    }
}
