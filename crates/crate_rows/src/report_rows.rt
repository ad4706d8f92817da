//! The lines of faults of a trace that no run of the program prints: of a failed read, of refused memory, and of more
//! records than there may be.

use report::{Line, json_of, text_of};
use trace_reader::TraceFault;

// Whether the text of the line of a fault is this one, and its JSON text this one and a line feed.
fn prints(rt: &HostRuntime, number: u8, place: u64, want: &str, json: &str) -> bool {
    if number < 1 || number > 7 {
        return false;
    }
    let line = Line::BadTrace { number, place };
    text_of(rt.alloc(), &line).is_ok_and(|text| text.as_slice() == want.as_bytes())
        && json_of(rt.alloc(), &line).is_ok_and(|text| text.as_slice().strip_suffix(b"\n")
            == Some(json.as_bytes()))
}

#[test]
fn each_fault_of_a_trace_has_its_name(rt: HostRuntime) {
    let rows = [
        (
            TraceFault::ReadFault,
            4u64,
            "trace fault 5 ReadFault record 4\n",
            r#"{"event":"trace fault","fault":"ReadFault","number":5,"record":4}"#,
        ),
        (
            TraceFault::NoMemory,
            5,
            "trace fault 6 NoMemory record 5\n",
            r#"{"event":"trace fault","fault":"NoMemory","number":6,"record":5}"#,
        ),
        (
            TraceFault::TooMany,
            6,
            "trace fault 7 TooMany record 6\n",
            r#"{"event":"trace fault","fault":"TooMany","number":7,"record":6}"#,
        ),
    ];
    for (fault, place, want, json) in rows {
        assert!(rt; prints(&rt, fault.number(), place, want, json), "{want}");
    }
}
