//! What holds of every trace.

ghost use Rattle.trace_reader.specs.Trace.{OneTrace};

/// Every list of bytes is a trace in exactly one way.
pub fn one_trace()
    ensures { OneTrace }
{}
