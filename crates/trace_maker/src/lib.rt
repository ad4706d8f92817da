//! Makes a workload of many commits on the base image from a number: its plan, and the trace of the writes
//! that carry it out.
#![tactic(auto)]

mod draw;
mod fault;
mod make;
mod maker;
mod operation;
mod planner;
mod record;
mod workload;
mod writes;

pub use fault::MakeFault;
pub use make::make_trace;
pub use operation::Operation;
pub use workload::plan;
