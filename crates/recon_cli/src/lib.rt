//! The program's call: from its words, a disk, a trace and a place for lines to the lines, the disk's
//! bytes and a status.
#![tactic(auto)]

mod check;
mod counts;
mod lines;
mod making;
mod outside;
mod replay;
mod run;
mod run_fault;
mod turn;
mod words;

pub use run::recon_run;
