//! Whole runs of the program's call over disks, traces and sinks in memory of which calls fail: their lines, their statuses, and
//! what stands on the device after them. Also the checking machine and the walk of a changed tree on worked rows. What a run of
//! the program tells stands in the tables of tests/. The crate has tests alone, above the calls that they run.
#![tactic(auto)]

#[cfg(test)]
mod bytes;
#[cfg(test)]
mod fault_tests;
#[cfg(test)]
mod machine_tests;
#[cfg(test)]
mod recon_core_rows;
#[cfg(test)]
mod runs;
#[cfg(test)]
mod stop_tests;
#[cfg(test)]
mod trace;
#[cfg(test)]
mod tree_change_rows;
#[cfg(test)]
mod tree_tests;
