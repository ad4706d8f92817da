//! The layers on worked rows that a run of the program cannot tell: kept tables and how often they are looked into, disks and
//! streams in memory whose calls fail, pending writes, and bytes as such. What a run tells stands in the tables of tests/. The
//! crate has tests alone, above the crates that they call, so that none of those is proved a second time for its tests.
#![tactic(auto)]

#[cfg(test)]
mod chunk_map_rows;
#[cfg(test)]
mod common;
#[cfg(test)]
mod image_maker_rows;
#[cfg(test)]
mod ledger_index_rows;
#[cfg(test)]
mod live_index_rows;
#[cfg(test)]
mod recon_bytes_rows;
#[cfg(test)]
mod recon_crc_rows;
#[cfg(test)]
mod recon_disk_rows;
#[cfg(test)]
mod report_rows;
#[cfg(test)]
mod span_index_rows;
#[cfg(test)]
mod span_judge_rows;
#[cfg(test)]
mod touched_blocks_rows;
#[cfg(test)]
mod trace_reader_rows;
#[cfg(test)]
mod write_cache_rows;
