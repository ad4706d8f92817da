//! Runs of sectors, and their postings.

ghost use Rattle.std.specs.Prelude.{◌≡◌, ◌+◌, ◌*◌, ◌<◌, ◌^◌, Some, IfSome};
ghost use Rattle.accounts.specs.Posts.{Posts};
ghost use Rattle.space_rules.specs.RunPostings.{run_postings, run_postings_in, use_postings};

use accounts::kinds::{SECTOR_DATA, SECTOR_EXTENTS, SECTOR_SHOWN, SECTOR_SUMS};
use accounts::{Account, Posting, Postings};
use sector_runs::{SectorRun, SectorUse};
use std::alloc::Global;
use verdict::{NoMemory, SECTOR};

// So many sectors from an address on, or `None` where they end past the addresses of 64 bits.
pub fn sectors_at(first: u64, count: u64, sort: SectorUse) -> Option<SectorRun>
    ensures some { first + 4096 * count < 2 ^ 64 →
        result ≡ Some (record { first = first; count = count; sort = sort }) }
    ensures fits { IfSome result (λ run. run.first + 4096 * run.count < 2 ^ 64) }
    ensures sort { IfSome result (λ run. run.sort ≡ sort) }
{
    if count > (u64::MAX - first) / SECTOR {
        return None;
    }
    Some(SectorRun { first, count, sort })
}

// The postings of a run, if there is one.
pub fn post_run_in(
    alloc: Global,
    run: Option<SectorRun>,
    into: &mut Postings,
) -> Result<(), NoMemory>
    requires { IfSome run (λ run. run.first + 4096 * run.count < 2 ^ 64) }
    ensures { Posts into.old into.new result (run_postings_in run) }
{
    match run {
        Some(run) => post_run(alloc, run, into),
        None => Ok(()),
    }
}

// The postings of a run, sector by sector.
pub fn post_run(alloc: Global, run: SectorRun, into: &mut Postings) -> Result<(), NoMemory>
    requires { run.first + 4096 * run.count < 2 ^ 64 }
    ensures { Posts into.old into.new result (run_postings run) }
{
    for i in 0..run.count {
        post_sector(alloc, run.sort, run.first + i * SECTOR, into)?;
    }
    Ok(())
}

// A sector that is used so.
fn post_sector(
    alloc: Global,
    sort: SectorUse,
    address: u64,
    into: &mut Postings,
) -> Result<(), NoMemory>
    ensures { Posts into.old into.new result (use_postings sort address) }
{
    let sector = Account::sector(alloc, address);
    match sort {
        SectorUse::Data => into.push_all([
            Posting::to(sector, SECTOR_EXTENTS, 1),
            Posting::to(Account::sector(alloc, address), SECTOR_DATA, 1),
        ]),
        SectorUse::Block => into.push_all([Posting::to(sector, SECTOR_EXTENTS, 1)]),
        SectorUse::Summed => into.push_all([Posting::to(sector, SECTOR_SUMS, 1)]),
        SectorUse::Shown => into.push_all([Posting::to(sector, SECTOR_SHOWN, 1)]),
    }
}
