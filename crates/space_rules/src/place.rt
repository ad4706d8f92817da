//! The place of an extent.

ghost use Rattle.std.specs.Prelude.{◌≡◌, ◌+◌, ◌<◌, ◌^◌, [], ◌∷◌, IfSome, Some, if◌then◌else◌};
ghost use Rattle.accounts.specs.Posts.{Posts};
ghost use Rattle.accounts.specs.Context.{home_of};
ghost use Rattle.accounts.specs.Kinds.{group_class, group_of, outside};
ghost use Rattle.accounts.specs.declared.kinds.TheConstants.{GROUP_TAKEN, OTHER_CLASS, OUTSIDE_CHUNKS};
ghost use Rattle.extent_items.specs.ExtentItems.{extent_fields_in};
ghost use Rattle.records.specs.SpacePostings.{extent_length, is_data, is_other_class, place_postings};
ghost use Rattle.space_rules.specs.RunPostings.{owned_run, rest_of_place, where_home};
ghost use Rattle.accounts.specs.Lent.{to};

use crate::sectors::post_run;
use accounts::kinds::{GROUP_TAKEN, OTHER_CLASS, OUTSIDE_CHUNKS};
use accounts::{Account, Ctx, Home, Poster, Posting, Postings};
use extent_items::ExtentItem;
use sector_runs::{SectorRun, SectorUse};
use std::alloc::Global;
use verdict::kinds::EXTENT_ITEM;
use verdict::{NoMemory, SECTOR};

/// The type bit of chunks with file data.
const DATA: u64 = 1;

/// The type bit of chunks with blocks of the chunk tree.
const SYSTEM: u64 = 2;

/// The type bit of chunks with blocks of the other trees.
const METADATA: u64 = 4;

/// The place of an extent.
#[derive(Clone, Copy, Debug)]
pub struct Place {
    /// Whether it has file data, and else a tree block.
    pub of_data: bool,
    /// Its logical address in bytes.
    pub address: u64,
    /// Its length in bytes.
    pub length: u64,
    /// The chunk that holds it whole.
    pub home: Option<Home>,
}

// The place of the extent that an item is of.
pub fn place_of<C: Ctx>(ctx: &C, item: &ExtentItem<'_>) -> Place
    ensures of_data { result.of_data ≡ is_data (extent_fields_in item.now) }
    ensures address { result.address ≡ item.now.key.objectid }
    ensures length { result.length ≡ extent_length (C.context ctx.now) (extent_fields_in item.now) }
    ensures home { result.home ≡ home_of (C.context ctx.now) result.address result.length }
    ensures fits { IfSome result.home (λ _. result.address + result.length < 2 ^ 64) }
{
    let of_data = item.key.kind == EXTENT_ITEM;
    let address = item.key.objectid;
    let length = if of_data {
        item.key.offset
    } else {
        u64::from(ctx.nodesize())
    };
    Place {
        of_data,
        address,
        length,
        home: ctx.home(address, length),
    }
}

impl Place {
    // What it posts: what it takes of its group, its sectors, and whether the group is of another class; or that no
    // chunk has it.
    pub fn post(&self, alloc: Global, into: &mut Postings) -> Result<(), NoMemory>
        requires { IfSome self.now.home (λ _. self.now.address + self.now.length < 2 ^ 64) }
        ensures { Posts into.old into.new result
            (place_postings self.now.of_data self.now.address self.now.length self.now.home) }
    {
        match &self.home {
            Some(home) => self.post_in_home(alloc, home, into),
            None => self.post_outside(alloc, into),
        }
    }

    // The same without the sectors.
    pub fn post_rest<P: Poster>(&self, alloc: Global, into: &mut P) -> Result<(), NoMemory>
        ensures { P.Leaves into.old into.new result
            (rest_of_place self.now.of_data self.now.address self.now.length self.now.home) }
    {
        match &self.home {
            Some(home) => self.post_rest_in_home(alloc, home, into),
            None => self.post_outside(alloc, into),
        }
    }

    // The sectors, where a chunk has them.
    pub fn run(&self) -> Option<SectorRun>
        ensures { result ≡ where_home self.now.home
            (owned_run self.now.of_data self.now.address self.now.length) }
    {
        self.home.map(|_| self.owned())
    }

    fn owned(&self) -> SectorRun
        ensures { result ≡ owned_run self.now.of_data self.now.address self.now.length }
    {
        SectorRun {
            first: self.address,
            count: self.length / SECTOR,
            sort: if self.of_data {
                SectorUse::Data
            } else {
                SectorUse::Block
            },
        }
    }

    fn post_in_home(&self, alloc: Global, home: &Home, into: &mut Postings) -> Result<(), NoMemory>
        requires { self.now.address + self.now.length < 2 ^ 64 }
        ensures { Posts into.old into.new result
            (place_postings self.now.of_data self.now.address self.now.length (Some home.now)) }
    {
        into.put(self.taken(alloc, home))?;
        post_run(alloc, self.owned(), into)?;
        self.post_class(alloc, home.class, into)
    }

    fn post_rest_in_home<P: Poster>(
        &self,
        alloc: Global,
        home: &Home,
        into: &mut P,
    ) -> Result<(), NoMemory>
        ensures { P.Leaves into.old into.new result
            (rest_of_place self.now.of_data self.now.address self.now.length (Some home.now)) }
    {
        into.put(self.taken(alloc, home))?;
        self.post_class(alloc, home.class, into)
    }

    // That its group is of another class, where chunks of the type do not take it.
    fn post_class<P: Poster>(&self, alloc: Global, class: u64, into: &mut P) -> Result<(), NoMemory>
        ensures { P.Leaves into.old into.new result
            (if is_other_class self.now.of_data class then
            to (group_class self.now.address) OTHER_CLASS 1 ∷ [] else []) }
    {
        if !is_other_class(self.of_data, class) {
            return Ok(());
        }
        into.put(self.other_class(alloc))
    }

    // What it takes of the group of its home.
    fn taken(&self, alloc: Global, home: &Home) -> Posting
        ensures { result ≡ to (group_of home.now) GROUP_TAKEN self.now.length }
    {
        Posting::to(Account::group_of(alloc, home), GROUP_TAKEN, self.length)
    }

    // That its group is of another class.
    fn other_class(&self, alloc: Global) -> Posting
        ensures { result ≡ to (group_class self.now.address) OTHER_CLASS 1 }
    {
        Posting::to(Account::group_class(alloc, self.address), OTHER_CLASS, 1)
    }

    // That no chunk has it.
    fn post_outside<P: Poster>(&self, alloc: Global, into: &mut P) -> Result<(), NoMemory>
        ensures { P.Leaves into.old into.new result
            (to (outside self.now.address) OUTSIDE_CHUNKS 1 ∷ []) }
    {
        into.put(Posting::to(Account::outside(alloc, self.address), OUTSIDE_CHUNKS, 1))
    }
}

// Whether chunks of a type do not take such an extent.
fn is_other_class(of_data: bool, class: u64) -> bool
    ensures { result ≡ is_other_class of_data class }
{
    if of_data {
        class & DATA != DATA
    } else {
        class & SYSTEM != SYSTEM && class & METADATA != METADATA
    }
}
