//! The plan of a workload, as it is drawn commit by commit.

ghost use Rattle.std.specs.Prelude.{◌≡◌, ◌+◌, ◌<◌, ◌^◌, ◌≤◌, length, IfOk, OnOk};
ghost use Rattle.trace_maker.specs.Plan.{Planned, first_planned, after_draw, pick, picked_directory, with_file, plan_file, plan_filled, plan_shared, plan_removed, plan_subvolume, plan_directory, plan_commit, sharers};

use crate::draw::draw;
use crate::operation::Operation;
use std::alloc::Global;
use std::marker::Model;
use verdict::NoMemory;

/// A file that stands in the list of files.
#[derive(Clone, Copy, Debug, PartialEq, Eq)]
pub struct ListedFile {
    /// The number of its inode.
    pub ino: u64,
    /// Whether another file may share its extent.
    pub may_share: bool,
}

/// What is planned so far.
#[derive(Drop)]
pub struct Planner {
    alloc: Global,
    state: u64,
    directories: Vec<u64>,
    files: Vec<ListedFile>,
    subvolumes: u64,
}

impl Model for Planner {
    ghost use Rattle.trace_maker.specs.Plan.{Planned};

    ghost Value = { Planned };

    ghost view = { λ p. record {
      state = p.state;
      directories = p.directories.items;
      files = p.files.items;
      subvolumes = p.subvolumes;
    } };
}

// The files whose extent may be shared.
fn sharers_of(alloc: Global, files: &[ListedFile]) -> Result<Vec<u64>, NoMemory>
    ensures { IfOk result (λ list. list.items ≡ sharers files.now) }
{
    let sharers = files.iter().filter(|f| f.may_share).map(|f| f.ino);
    Ok(sharers.collect(alloc)?)
}

impl Planner {
    /// The plan before the first commit: the top directory alone.
    pub fn new(alloc: Global, seed: u64) -> Result<Planner, NoMemory>
        ensures { IfOk result (λ p. p ≡ first_planned seed) }
    {
        let directories = vec![in alloc; 256]?;
        Ok(Planner {
            alloc,
            state: seed,
            directories,
            files: Vec::new(alloc),
            subvolumes: 0,
        })
    }

    // Picks one of n, which is above 0.
    fn pick(&mut self, n: u64) -> u64
        requires { 0 < n }
        ensures picked { result ≡ pick self.old.state n }
        ensures below { result < n }
        ensures after { self.new ≡ after_draw self.old }
    {
        let (drawn, next) = draw(self.state);
        self.state = next;
        drawn % n
    }

    // Picks a directory.
    fn pick_directory(&mut self) -> u64
        requires { 0 < length self.old.directories }
        ensures picked { result ≡ picked_directory self.old }
        ensures after { self.new ≡ after_draw self.old }
    {
        let count = self.directories.len() as u64;
        let place = self.pick(count);
        self.directories[place as usize]
    }

    // Appends a file.
    fn list(&mut self, ino: u64, may_share: bool) -> Result<(), NoMemory>
        ensures { OnOk result (self.new ≡ with_file ino may_share self.old) }
    {
        let file = ListedFile { ino, may_share };
        Ok(self.files.push(file)?)
    }

    // Commit k makes an empty file.
    fn file(&mut self, k: u32) -> Result<Operation, NoMemory>
        requires { 0 < length self.old.directories }
        ensures op { IfOk result (λ op. op ≡ (plan_file k self.old).0) }
        ensures after { OnOk result (self.new ≡ (plan_file k self.old).1) }
    {
        let ino = 256 + u64::from(k);
        let dir = self.pick_directory();
        self.list(ino, false)?;
        Ok(Operation::File { ino, dir })
    }

    // Commit k makes a file with data of a sort.
    fn filled(&mut self, sort: u8, k: u32) -> Result<Operation, NoMemory>
        requires { 0 < length self.old.directories }
        ensures op { IfOk result (λ op. op ≡ (plan_filled sort k self.old).0) }
        ensures after { OnOk result (self.new ≡ (plan_filled sort k self.old).1) }
    {
        let ino = 256 + u64::from(k);
        let (dir, sectors) = (self.pick_directory(), 1 + self.pick(8) as u8);
        self.list(ino, sort == 3)?;
        Ok(Operation::Filled {
            ino,
            dir,
            sectors,
            sort,
        })
    }

    // Commit k makes a file that shares an extent.
    fn shared(&mut self, k: u32) -> Result<Operation, NoMemory>
        requires { 0 < length self.old.directories }
        ensures op { IfOk result (λ op. op ≡ (plan_shared k self.old).0) }
        ensures after { OnOk result (self.new ≡ (plan_shared k self.old).1) }
    {
        let others = sharers_of(self.alloc, &self.files)?;
        if others.is_empty() {
            return self.file(k);
        }
        let ino = 256 + u64::from(k);
        let dir = self.pick_directory();
        let place = self.pick(others.len() as u64);
        self.list(ino, true)?;
        Ok(Operation::Shared {
            ino,
            dir,
            of: others[place as usize],
        })
    }

    // Commit k removes a file.
    fn removed(&mut self, k: u32) -> Result<Operation, NoMemory>
        requires { 0 < length self.old.directories }
        ensures op { IfOk result (λ op. op ≡ (plan_removed k self.old).0) }
        ensures after { OnOk result (self.new ≡ (plan_removed k self.old).1) }
    {
        if self.files.is_empty() {
            return self.file(k);
        }
        let count = self.files.len() as u64;
        let place = self.pick(count);
        let file = self.files.remove(place as usize);
        Ok(Operation::Removed { ino: file.ino })
    }

    // Commit k makes a subvolume.
    fn subvolume(&mut self) -> Operation
        requires { self.old.subvolumes < 2 ^ 32 }
        ensures op { result ≡ (plan_subvolume self.old).0 }
        ensures after { self.new ≡ (plan_subvolume self.old).1 }
    {
        let id = 256 + self.subvolumes;
        self.subvolumes += 1;
        Operation::Subvolume { id }
    }

    // Commit k makes a directory.
    fn directory(&mut self, k: u32) -> Result<Operation, NoMemory>
        ensures op { IfOk result (λ op. op ≡ (plan_directory k self.old).0) }
        ensures after { OnOk result (self.new ≡ (plan_directory k self.old).1) }
    {
        let ino = 256 + u64::from(k);
        self.directories.push(ino)?;
        Ok(Operation::Directory { ino })
    }

    /// The operation of commit k. Fewer subvolumes than k were made before.
    pub fn commit(&mut self, k: u32) -> Result<Operation, NoMemory>
        requires some { 0 < length self.old.directories }
        requires few { self.old.subvolumes < k }
        ensures op { IfOk result (λ op. op ≡ (plan_commit k self.old).0) }
        ensures after { OnOk result (self.new ≡ (plan_commit k self.old).1) }
        ensures some { OnOk result (0 < length self.new.directories) }
        ensures few { OnOk result (self.new.subvolumes ≤ k) }
    {
        match self.pick(8) {
            0 => Ok(self.subvolume()),
            1 => self.directory(k),
            2 => self.file(k),
            6 => self.shared(k),
            7 => self.removed(k),
            row => self.filled(row as u8, k),
        }
    }
}
