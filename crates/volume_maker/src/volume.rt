//! The files, directories, subvolumes and extents of a volume, without their bytes.

ghost use Rattle.std.specs.Prelude.{◌≡◌, ◌+◌, ◌-◌, filter, find, option_and_then, IfOk, OnOk, Some};
ghost use Rattle.std.specs.List.{list_any};
ghost use Rattle.volume_maker.specs.Volume.{nothing_stands, meets, lowest_free, sum_of, new_extent, with_file, with_directory, with_subvolume, with_empty_file, filled, is_inode, is_extent, is_used, shared, without, removed};

use crate::space::SECTORS;
use recon_crc::crc32c;
use std::alloc::Global;
use std::marker::Model;
use verdict::NoMemory;

/// An extent of data.
#[derive(Clone, Copy, Debug, PartialEq, Eq)]
pub struct Extent {
    /// Its first sector in the data chunk.
    pub sector: u16,
    /// Its length in sectors.
    pub sectors: u8,
    /// The commit that made it.
    pub commit: u32,
    /// The sum of each sector, where sums are kept.
    pub sum: Option<u32>,
    /// Whether it is preallocated.
    pub preallocated: bool,
}

impl Extent {
    // Whether it has one of so many sectors from this one on.
    fn meets(&self, sector: u16, sectors: u8) -> bool
        ensures { result ≡ meets sector sectors self.now }
    {
        let (end, other_end) = (
            u32::from(self.sector) + u32::from(self.sectors),
            u32::from(sector) + u32::from(sectors),
        );
        u32::from(self.sector) < other_end && u32::from(sector) < end
    }
}

/// A file of the file tree.
#[derive(Clone, Copy, Debug, PartialEq, Eq)]
pub struct FileAt {
    /// The commit that made it, whose number its name has.
    pub commit: u32,
    /// The directory that it stands in.
    pub dir: u64,
    /// Its extent, which it may share.
    pub extent: Option<Extent>,
    /// Whether its flag says that its data has no sums.
    pub sum_free: bool,
}

impl FileAt {
    // Whether it has this inode.
    fn is_inode(&self, ino: u64) -> bool
        ensures { result ≡ is_inode ino self.now }
    {
        inode_of(self.commit) == ino
    }

    /// Whether it has this extent, which is named by its first sector.
    pub fn has(&self, extent: &Extent) -> bool
        ensures { result ≡ is_extent extent.now self.now.extent }
    {
        match &self.extent {
            Some(other) => other.sector == extent.sector,
            None => false,
        }
    }
}

/// A subvolume.
#[derive(Clone, Copy, Debug, PartialEq, Eq)]
pub struct SubvolumeAt {
    /// The number of its tree.
    pub id: u64,
    /// The commit that made it.
    pub commit: u32,
}

/// The files, directories, subvolumes and extents that stand.
#[derive(Drop)]
pub struct Volume {
    alloc: Global,
    /// The commits that made the directories in the top directory.
    pub directories: Vec<u32>,
    /// The files, in order of making.
    pub files: Vec<FileAt>,
    /// The subvolumes, in order of making.
    pub subvolumes: Vec<SubvolumeAt>,
    /// The extents, in order of making.
    pub extents: Vec<Extent>,
}

impl Model for Volume {
    ghost use Rattle.volume_maker.specs.Volume.{Standing};

    ghost Value = { Standing };

    ghost view = { λ v. record {
      directories = v.directories.items;
      files = v.files.items;
      subvolumes = v.subvolumes.items;
      extents = v.extents.items;
    } };
}

/// The number of the inode that a commit makes.
pub fn inode_of(commit: u32) -> u64
    ensures { result ≡ 256 + commit }
{
    256 + u64::from(commit)
}

// The checksum of a sector of one byte.
#[tactic(auto, unfolding(crate::specs::Volume::sum_of))]
fn sum_of(byte: u8) -> u32
    ensures { result ≡ sum_of byte }
{
    crc32c(&[byte; 4096])
}

// The extent that a commit makes in a place.
fn new_extent(commit: u32, sector: u16, sectors: u8, sort: u8) -> Extent
    ensures { result ≡ new_extent commit sector sectors sort }
{
    let sum = if sort == 3 {
        Some(sum_of((commit % 256) as u8))
    } else {
        None
    };
    Extent {
        sector,
        sectors,
        commit,
        sum,
        preallocated: sort == 5,
    }
}

// Whether one of these extents has one of so many sectors from this one on.
fn is_taken(extents: &[Extent], sectors: u8, sector: u16) -> bool
    ensures { result ≡ list_any (meets sector sectors) extents.now }
{
    extents.iter().any(|e| e.meets(sector, sectors))
}

// The lowest place of so many sectors in the data chunk that no extent has.
fn free_sectors(extents: &[Extent], sectors: u8) -> Result<u16, NoMemory>
    ensures { IfOk result (λ sector. lowest_free extents.now sectors ≡ Some sector) }
{
    for sector in 0..SECTORS - u16::from(sectors) + 1 {
        if !is_taken(extents, sectors, sector) {
            return Ok(sector);
        }
    }
    Err(NoMemory)
}

// Whether one of these files has this extent.
fn is_used(files: &[FileAt], extent: &Extent) -> bool
    ensures { result ≡ is_used files.now extent.now }
{
    files.iter().any(|f| f.has(extent))
}

// The extent of the first of these files that has this inode.
fn extent_of(files: &[FileAt], ino: u64) -> Option<Extent>
    ensures { result ≡ option_and_then (λ f. f.extent) (find (is_inode ino) files.now) }
{
    match files.iter().find(|f| f.is_inode(ino)) {
        Some(file) => file.extent,
        None => None,
    }
}

// Takes the first of these files away that has this inode.
fn take_away(files: &mut Vec<FileAt>, ino: u64)
    ensures { files.new.items ≡ without ino files.old.items }
{
    if let Some(place) = files.iter().position(|f| f.is_inode(ino)) {
        files.remove(place);
    }
}

// Keeps the extents that one of these files has.
fn keep_used(extents: &mut Vec<Extent>, files: &[FileAt])
    ensures { extents.new.items ≡ filter (is_used files.now) extents.old.items }
{
    extents.retain(|e| is_used(files, e));
}

impl Volume {
    /// The empty file system.
    pub fn new(alloc: Global) -> Volume
        ensures { result ≡ nothing_stands }
    {
        Volume {
            alloc,
            directories: Vec::new(alloc),
            files: Vec::new(alloc),
            subvolumes: Vec::new(alloc),
            extents: Vec::new(alloc),
        }
    }

    /// Makes a subvolume, whose tree has this number.
    pub fn add_subvolume(&mut self, commit: u32, id: u64) -> Result<(), NoMemory>
        ensures { OnOk result (self.new ≡ with_subvolume commit id self.old) }
    {
        let subvolume = SubvolumeAt { id, commit };
        Ok(self.subvolumes.push(subvolume)?)
    }

    /// Makes a directory in the top directory.
    pub fn add_directory(&mut self, commit: u32) -> Result<(), NoMemory>
        ensures { OnOk result (self.new ≡ with_directory commit self.old) }
    {
        Ok(self.directories.push(commit)?)
    }

    // Adds a file.
    fn list(&mut self, file: FileAt) -> Result<(), NoMemory>
        ensures { OnOk result (self.new ≡ with_file file self.old) }
    {
        Ok(self.files.push(file)?)
    }

    /// Makes an empty file in a directory.
    pub fn add_file(&mut self, commit: u32, dir: u64) -> Result<(), NoMemory>
        ensures { OnOk result (self.new ≡ with_empty_file commit dir self.old) }
    {
        self.list(FileAt {
            commit,
            dir,
            extent: None,
            sum_free: false,
        })
    }

    /// Makes a file with a new extent of so many sectors, in the lowest place that no extent has. Of sort 3 it has
    /// sums, of sort 4 none, and of sort 5 it is preallocated. It answers the extent's first sector.
    pub fn fill(&mut self, commit: u32, dir: u64, sectors: u8, sort: u8) -> Result<u16, NoMemory>
        ensures place { IfOk result (λ sector. lowest_free self.old.extents sectors ≡ Some sector) }
        ensures after { OnOk result (self.new ≡ filled commit dir sectors sort self.old) }
    {
        let sector = free_sectors(&self.extents, sectors)?;
        let extent = new_extent(commit, sector, sectors, sort);
        self.extents.push(extent)?;
        self.list(FileAt {
            commit,
            dir,
            extent: Some(extent),
            sum_free: sort == 4,
        })?;
        Ok(sector)
    }

    /// Makes a file that shares the whole extent of another, by that one's inode.
    pub fn share(&mut self, commit: u32, dir: u64, of: u64) -> Result<(), NoMemory>
        ensures { OnOk result (self.new ≡ shared commit dir of self.old) }
    {
        let extent = extent_of(&self.files, of);
        self.list(FileAt {
            commit,
            dir,
            extent,
            sum_free: false,
        })
    }

    /// Takes a file away, by its inode. An extent stands as long as a file has it.
    pub fn remove(&mut self, ino: u64)
        ensures { self.new ≡ removed ino self.old }
    {
        take_away(&mut self.files, ino);
        keep_used(&mut self.extents, &self.files);
    }
}
