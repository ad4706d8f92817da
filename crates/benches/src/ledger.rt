//! Measures the ledger of accounts. The words are TASK COUNT ROUNDS: `list` makes the accounts alone, `keep` adds to a
//! sum of each, `get` then looks each up ROUNDS times, and `turn` adds to each and takes all away again ROUNDS times.
//! The accounts are the first COUNT of a usual image, or where COUNT is 0 one for each number that standard input has,
//! a line each. The last word `fixed` has the hash begin with a fixed seed, and not with one drawn from the system.
//! Prints the sum of what was found, and the looks.

ghost use Rattle.std.specs.Prelude.{◌≡◌, ◌<◌};

use accounts::Account;
use ledger_index::LedgerIndex;
use recon_disk::Steps;
use std::alloc::Global;
use std::io::{self, BufRead, BufReader, ErrorKind};
use std::random::RandomSource;
use verdict::{Bytes, Key, NoMemory};

/// Does a task over `count` accounts so many times; over those of standard input where `count` is 0.
pub fn measure(
    rt: &HostRuntime,
    task: &str,
    count: u64,
    rounds: u64,
    is_seeded: bool,
) -> io::Result<()> {
    let task = Task::of(task);
    let mut seed = [0; 16];
    if is_seeded {
        rt.fill_bytes(&mut seed)?;
    }
    let mut steps = Steps::seeded((), seed);
    let made = if count == 0 {
        numbered(rt)?
    } else {
        match usual(rt.alloc(), count) {
            Ok(made) => made,
            Err(_) => return Err(io::Error::from(ErrorKind::OutOfMemory)),
        }
    };
    let Ok(found) = measured(rt.alloc(), task, &made, rounds, &mut steps) else {
        return Err(io::Error::from(ErrorKind::OutOfMemory));
    };
    println!(rt; "{found} {}", steps.looks())
}

/// What is measured.
#[derive(Clone, Copy)]
enum Task {
    List,
    Keep,
    Get,
    Turn,
}

impl Task {
    /// The task that a word names.
    fn of(word: &str) -> Task {
        match word {
            "keep" => Task::Keep,
            "get" => Task::Get,
            "turn" => Task::Turn,
            _ => Task::List,
        }
    }
}

/// A number below 2^32 for each number, in no order.
fn scattered(index: u64) -> u64 {
    index.wrapping_mul(0x9E37_79B9_7F4A_7C15) >> 32
}

/// The name of a file, of 4 to 23 bytes, and two bytes more.
fn name_of(alloc: Global, file: u64) -> Result<Vec<u8>, NoMemory> {
    let mut name = Vec::new(alloc);
    let mut rest = scattered(file);
    for _ in 0..file % 20 + 4 {
        if name.push(97 + (rest % 16) as u8).is_err() {
            return Err(NoMemory);
        }
        rest = (rest / 16).wrapping_add(file);
    }
    Ok(name)
}

/// The account of a kind, a tree and a block, a key, one more number and a name.
fn account(
    kind: u8,
    place: (u64, u64),
    key: (u64, u8, u64),
    detail: u64,
    tail: Vec<u8>,
) -> Account {
    Account {
        kind,
        tree: place.0,
        block: place.1,
        key: Key {
            objectid: key.0,
            kind: key.1,
            offset: key.2,
        },
        detail,
        tail: Bytes::from(tail),
    }
}

/// One of the seven accounts of each file of a usual image.
fn one_of(alloc: Global, index: u64) -> Result<Account, NoMemory> {
    let file = index / 7;
    let address = file.wrapping_mul(4096).wrapping_add(13_631_488);
    let ino = file.wrapping_add(257);
    let made = match index % 7 {
        0 => account(2, (5, address), (ino, 178, 0), 0, Vec::new(alloc)),
        1 => account(3, (2, address), (0, 0, 0), 0, Vec::new(alloc)),
        2 => account(4, (2, address), (0, 168, 4096), 0, Vec::new(alloc)),
        3 => account(9, (5, 0), (ino, 1, 0), 0, Vec::new(alloc)),
        4 => account(10, (5, 0), (ino, 1, 0), 1, Vec::new(alloc)),
        5 => account(
            11,
            (5, 0),
            (256, 84, scattered(file)),
            ino,
            name_of(alloc, file)?,
        ),
        _ => account(12, (5, 0), (ino, 12, 256), file, name_of(alloc, file)?),
    };
    Ok(made)
}

/// The first accounts of a usual image.
fn usual(alloc: Global, count: u64) -> Result<Vec<Account>, NoMemory> {
    let mut all = Vec::new(alloc);
    for index in 0..count {
        if all.push(one_of(alloc, index)?).is_err() {
            return Err(NoMemory);
        }
    }
    Ok(all)
}

/// The accounts with the numbers that standard input has.
fn numbered(rt: &HostRuntime) -> io::Result<Vec<Account>> {
    let mut all = Vec::new(rt.alloc());
    for line in BufReader::new(rt.alloc(), rt.reader())?.lines(rt.alloc()) {
        let number = line?.parse::<u64>().unwrap_or(0);
        all.push(account(1, (5, number), (number, 176, 5), 0, Vec::new(rt.alloc())))?;
    }
    Ok(all)
}

/// Adds to a sum of each account.
fn add_all(
    ledger: &mut LedgerIndex<()>,
    made: &[Account],
    steps: &mut Steps<()>,
) -> Result<(), NoMemory> {
    for account in made {
        ledger.add(account, 1, 100, steps)?;
    }
    Ok(())
}

/// Takes away what was added to each account.
fn take_all(ledger: &mut LedgerIndex<()>, made: &[Account], steps: &mut Steps<()>) {
    for account in made {
        ledger.take(account, 1, 100, steps);
    }
}

/// The sum of what is found when each account is looked up.
fn found(ledger: &LedgerIndex<()>, made: &[Account], steps: &mut Steps<()>) -> u64 {
    let mut sum = 0u64;
    for account in made {
        if let Ok(one) = u64::try_from(ledger.get(account, steps).f[1]) {
            sum = sum.wrapping_add(one);
        }
    }
    sum
}

/// Does the task, and gives the sum of what was found.
fn measured(
    alloc: Global,
    task: Task,
    made: &[Account],
    rounds: u64,
    steps: &mut Steps<()>,
) -> Result<u64, NoMemory> {
    let mut ledger = LedgerIndex::new(alloc);
    if let Task::List = task {
        return Ok(0);
    }
    add_all(&mut ledger, made, steps)?;
    let mut sum = 0u64;
    for _ in 0..rounds {
        match task {
            Task::List | Task::Keep => {}
            Task::Get => sum = sum.wrapping_add(found(&ledger, made, steps)),
            Task::Turn => {
                take_all(&mut ledger, made, steps);
                add_all(&mut ledger, made, steps)?;
            }
        }
    }
    Ok(sum.wrapping_add(found(&ledger, made, steps)))
}
