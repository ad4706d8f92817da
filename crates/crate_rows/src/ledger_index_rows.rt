use accounts::{Account, NameAccount, Totals};
use ledger_index::LedgerIndex;
use recon_disk::Steps;
use std::alloc::Global;
use verdict::{Bytes, Key, NoMemory};

// An account of directory entries whose hash is not that of its name, with a tail of this many bytes.
fn entry(alloc: Global, length: usize) -> Result<Account, NoMemory> {
    let Ok(tail) = Vec::from_elem(alloc, 97, length) else {
        return Err(NoMemory);
    };
    Ok(Account {
        kind: 11,
        tree: 5,
        block: 0,
        key: Key {
            objectid: 256,
            kind: 84,
            offset: 1,
        },
        detail: 257,
        tail: Bytes::from(tail),
    })
}

// An account of a block with numbers of 64 bits.
fn wide(alloc: Global, block: u64) -> Account {
    Account {
        kind: 2,
        tree: 5,
        block,
        key: Key {
            objectid: u64::MAX,
            kind: 178,
            offset: u64::MAX,
        },
        detail: 0,
        tail: Bytes::from(Vec::new(alloc)),
    }
}

// The totals with these first two sums, and no other.
fn two(first: u128, second: u128) -> Totals {
    Totals {
        f: [first, second, 0, 0, 0, 0, 0, 0, 0],
    }
}

#[test]
fn adds_and_takes(rt: HostRuntime) -> Result<(), NoMemory> {
    let alloc = rt.alloc();
    let mut steps = Steps::seeded((), [7; 16]);
    let mut ledger = LedgerIndex::new(alloc);
    let mut account = wide(alloc, 65536);
    for _ in 0..2 {
        assert!(rt; ledger.get(&account, &mut steps) == two(0, 0));
        ledger.add(&account, 0, 0, &mut steps)?;
        assert!(rt; ledger.get(&account, &mut steps) == two(0, 0));
        ledger.add(&account, 1, 200, &mut steps)?;
        ledger.add(&account, 1, 100, &mut steps)?;
        ledger.add(&account, 9, 100, &mut steps)?;
        ledger.take(&account, 9, 100, &mut steps);
        assert!(rt; ledger.get(&account, &mut steps) == two(0, 300));
        ledger.add(&account, 0, u64::MAX, &mut steps)?;
        ledger.add(&account, 0, 2, &mut steps)?;
        assert!(rt; ledger.get(&account, &mut steps) == two(18_446_744_073_709_551_617, 300));
        ledger.take(&account, 0, 3, &mut steps);
        ledger.take(&account, 1, 301, &mut steps);
        assert!(rt; ledger.get(&account, &mut steps) == two(18_446_744_073_709_551_614, 0));
        ledger.take(&account, 0, u64::MAX, &mut steps);
        assert!(rt; ledger.get(&account, &mut steps) == two(0, 0));
        account = entry(alloc, 30)?;
    }
    assert!(rt; steps.looks() == 32);
    Ok(())
}

#[test]
fn keeps_accounts_apart(rt: HostRuntime) -> Result<(), NoMemory> {
    let alloc = rt.alloc();
    let mut steps = Steps::new(());
    let mut ledger = LedgerIndex::new(alloc);
    let lengths = [0, 1, 12, 13, 30, 36, 37, 255];
    for length in lengths {
        ledger.add(&entry(alloc, length)?, 0, length as u64 + 1, &mut steps)?;
        ledger.add(
            &wide(alloc, length as u64),
            1,
            length as u64 + 2,
            &mut steps,
        )?;
    }
    for length in lengths {
        let named = ledger.get(&entry(alloc, length)?, &mut steps);
        assert!(rt; named == two(length as u128 + 1, 0));
        let plain = ledger.get(&wide(alloc, length as u64), &mut steps);
        assert!(rt; plain == two(0, length as u128 + 2));
    }
    let mut other = entry(alloc, 30)?;
    other.key.offset = 2;
    assert!(rt; ledger.get(&other, &mut steps) == two(0, 0));
    Ok(())
}

// An account of names without a file, of this tree, with a tail of this many bytes.
fn named(alloc: Global, tree: u64, length: usize) -> Result<Account, NoMemory> {
    let mut account = entry(alloc, length)?;
    account.kind = 12;
    account.tree = tree;
    Ok(account)
}

#[test]
fn finds_the_least_broken_account(rt: HostRuntime) -> Result<(), NoMemory> {
    let alloc = rt.alloc();
    let mut steps = Steps::new(());
    let mut ledger = LedgerIndex::new(alloc);
    assert!(rt; ledger.least_broken(&mut steps)?.is_none());
    for length in [0, 12, 30, 36, 37, 255] {
        let whole = entry(alloc, length)?;
        ledger.add(&whole, 0, 5, &mut steps)?;
        ledger.add(&whole, 1, 5, &mut steps)?;
    }
    assert!(rt; ledger.least_broken(&mut steps)?.is_none());
    assert!(rt; steps.looks() == 18);
    for (tree, length) in [(8, 255), (7, 12), (6, 30), (5, 0), (4, 200), (3, 13)] {
        let broken = named(alloc, tree, length)?;
        assert!(rt; !ledger.add_saturating(&broken, 1, 1, &mut steps)?);
        assert!(rt; ledger.least_broken(&mut steps)? == Some(broken));
    }
    ledger.take(&named(alloc, 3, 13)?, 1, 1, &mut steps);
    assert!(rt; ledger.least_broken(&mut steps)? == Some(named(alloc, 4, 200)?));
    Ok(())
}

// An inode whose number takes more than 32 bits.
fn far_inode(alloc: Global, i: u64) -> Account {
    Account::inode(alloc, 5, i.wrapping_mul(128).wrapping_add(4_294_967_296))
}

#[test]
fn finds_accounts_among_many(rt: HostRuntime) -> Result<(), NoMemory> {
    let alloc = rt.alloc();
    let mut steps = Steps::seeded((), [9; 16]);
    let mut ledger = LedgerIndex::new(alloc);
    // Inodes whose numbers are beyond 32 bits and 128 apart: so their accounts have entries of their own, in all parts of
    // the table, two in each.
    for i in 0..2048 {
        let inode = far_inode(alloc, i);
        ledger.add(&inode, 0, 1, &mut steps)?;
        ledger.add(&inode, 4, i + 1, &mut steps)?;
        assert!(rt; !ledger.breaks(&inode, &mut steps));
    }
    assert!(rt; ledger.least_broken(&mut steps)?.is_none());
    for i in [1000, 700, 3, 2, 0] {
        let inode = far_inode(alloc, i);
        ledger.take(&inode, 4, i + 1, &mut steps);
        assert!(rt; ledger.get(&inode, &mut steps) == two(1, 0));
        assert!(rt; ledger.breaks(&inode, &mut steps));
        assert!(rt; ledger.least_broken(&mut steps)? == Some(inode));
    }
    for i in 0..2048 {
        let inode = far_inode(alloc, i);
        ledger.take(&inode, 0, 1, &mut steps);
        ledger.take(&inode, 4, 2049, &mut steps);
        assert!(rt; ledger.get(&inode, &mut steps) == two(0, 0));
        assert!(rt; !ledger.breaks(&inode, &mut steps));
    }
    assert!(rt; ledger.least_broken(&mut steps)?.is_none());
    Ok(())
}

// The accounts of an inode and of three of its types.
fn of_inode(alloc: Global, ino: u64) -> [Account; 4] {
    [
        Account::inode(alloc, 5, ino),
        Account::inode_type(alloc, 5, ino, 1),
        Account::inode_type(alloc, 5, ino, 2),
        Account::inode(alloc, 6, ino),
    ]
}

#[test]
fn keeps_inodes_of_a_page_apart(rt: HostRuntime) -> Result<(), NoMemory> {
    let alloc = rt.alloc();
    let mut steps = Steps::seeded((), [3; 16]);
    let mut ledger = LedgerIndex::new(alloc);
    let inodes = [
        0,
        1,
        15,
        16,
        17,
        31,
        32,
        4_294_967_295,
        4_294_967_296,
        u64::MAX,
    ];
    let mut amount = 1;
    for ino in inodes {
        for account in &of_inode(alloc, ino) {
            ledger.add(account, 0, amount, &mut steps)?;
            ledger.add(account, 1, 1_000_000, &mut steps)?;
            amount = amount.wrapping_add(1);
        }
    }
    amount = 1;
    for ino in inodes {
        for account in &of_inode(alloc, ino) {
            assert!(rt; ledger.get(account, &mut steps) == two(u128::from(amount), 1_000_000));
            amount = amount.wrapping_add(1);
        }
        let mut other = Account::inode(alloc, 5, ino);
        other.key.offset = 1;
        assert!(rt; ledger.get(&other, &mut steps) == two(0, 0));
        let mut another = Account::inode(alloc, 5, ino);
        another.block = 16;
        assert!(rt; ledger.get(&another, &mut steps) == two(0, 0));
    }
    for ino in inodes {
        for account in &of_inode(alloc, ino) {
            ledger.take(account, 0, u64::MAX, &mut steps);
            assert!(rt; ledger.get(account, &mut steps) == two(0, 1_000_000));
            ledger.take(account, 1, 1_000_000, &mut steps);
            assert!(rt; ledger.get(account, &mut steps) == two(0, 0));
        }
    }
    // Nothing stands any more, so nothing is looked at.
    let looks = steps.looks();
    assert!(rt; ledger.least_broken(&mut steps)?.is_none());
    assert!(rt; steps.looks() == looks);
    Ok(())
}

#[test]
fn finds_the_least_broken_inode(rt: HostRuntime) -> Result<(), NoMemory> {
    let alloc = rt.alloc();
    let mut steps = Steps::seeded((), [5; 16]);
    let mut ledger = LedgerIndex::new(alloc);
    for ino in 256..320 {
        ledger.add(&Account::inode(alloc, 5, ino), 0, 1, &mut steps)?;
        ledger.add(&Account::inode(alloc, 5, ino), 4, 1, &mut steps)?;
    }
    assert!(rt; ledger.least_broken(&mut steps)?.is_none());
    // A type that an entry says and no item does, and orphans that are none: each is lesser than the one before.
    let broken = [
        entry(alloc, 20)?,
        Account::inode_type(alloc, 5, 300, 1),
        Account::inode_type(alloc, 5, 271, 2),
        Account::inode_type(alloc, 5, 271, 1),
    ];
    for account in &broken {
        ledger.add(account, 0, 1, &mut steps)?;
        assert!(rt; ledger.least_broken(&mut steps)?.as_ref() == Some(account));
    }
    for ino in [319, 288, 287, 272, 271, 256] {
        let inode = Account::inode(alloc, 5, ino);
        ledger.take(&inode, 4, 1, &mut steps);
        assert!(rt; ledger.breaks(&inode, &mut steps));
        assert!(rt; ledger.least_broken(&mut steps)? == Some(inode));
    }
    Ok(())
}

// An account of a link of an inode in directory 256, with this index and a name of this many bytes.
fn link(alloc: Global, ino: u64, index: u64, length: usize) -> Result<Account, NoMemory> {
    let mut account = entry(alloc, length)?;
    account.kind = 12;
    account.key = Key {
        objectid: ino,
        kind: 12,
        offset: 256,
    };
    account.detail = index;
    Ok(account)
}

// The same of the entry of the directory, with this hash, and of this type.
fn typed(alloc: Global, ino: u64, hash: u64, length: usize, sort: u8) -> Result<Account, NoMemory> {
    let mut account = entry(alloc, length)?;
    account.key.offset = hash;
    account.detail = ino;
    account.tail.push(sort)?;
    account.tail.push(1)?;
    Ok(account)
}

// Accounts of one name: a link and an entry of a regular file, others with another index, another hash and another type, and one whose
// index takes more than 32 bits.
fn of_name(alloc: Global, ino: u64, length: usize) -> Result<[Account; 6], NoMemory> {
    Ok([
        link(alloc, ino, 2, length)?,
        typed(alloc, ino, 1, length, 1)?,
        link(alloc, ino, 3, length)?,
        typed(alloc, ino, 2, length, 1)?,
        typed(alloc, ino, 1, length, 2)?,
        link(alloc, ino, 4_294_967_298, length)?,
    ])
}

#[test]
fn keeps_accounts_of_a_name_apart(rt: HostRuntime) -> Result<(), NoMemory> {
    let alloc = rt.alloc();
    let mut steps = Steps::seeded((), [2; 16]);
    let mut ledger = LedgerIndex::new(alloc);
    let names = [
        (257, 1),
        (258, 1),
        (257, 3),
        (257, 12),
        (257, 36),
        (257, 37),
        (4_294_967_553, 3),
    ];
    let mut amount = 1;
    for which in 0..6usize {
        for (ino, length) in names {
            let account = &of_name(alloc, ino, length)?[which];
            ledger.add(account, 0, amount, &mut steps)?;
            ledger.add(account, 1, 1_000_000, &mut steps)?;
            amount = amount.wrapping_add(1);
        }
    }
    amount = 1;
    for which in 0..6usize {
        for (ino, length) in names {
            let account = &of_name(alloc, ino, length)?[which];
            assert!(rt; ledger.get(account, &mut steps) == two(u128::from(amount), 1_000_000));
            assert!(rt; ledger.breaks(account, &mut steps));
            amount = amount.wrapping_add(1);
        }
    }
    // A sum that is none of the two stands beside them.
    let first = &of_name(alloc, 257, 3)?[0];
    let mut totals = ledger.get(first, &mut steps);
    ledger.add(first, 7, 5, &mut steps)?;
    totals.f[7] = 5;
    assert!(rt; ledger.get(first, &mut steps) == totals);
    ledger.take(first, 7, 9, &mut steps);
    for which in 0..6usize {
        for (ino, length) in names {
            let account = &of_name(alloc, ino, length)?[which];
            ledger.take(account, 0, u64::MAX, &mut steps);
            assert!(rt; ledger.get(account, &mut steps) == two(0, 1_000_000));
            ledger.take(account, 1, 1_000_000, &mut steps);
            assert!(rt; ledger.get(account, &mut steps) == two(0, 0));
        }
    }
    // Nothing stands any more, so nothing is looked at.
    let looks = steps.looks();
    assert!(rt; ledger.least_broken(&mut steps)?.is_none());
    assert!(rt; steps.looks() == looks);
    Ok(())
}

#[test]
fn finds_the_least_broken_name(rt: HostRuntime) -> Result<(), NoMemory> {
    let alloc = rt.alloc();
    let mut steps = Steps::seeded((), [4; 16]);
    let mut ledger = LedgerIndex::new(alloc);
    for ino in 257..321 {
        for account in &[link(alloc, ino, ino, 3)?, typed(alloc, ino, ino, 3, 1)?] {
            ledger.add(account, 0, 1, &mut steps)?;
            ledger.add(account, 1, 1, &mut steps)?;
        }
    }
    // The two of a name are one entry.
    let looks = steps.looks();
    assert!(rt; ledger.least_broken(&mut steps)?.is_none());
    assert!(rt; steps.looks().wrapping_sub(looks) == 64);
    // Each is lesser than the one before: links, one beside another with its index, and entries.
    let broken = [
        link(alloc, 320, 320, 3)?,
        link(alloc, 258, 258, 3)?,
        link(alloc, 258, 7, 3)?,
        typed(alloc, 320, 320, 3, 1)?,
        typed(alloc, 257, 257, 3, 1)?,
        typed(alloc, 257, 7, 3, 1)?,
    ];
    for account in &broken {
        ledger.add(account, 0, 1, &mut steps)?;
        assert!(rt; ledger.breaks(account, &mut steps));
        assert!(rt; ledger.least_broken(&mut steps)?.as_ref() == Some(account));
    }
    for account in &broken {
        ledger.add(account, 1, 1, &mut steps)?;
        assert!(rt; !ledger.breaks(account, &mut steps));
    }
    assert!(rt; ledger.least_broken(&mut steps)?.is_none());
    Ok(())
}

#[test]
fn finds_names_among_many(rt: HostRuntime) -> Result<(), NoMemory> {
    let alloc = rt.alloc();
    let mut steps = Steps::seeded((), [6; 16]);
    let mut ledger = LedgerIndex::new(alloc);
    for ino in 0..5000 {
        ledger.add(&link(alloc, ino, 2, 20)?, 0, 1, &mut steps)?;
        ledger.add(&typed(alloc, ino, 1, 20, 1)?, 1, ino + 1, &mut steps)?;
    }
    for ino in 0..5000 {
        if ino % 3 == 0 {
            ledger.take(&link(alloc, ino, 2, 20)?, 0, 1, &mut steps);
            ledger.take(&typed(alloc, ino, 1, 20, 1)?, 1, ino + 1, &mut steps);
        }
    }
    for ino in 0..5000 {
        let stands = if ino % 3 == 0 { 0 } else { 1 };
        assert!(rt; ledger.get(&link(alloc, ino, 2, 20)?, &mut steps) == two(stands, 0));
        let named = ledger.get(&typed(alloc, ino, 1, 20, 1)?, &mut steps);
        assert!(rt; named == two(0, stands * (u128::from(ino) + 1)));
    }
    assert!(rt; ledger.least_broken(&mut steps)? == Some(typed(alloc, 1, 1, 20, 1)?));
    Ok(())
}

// An account of an entry of directory 256, which leads to the item 300 of this kind, and is of this type.
fn lent_entry(name: &[u8], kind: u8, sort: u8) -> NameAccount<'_> {
    NameAccount::Entry {
        tree: 5,
        dir: 256,
        hash: 1,
        location: Key {
            objectid: 300,
            kind,
            offset: 0,
        },
        name,
        sort,
    }
}

// An account of a link of inode 300 in directory 256, with this index.
fn lent_link(name: &[u8], index: u64) -> NameAccount<'_> {
    NameAccount::Link {
        tree: 5,
        ino: 300,
        dir: 256,
        index,
        name,
    }
}

#[test]
fn adds_to_names_without_their_accounts(rt: HostRuntime) -> Result<(), NoMemory> {
    let alloc = rt.alloc();
    let mut steps = Steps::new(());
    let mut made = LedgerIndex::new(alloc);
    let mut lent = LedgerIndex::new(alloc);
    let wanted = Totals {
        f: [18_446_744_073_709_551_618, 2, 0, 0, 0, 1, 0, 0, 0],
    };
    for length in [0, 1, 36, 37, 255] {
        let Ok(bytes) = Vec::from_elem(alloc, 97, length) else {
            return Err(NoMemory);
        };
        let name = bytes.as_slice();
        let names = [
            lent_entry(name, 1, 1),
            lent_link(name, 2),
            lent_entry(name, 1, 2),
            lent_entry(name, 132, 1),
            lent_link(name, 4_294_967_296),
        ];
        for one in names {
            let account = one.account(alloc)?;
            for (field, amount) in [(0, 3), (1, 2), (0, u64::MAX), (5, 1), (1, 0), (9, 4)] {
                let before = steps.looks();
                assert!(rt; !made.add_saturating(&account, field, amount, &mut steps)?);
                assert!(rt; !lent.add_name(&one, field, amount, &mut steps)?);
                assert!(rt; steps.looks() == before.wrapping_add(2));
            }
            assert!(rt; made.get(&account, &mut steps) == wanted);
            assert!(rt; lent.get(&account, &mut steps) == wanted);
        }
    }
    let least = lent.least_broken(&mut steps)?;
    assert!(rt; least == made.least_broken(&mut steps)?);
    assert!(rt; least == Some(lent_entry(&[], 1, 1).account(alloc)?));
    Ok(())
}
