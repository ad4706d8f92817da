ghost use Rattle.std.specs.Prelude.{◌≡◌, ◌+◌, ◌&&◌, nat_le};

use accounts::{Ctx, Home};
use recon_disk::Steps;
use span_index::{Run, Span, SpanIndex, SpanSort};
use verdict::NoMemory;

const LENGTH: u64 = 0x80_0000;

// Where one chunk ends and the other begins.
const EDGE: u64 = 0x150_0000;

// Two chunks side by side. The data of inode 258 has no checksums.
struct TwoChunks;

impl Ctx for TwoChunks {
    ghost use Rattle.std.specs.Prelude.{[], ◌∷◌, None, ◌==◌, false};

    ghost context = { λ _. record {
      chunks = record { start = 13631488; length = 8388608; class = 1; first = 0; second = None }
          ∷ record { start = 22020096; length = 8388608; class = 1; first = 8388608; second = None }
          ∷ [];
      nodesize = 16384;
      sum_free = λ _ ino. ino == 258;
      full = λ _. false;
    } };

    fn home(&self, addr: u64, len: u64) -> Option<Home> {
        if is_in(EDGE - LENGTH, addr, len) {
            Some(Home {
                start: EDGE - LENGTH,
                length: LENGTH,
                class: 1,
            })
        } else if is_in(EDGE, addr, len) {
            Some(Home {
                start: EDGE,
                length: LENGTH,
                class: 1,
            })
        } else {
            None
        }
    }

    fn sum_free(&self, _tree: u64, ino: u64) -> bool {
        ino == 258
    }

    fn nodesize(&self) -> u32 {
        16384
    }

    fn full(&self, _address: u64) -> bool {
        false
    }
}

// Whether a range is inside the chunk that begins at an address.
fn is_in(start: u64, addr: u64, len: u64) -> bool
    ensures { result ≡ nat_le start addr && nat_le (addr + len) (start + 8388608) }
{
    addr >= start && u128::from(addr) + u128::from(len) <= u128::from(start) + u128::from(LENGTH)
}

// The first byte of a sector, counted from sixteen sectors before the edge.
fn at(sector: u8) -> u64 {
    EDGE - 0x1_0000 + u64::from(sector) * 0x1000
}

fn owned(first: u8, sectors: u64) -> Span {
    Span {
        first: at(first),
        sectors,
        sort: SpanSort::Owned { of_data: true },
    }
}

fn block(first: u8) -> Span {
    Span {
        first: at(first),
        sectors: 4,
        sort: SpanSort::Owned { of_data: false },
    }
}

fn summed(first: u8, sectors: u64) -> Span {
    Span {
        first: at(first),
        sectors,
        sort: SpanSort::Summed,
    }
}

// What an inode of tree 5 shows of an extent of so many sectors: the first.
fn shown(first: u8, ino: u64, sectors: u8) -> Span {
    Span {
        first: at(first),
        sectors: 1,
        sort: SpanSort::Shown {
            tree: 5,
            ino,
            file_offset: 0,
            extent: at(first),
            length: u64::from(sectors) * 0x1000,
        },
    }
}

#[test]
fn many_files_show_a_sector_that_is_not_summed(rt: HostRuntime) -> Result<(), NoMemory> {
    let mut steps = Steps::new(());
    let mut index = SpanIndex::new(rt.alloc());
    let runs = [Run {
        from: EDGE,
        until: 0x150_1000,
    }];
    index.insert(owned(16, 1), &mut steps)?;
    for _ in 0..200 {
        index.insert(shown(16, 257, 1), &mut steps)?;
    }
    assert_eq!(rt; index.first_bad(&TwoChunks, &runs, &mut steps), Some(EDGE));
    index.insert(summed(16, 1), &mut steps)?;
    assert_eq!(rt; index.first_bad(&TwoChunks, &runs, &mut steps), None);
    Ok(())
}

#[test]
fn the_first_broken_sector(rt: HostRuntime) -> Result<(), NoMemory> {
    let runs = [
        Run {
            from: 0x14f_c000,
            until: 0x150_4000,
        },
        Run {
            from: 0x150_c000,
            until: 0x150_e000,
        },
    ];
    let not_at_a_sector = Span {
        first: EDGE + 0x200,
        ..owned(16, 1)
    };
    for (spans, bad) in [
        ([block(12), owned(16, 1), summed(16, 1)], None),
        ([block(12), owned(16, 1), summed(15, 2)], Some(15)),
        ([owned(15, 1), shown(15, 258, 1), block(16)], None),
        ([owned(15, 1), shown(15, 257, 1), block(16)], Some(15)),
        ([owned(15, 2), owned(15, 2), block(16)], None),
        ([owned(15, 2), summed(15, 1), block(16)], Some(15)),
        ([shown(15, 257, 1), owned(15, 1), summed(15, 1)], None),
        ([shown(15, 257, 2), owned(15, 1), block(16)], None),
        ([block(16), owned(19, 1), owned(20, 1)], Some(19)),
        ([owned(22, 1), owned(20, 8), block(16)], None),
        ([owned(27, 2), owned(26, 3), block(16)], Some(28)),
        ([not_at_a_sector, owned(16, 1), summed(16, 1)], None),
    ] {
        let mut steps = Steps::new(());
        let mut index = SpanIndex::new(rt.alloc());
        for span in spans {
            index.insert(span, &mut steps)?;
        }
        let found = index.first_bad(&TwoChunks, &runs, &mut steps);
        assert_eq!(rt; found, bad.map(at));
    }
    Ok(())
}
