//! The sums were computed by a program in another language that makes the same bytes from the format. `tests/makes.py` compares
//! the base image.

use crate::common::key;
use image_maker::*;
use recon_crc::crc32c;
use verdict::{Bytes, Event, NoMemory};

fn sum_of(bytes: &Bytes) -> u32 {
    crc32c(bytes.as_slice())
}

#[test]
fn the_writes_of_a_new_file_are_those_of_the_format(rt: HostRuntime) -> Result<(), NoMemory> {
    let events = create_writes(rt.alloc())?;
    let want = [
        (5_324_800, 16384, 0xB61B_0F45),
        (5_341_184, 16384, 0xB5C0_BA9C),
        (5_357_568, 16384, 0xC23D_B86C),
        (13_713_408, 16384, 0xB61B_0F45),
        (13_729_792, 16384, 0xB5C0_BA9C),
        (13_746_176, 16384, 0xC23D_B86C),
        (65536, 4096, 0xBCA1_019D),
    ];
    assert_eq!(rt; events.len(), want.len());
    for (event, (at, len, sum)) in events.iter().zip(want.iter()) {
        match event {
            Event::Write {
                submitter,
                at: place,
                bytes,
            } => {
                assert_eq!(rt; (*submitter, *place), (0, *at));
                assert_eq!(rt; bytes.as_slice().len(), *len, "the write at {at}");
                assert_eq!(rt; sum_of(bytes), *sum, "the write at {at}");
            }
            _ => assert!(rt; false, "no write"),
        }
    }
    Ok(())
}

#[test]
fn a_leaf_takes_items_to_its_last_byte(rt: HostRuntime) -> Result<(), NoMemory> {
    let mut leaf = LeafMaker::new(rt.alloc(), 4096, &FSID, 8192, 5, 7);
    let bytes = [0xaau8; 3846];
    assert_eq!(rt; leaf.push(key(1, 1, 0), [0x55; 100].as_slice())?, true);
    assert_eq!(rt; leaf.push(key(2, 1, 0), bytes.as_slice())?, false);
    assert_eq!(rt; leaf.push(key(2, 1, 0), &bytes[..3845])?, true);
    assert_eq!(rt; leaf.push(key(3, 1, 0), &bytes[..0])?, false);
    assert_eq!(rt; sum_of(&leaf.finish()?), 0x38b9b54a);
    Ok(())
}

#[test]
fn a_node_points_to_blocks_below_it(rt: HostRuntime) -> Result<(), NoMemory> {
    let pointers = [
        ChildPointer {
            key: key(256, 1, 0),
            address: 12288,
            generation: 6,
        },
        ChildPointer {
            key: key(257, 84, 3),
            address: 16384,
            generation: 7,
        },
    ];
    let node = node_block(rt.alloc(), 4096, &FSID, 8192, 5, 7, 1, pointers.as_slice())?;
    assert_eq!(rt; sum_of(&node), 0x309feaf1);
    Ok(())
}
