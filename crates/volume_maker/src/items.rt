//! The items of a tree, as they are gathered.

use image_maker::LeafItem;
use std::alloc::Global;
use verdict::{Bytes, Key, NoMemory};

/// Items of a tree, in any order.
#[derive(Drop)]
pub struct Items {
    alloc: Global,
    list: Vec<LeafItem>,
}

// One item after the other, as the entries of a DIR_ITEM stand.
fn joined(alloc: Global, front: &LeafItem, item: &LeafItem) -> Result<LeafItem, NoMemory> {
    let mut bytes = Vec::from_slice(alloc, front.bytes.as_slice())?;
    bytes.extend_from_slice(item.bytes.as_slice())?;
    Ok(LeafItem {
        key: item.key,
        bytes: Bytes::from(bytes),
    })
}

impl Items {
    /// No item yet.
    pub fn new(alloc: Global) -> Items {
        Items {
            alloc,
            list: Vec::new(alloc),
        }
    }

    /// Adds an item.
    pub fn add(
        &mut self,
        objectid: u64,
        kind: u8,
        offset: u64,
        bytes: Bytes,
    ) -> Result<(), NoMemory> {
        let key = Key {
            objectid,
            kind,
            offset,
        };
        let item = LeafItem { key, bytes };
        Ok(self.list.push(item)?)
    }

    /// The items in the order of their keys. Several of one key, which are entries of a directory whose
    /// names have one hash, are one item.
    pub fn finish(self) -> Result<Vec<LeafItem>, NoMemory> {
        let Items { alloc, mut list } = self;
        list.sort_by_key(|item| item.key)?;
        let mut items: Vec<LeafItem> = Vec::new(alloc);
        for item in list {
            let last = match items.pop() {
                None => item,
                Some(last) if last.key == item.key => joined(alloc, &last, &item)?,
                Some(last) => {
                    items.push(last)?;
                    item
                }
            };
            items.push(last)?;
        }
        Ok(items)
    }
}
