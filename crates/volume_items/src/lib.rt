//! The readers of the items that describe the volume: the roots of the trees and their names, the
//! device, its chunks and its extents.
#![tactic(auto)]

mod chunk;
mod dev_extent;
mod device;
mod root;
mod root_at;
mod root_link;

pub use chunk::{ChunkItem, Stripe, Stripes, read_chunk};
pub use dev_extent::{DevExtent, read_dev_extent};
pub use device::{DeviceItem, read_device};
pub use root::{RootItem, read_root};
pub use root_at::RootAt;
pub use root_link::{RootLink, read_root_link};
