//! The disk and the keep of a store folder: the real devices of `mq_outside`'s traits.
#![tactic(auto)]

mod folder_bytes;
mod folder_clock;
mod folder_cut;
mod folder_disk;
mod folder_ended;
mod folder_files;
mod folder_keep;
mod folder_kinds;
mod folder_list;
mod folder_lock;
mod folder_mark;
mod folder_place;
mod folder_reader;
mod folder_renew;
mod folder_shrink;

pub use folder_disk::FolderDisk;
pub use folder_keep::FolderKeep;
pub use folder_reader::FolderReader;
