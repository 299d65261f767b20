//! The calls of section II on files.
#![tactic(auto)]

mod answers;
mod core_file;
mod creating;
mod descriptors;
mod devices;
mod entering;
mod files;
mod inodes;
mod linking;
mod making;
mod modes;
mod mounting;
mod moving;
mod names;
mod naming;
mod opening;
mod pipes;
mod piping;
mod status;

pub use crate::core_file::write_core;
pub use crate::creating::creat_file;
pub use crate::descriptors::{close_all, close_file, dup_file};
pub use crate::files::Files;
pub use crate::linking::{link_file, unlink_file};
pub use crate::making::mknod_at;
pub use crate::modes::{gtty_get, stty_set};
pub use crate::mounting::{mount_on, umount_off};
pub use crate::moving::{is_device_at, read_file, resume_file, seek_to, write_file};
pub use crate::names::{chdir_to, chmod_to, chown_to, sync_all};
pub use crate::opening::open_file;
pub use crate::pipes::Pipes;
pub use crate::piping::pipe_new;
pub use crate::status::{stat_file, stat_open};
