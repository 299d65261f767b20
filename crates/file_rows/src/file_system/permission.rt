//! Who may do what, by hand from docs/manual/names.md, which is access of Lions' Commentary and chmod(II).
use crate::file_system::names_disk::{GROUP, OTHER, OWNER, SUPER, inode_at, names_disk, open_tree};
use Want::{Execute, Read, Write};
use fs_tree::{User, Want};
use std::alloc::{AllocError, Global};
use v6_base::Errno;

/// The owner, who is in the group too.
const BOTH: User = User { uid: 1, gid: 2 };

/// User 0 in the group.
const SUPER_IN_GROUP: User = User { uid: 0, gid: 2 };

/// The nine bits of inode 3, which is user 1's and group 2's; a user; what that one wants; and whether that one may.
type Row = (u16, User, Want, bool);

static ROWS: [Row; 32] = [
    // User 0 may read and write, and execute where one of the three bits is set.
    (0o000, SUPER, Read, true),
    (0o000, SUPER, Write, true),
    (0o000, SUPER, Execute, false),
    (0o666, SUPER, Execute, false),
    (0o100, SUPER, Execute, true),
    (0o010, SUPER, Execute, true),
    (0o001, SUPER, Execute, true),
    (0o707, SUPER_IN_GROUP, Read, true),
    (0o100, SUPER_IN_GROUP, Execute, true),
    // The owner has the first three bits, also where that one is in the group.
    (0o400, OWNER, Read, true),
    (0o377, OWNER, Read, false),
    (0o200, OWNER, Write, true),
    (0o577, OWNER, Write, false),
    (0o100, OWNER, Execute, true),
    (0o677, OWNER, Execute, false),
    (0o077, BOTH, Read, false),
    (0o077, BOTH, Write, false),
    (0o077, BOTH, Execute, false),
    (0o700, BOTH, Execute, true),
    // The group has the next three.
    (0o040, GROUP, Read, true),
    (0o737, GROUP, Read, false),
    (0o020, GROUP, Write, true),
    (0o757, GROUP, Write, false),
    (0o010, GROUP, Execute, true),
    (0o767, GROUP, Execute, false),
    // The others have the last three.
    (0o004, OTHER, Read, true),
    (0o773, OTHER, Read, false),
    (0o002, OTHER, Write, true),
    (0o775, OTHER, Write, false),
    (0o001, OTHER, Execute, true),
    (0o776, OTHER, Execute, false),
    (0o770, OTHER, Execute, false),
];

/// A user of group 0 who isn't user 0.
const IN_GROUP_0: User = User { uid: 9, gid: 0 };

/// The same where inode 3 is user 1's and group 0's. Group 0 is a group like others: it is user 0 alone who may do all.
static OF_GROUP_0: [Row; 9] = [
    (0o040, IN_GROUP_0, Read, true),
    (0o737, IN_GROUP_0, Read, false),
    (0o020, IN_GROUP_0, Write, true),
    (0o757, IN_GROUP_0, Write, false),
    (0o010, IN_GROUP_0, Execute, true),
    (0o767, IN_GROUP_0, Execute, false),
    // Nor is it the group of all others.
    (0o070, OTHER, Read, false),
    (0o004, OTHER, Read, true),
    (0o000, SUPER, Write, true),
];

/// Whether a row holds where inode 3 is of this group.
fn holds(alloc: Global, group: u16, row: &Row) -> Result<bool, AllocError> {
    let (bits, user, want, may) = *row;
    let image = names_disk(&[
        (inode_at(3), 0o100000 | bits),
        (inode_at(3).wrapping_add(4), group),
    ]);
    let Some(tree) = open_tree(alloc, &image, 3, 0)? else {
        return Ok(false);
    };
    if tree.nodes.refs(3) == 0 {
        return Ok(false);
    }
    let wanted = if may { Ok(()) } else { Err(Errno::EACCES) };
    Ok(tree.access(3, user, want) == wanted)
}

#[test]
fn the_first_class_that_fits_counts(rt: HostRuntime) {
    for (k, row) in ROWS.iter().enumerate() {
        assert!(rt; holds(rt.alloc(), 2, row).expect(&rt, "memory"), "row {k}");
    }
}

#[test]
fn group_0_is_a_group_like_others(rt: HostRuntime) {
    for (k, row) in OF_GROUP_0.iter().enumerate() {
        assert!(rt; holds(rt.alloc(), 0, row).expect(&rt, "memory"), "row {k}");
    }
}
