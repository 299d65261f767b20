//! Keys of the inodes of two disks, and the directory that the second one covers, by hand from docs/manual/names.md.
ghost use Rattle.std.specs.Prelude.{◌<◌};

use Step::{Cover, Covered, Cross, Uncover};
use mount_tab::Mounts;

/// How many inodes each disk has, a disk and a number there, and the key of that inode, or that there is none.
type Key = (u16, u16, u8, u16, Option<u16>);

static KEYS: [Key; 15] = [
    (16, 20, 0, 1, Some(1)),
    (16, 20, 0, 16, Some(16)),
    (16, 20, 1, 1, Some(17)),
    (16, 20, 1, 20, Some(36)),
    // Numbers that the other disk alone has, and numbers that none has.
    (16, 20, 0, 17, None),
    (16, 20, 1, 21, None),
    (16, 20, 0, 0, None),
    (16, 20, 1, 0, None),
    (20, 16, 1, 17, None),
    // Without a second disk.
    (16, 0, 0, 16, Some(16)),
    (16, 0, 0, 17, None),
    (16, 0, 1, 1, None),
    // The last key that there can be.
    (32_768, 32_767, 1, 1, Some(32_769)),
    (32_768, 32_767, 1, 32_767, Some(65_535)),
    (65_535, 0, 0, 65_535, Some(65_535)),
];

/// The key of a number, which leads back to it.
fn key_of(mounts: &Mounts, dev: u8, ino: u16) -> Option<u16>
    requires { dev < 2 }
{
    if !mounts.in_range(dev, ino) {
        return None;
    }
    let key = mounts.key(dev, ino);
    if mounts.split(key) == (dev, ino) {
        Some(key)
    } else {
        None
    }
}

fn has_key(row: &Key) -> bool {
    let (first, second, dev, ino, key) = *row;
    if u32::from(first) + u32::from(second) > 65_535 {
        return false;
    }
    if dev > 1 {
        return false;
    }
    let mounts = Mounts::new(first, second);
    key_of(&mounts, dev, ino) == key
}

#[test]
fn keys_lead_to_inodes_and_back(rt: HostRuntime) {
    for (k, row) in KEYS.iter().enumerate() {
        assert!(rt; has_key(row), "row {k}");
    }
}

/// A call, of which the answer is a key, or none.
#[derive(Clone, Copy)]
enum Step {
    Cross(u16),
    Cover(u16),
    Covered,
    Uncover,
}

fn does(mounts: &mut Mounts, step: Step) -> Option<u16> {
    match step {
        Cross(key) => Some(mounts.cross(key)),
        Cover(key) => covers(mounts, key),
        Covered => mounts.covered(),
        Uncover => match mounts.uncover() {
            Ok(key) => Some(key),
            Err(_) => None,
        },
    }
}

/// The directory that is covered now, unless there is no second disk or one is covered already.
fn covers(mounts: &mut Mounts, key: u16) -> Option<u16> {
    if !mounts.has_second() {
        return None;
    }
    match mounts.cover(key) {
        Ok(()) => mounts.covered(),
        Err(_) => None,
    }
}

/// Steps of two disks with 16 and 20 inodes, one after the other.
static COVERS: [(Step, Option<u16>); 15] = [
    (Covered, None),
    (Uncover, None),
    (Cross(7), Some(7)),
    (Cover(7), Some(7)),
    (Covered, Some(7)),
    // Who comes to it is at inode 1 of the second disk. Who comes there some other way stays there.
    (Cross(7), Some(17)),
    (Cross(17), Some(17)),
    (Cross(8), Some(8)),
    // One directory is covered at a time.
    (Cover(8), None),
    (Cover(7), None),
    (Covered, Some(7)),
    (Uncover, Some(7)),
    (Cross(7), Some(7)),
    (Uncover, None),
    (Cover(8), Some(8)),
];

/// The first step that answers something else.
fn first_wrong(first: u16, second: u16, steps: &[(Step, Option<u16>)]) -> Option<usize> {
    if u32::from(first) + u32::from(second) > 65_535 {
        return Some(0);
    }
    let mut mounts = Mounts::new(first, second);
    for (k, (step, answer)) in steps.iter().enumerate() {
        if does(&mut mounts, *step) != *answer {
            return Some(k);
        }
    }
    None
}

#[test]
fn one_directory_is_covered_at_a_time(rt: HostRuntime) {
    assert_eq!(rt; first_wrong(16, 20, &COVERS), None);
    assert_eq!(rt;
        first_wrong(16, 0, &[(Cover(7), None), (Cross(7), Some(7))]),
        None
    );
}
