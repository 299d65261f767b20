//! The blocks of a disk through the cache: docs/manual/disk-image.md, "Blocks".
use buf_cache::{Cache, Disk};
use std::alloc::{AllocError, Global};

/// A disk whose first bytes are those of block 0 and three of block 1, with a write at the end of the last block, one
/// over the front of block 1, and one of no bytes.
fn changed(alloc: Global) -> Result<Cache, AllocError> {
    let mut cache = Cache::new(alloc, Disk::from_bytes(alloc, &[7; 515])?)?;
    cache.change(4871, 510, b"ab");
    cache.change(1, 1, b"xyz");
    cache.change(2, 512, b"");
    cache.sync();
    Ok(cache)
}

/// What must stand at places of blocks then.
static PLACES: [(u16, u16, u8); 12] = [
    (0, 0, 7),
    (0, 511, 7),
    (1, 0, 7),
    (1, 1, b'x'),
    (1, 2, b'y'),
    (1, 3, b'z'),
    (1, 4, 0),
    (2, 511, 0),
    (4870, 511, 0),
    (4871, 509, 0),
    (4871, 510, b'a'),
    (4871, 511, b'b'),
];

fn stands(cache: &mut Cache, place: (u16, u16, u8)) -> bool {
    let (block, at, byte) = place;
    block < 4872
        && at < 512
        && cache.on_disk(block)[at as usize] == byte
        && cache.block(block)[at as usize] == byte
}

fn all_stand(cache: &mut Cache, places: &[(u16, u16, u8)]) -> bool {
    for place in places {
        if !stands(cache, *place) {
            return false;
        }
    }
    true
}

#[test]
fn blocks_hold_what_was_written(rt: HostRuntime) {
    let mut cache = changed(rt.alloc()).expect(&rt, "memory");
    assert!(rt; all_stand(&mut cache, &PLACES));
}
