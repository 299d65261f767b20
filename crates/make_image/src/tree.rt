//! The files of the image: the directories, the two devices, `/etc/init` and the plain files of `/u`.
ghost use Rattle.std.specs.Prelude.{◌≡◌, ◌*◌, ◌%◌, ◌<◌, ◌≤◌, length, vec_len, IfOk, map};
ghost use Rattle.std.specs.List.{flat_map, range_with_len};
ghost use Rattle.make_image.specs.Adding.{Holds};
ghost use Rattle.fs_codec.specs.Bytes.{bytes_of, entry_bytes};
ghost use Rattle.make_image.specs.Files.{init, byte_of, size_of, fixed_nodes, nodes};
ghost use Rattle.make_image.specs.Files.{entry as entry_of, name_of, root as root_of, etc as etc_of, dev as dev_of, users as users_of};

use crate::bytes::{push_entry, push_words};
use crate::files::Files;
use fs_codec::{BLOCK_SIZE, DirEntry, IALLOC, IFDIR};
use std::alloc::{AllocError, Global};

/// The mode of a directory that all may read and search.
const DIRECTORY: u16 = IALLOC | IFDIR | 0o755;

/// The mode of a program that all may read and execute.
const PROGRAM: u16 = IALLOC | 0o755;

/// The mode of a file that all may read.
const PLAIN: u16 = IALLOC | 0o644;

/// The file `/etc/init`: the header of a.out(V) with 0156 bytes of text and 0144 of bss, and the text.
#[rattlefmt::skip]
const INIT: [u16; 63] = [
    0o000407, 0o000156, 0o000000, 0o000144, 0o000000, 0o000000, 0o000000, 0o000000,
    0o104405, 0o000134, 0o000002, 0o012704, 0o000003, 0o104402, 0o000442, 0o077403,
    0o012704, 0o000003, 0o104407, 0o060103, 0o077403, 0o000303, 0o062703, 0o000060,
    0o110337, 0o000152, 0o005000, 0o104404, 0o000146, 0o000006, 0o005000, 0o104404,
    0o000154, 0o000002, 0o005000, 0o104403, 0o000156, 0o000144, 0o005700, 0o001407,
    0o010037, 0o000112, 0o005000, 0o104404, 0o000156, 0o000000, 0o000757, 0o005000,
    0o104401, 0o012705, 0o001750, 0o077501, 0o010400, 0o104401, 0o062057, 0o073145,
    0o072057, 0o074564, 0o000070, 0o072563, 0o020155, 0o005000, 0o020045,
];

/// All files of build `n`.
pub fn files(alloc: Global, n: u32) -> Result<Files, AllocError>
    ensures nodes { IfOk result (λ f. Holds (nodes n) f) }
    ensures few { IfOk result (λ f. length f.inodes.items ≤ 32 * 106) }
    ensures small { IfOk result (λ f. length f.contents.items ≤ 4096 * 106) }
    ensures whole { IfOk result (λ f. length f.contents.items % BLOCK_SIZE ≡ 0) }
{
    let mut files = fixed_files(alloc, n)?;
    for k in 0..n % 100 {
        files.add_file(PLAIN, 1, &plain_file(alloc, n, k)?)?;
    }
    Ok(files)
}

/// The directories, the devices and `/etc/init`, in the order of inodes.
fn fixed_files(alloc: Global, n: u32) -> Result<Files, AllocError>
    ensures nodes { IfOk result (λ f. Holds (fixed_nodes n) f) }
    ensures few { IfOk result (λ f. length f.inodes.items ≤ 32 * 7) }
    ensures small { IfOk result (λ f. length f.contents.items ≤ 4096 * 7) }
{
    let mut files = Files::new(alloc);
    files.add_file(DIRECTORY, 5, &root(alloc)?)?;
    files.add_file(DIRECTORY, 2, &etc(alloc)?)?;
    files.add_file(DIRECTORY, 2, &dev(alloc)?)?;
    files.add_file(DIRECTORY, 2, &users(alloc, n % 100)?)?;
    files.add_device(0)?;
    files.add_device(2050)?;
    files.add_file(PROGRAM, 1, &program(alloc)?)?;
    Ok(files)
}

fn root(alloc: Global) -> Result<Vec<u8>, AllocError>
    ensures items { IfOk result (λ v. v.items ≡ flat_map entry_bytes root_of) }
    ensures small { IfOk result (λ v. vec_len v ≤ 4096) }
{
    directory(
        alloc,
        &[
            entry(1, b"."),
            entry(1, b".."),
            entry(2, b"etc"),
            entry(3, b"dev"),
            entry(4, b"u"),
        ],
    )
}

fn etc(alloc: Global) -> Result<Vec<u8>, AllocError>
    ensures items { IfOk result (λ v. v.items ≡ flat_map entry_bytes etc_of) }
    ensures small { IfOk result (λ v. vec_len v ≤ 4096) }
{
    directory(alloc, &[entry(2, b"."), entry(1, b".."), entry(7, b"init")])
}

fn dev(alloc: Global) -> Result<Vec<u8>, AllocError>
    ensures items { IfOk result (λ v. v.items ≡ flat_map entry_bytes dev_of) }
    ensures small { IfOk result (λ v. vec_len v ≤ 4096) }
{
    directory(
        alloc,
        &[
            entry(3, b"."),
            entry(1, b".."),
            entry(5, b"tty8"),
            entry(6, b"null"),
        ],
    )
}

/// `/u`, with so many files.
fn users(alloc: Global, count: u32) -> Result<Vec<u8>, AllocError>
    requires { count < 100 }
    ensures items { IfOk result (λ v. v.items ≡ flat_map entry_bytes (users_of count)) }
    ensures small { IfOk result (λ v. vec_len v ≤ 4096) }
{
    let mut bytes = directory(alloc, &[entry(4, b"."), entry(1, b"..")])?;
    for k in 0..count as u16 {
        push_entry(&mut bytes, &entry(8 + k, &name(k as u8)))?;
    }
    Ok(bytes)
}

/// The name of file `k` of `/u`.
fn name(k: u8) -> [u8; 3]
    requires { k < 100 }
    ensures { result ≡ name_of k }
{
    [b'f', b'0' + k / 10, b'0' + k % 10]
}

fn directory(alloc: Global, entries: &[DirEntry]) -> Result<Vec<u8>, AllocError>
    ensures items { IfOk result (λ v. v.items ≡ flat_map entry_bytes entries.now) }
    ensures len { IfOk result (λ v. vec_len v ≡ 16 * length entries.now) }
{
    let mut bytes = Vec::new(alloc);
    for entry in entries {
        push_entry(&mut bytes, entry)?;
    }
    Ok(bytes)
}

fn entry(ino: u16, name: &[u8]) -> DirEntry
    requires { length name.now ≤ 14 }
    ensures { result ≡ entry_of ino name.now }
{
    let mut field = [0; 14];
    field[..name.len()].copy_from_slice(name);
    DirEntry { ino, name: field }
}

fn program(alloc: Global) -> Result<Vec<u8>, AllocError>
    ensures items { IfOk result (λ v. v.items ≡ bytes_of init) }
    ensures small { IfOk result (λ v. vec_len v ≤ 4096) }
{
    let mut bytes = Vec::new(alloc);
    push_words(&mut bytes, &INIT)?;
    Ok(bytes)
}

/// What file `k` of build `n` holds.
fn plain_file(alloc: Global, n: u32, k: u32) -> Result<Vec<u8>, AllocError>
    requires { k < 100 }
    ensures items { IfOk result (λ v. v.items ≡ map (byte_of n k) (range_with_len 0 (size_of n k))) }
    ensures small { IfOk result (λ v. vec_len v ≤ 4096) }
{
    // in 64 bits, since 97 * n may be too large for 32
    let size = (331 * (u64::from(k) + 1) + 97 * u64::from(n)) % 3000;
    let first = u64::from(n) + u64::from(k);
    let mut bytes = Vec::with_capacity(alloc, size as usize)?;
    for i in 0..size {
        bytes.push(((first + i) % 256) as u8)?;
    }
    Ok(bytes)
}
