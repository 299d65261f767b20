//! The disk that a row's run begins with.
use crate::disk::{Disk, File};
use crate::row::Row;
use make_image::build;
use run_fixtures::{HI_BYTES, TEXT, hi_image, put};
use std::alloc::{AllocError, Global};

/// Where the size of an inode stands, of which inode 1 is the first, and where that of `/etc/init` does, inode 7.
const INODES: usize = 1024;

const INODE_BYTES: usize = 32;

const SIZE: usize = 6;

const INIT_SIZE: usize = 1222;

/// The header of `/etc/init` has the bytes of text at its second word, and those of data and bss behind it.
const HEADER_BYTES: usize = 16;

const INIT_SIZES: usize = 33794;

const BLOCK_BYTES: usize = 512;

/// The low word of a number of bytes.
fn size_word(bytes: usize) -> [u8; 2] {
    let [low, high, ..] = bytes.to_le_bytes();
    [low, high]
}

/// A program in the place of `/etc/init`, on the disk of `examples/hi` or on one of the generator's.
fn put_program(image: &mut [u8], text: &[u8]) {
    let size = size_word(text.len().saturating_add(HEADER_BYTES));
    let count = size_word(text.len());
    put(image, &[(INIT_SIZE, size.as_slice())]);
    put(image, &[(INIT_SIZES, count.as_slice())]);
    put(image, &[(INIT_SIZES + 2, b"\0\0\0\0")]);
    put(image, &[(TEXT, text)]);
}

/// A file: the size in its inode, and its bytes from the beginning of a block on.
fn put_file(image: &mut [u8], file: &File) {
    let inode = file.inode.saturating_sub(1).saturating_mul(INODE_BYTES);
    let at = inode.saturating_add(INODES + SIZE);
    let size = size_word(file.bytes.len());
    put(image, &[(at, size.as_slice())]);
    put(
        image,
        &[(
            file.block.saturating_mul(BLOCK_BYTES),
            file.bytes.as_slice(),
        )],
    );
}

/// The row's program: its three parts, filled up with zeros.
fn program_of(alloc: Global, row: &Row) -> Result<Vec<u8>, AllocError> {
    let mut text = Vec::new(alloc);
    text.extend_from_slice(&row.before)?;
    text.extend_from_slice(&row.init)?;
    text.extend_from_slice(&row.after)?;
    if text.len() < row.numbers.fill {
        text.resize(row.numbers.fill, 0)?;
    }
    Ok(text)
}

/// The disk before anything is put on it.
fn base_of(alloc: Global, disk: &Disk) -> Result<Vec<u8>, AllocError> {
    match disk.made {
        Some(number) => build(alloc, u32::try_from(number).unwrap_or(u32::MAX)),
        None => hi_image(alloc, disk.size.unwrap_or(HI_BYTES), &[]),
    }
}

/// The files of a disk, and what else is put on it.
fn put_all(image: &mut [u8], disk: &Disk) {
    for file in disk.files.iter() {
        put_file(image, file);
    }
    for piece in disk.pieces.iter() {
        put(image, &[(piece.at, piece.bytes.as_slice())]);
    }
}

/// The image of the row's disk, with its program.
pub fn image_of(alloc: Global, row: &Row) -> Result<Vec<u8>, AllocError> {
    let mut image = base_of(alloc, &row.disk)?;
    if row.has_program {
        put_program(&mut image, &program_of(alloc, row)?);
    }
    put_all(&mut image, &row.disk);
    Ok(image)
}

/// The image of a disk that has no program of the row's.
pub fn plain_image(alloc: Global, disk: &Disk) -> Result<Vec<u8>, AllocError> {
    let mut image = base_of(alloc, disk)?;
    put_all(&mut image, disk);
    Ok(image)
}
