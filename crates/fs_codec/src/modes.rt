//! The mode word of an inode: file system(V), and inode.h in Lions' Commentary.
ghost use Rattle.std.specs.Prelude.{◌≡◌};
ghost use Rattle.fs_codec.specs.Modes.{file_type, is_directory, is_character_device, is_device, is_large, holds_blocks, has_execute_bit};

/// The inode is used.
pub const IALLOC: u16 = 0o100000;

/// The bits of the file's type, which are 0 for a plain file.
pub const IFMT: u16 = 0o060000;

/// The type of a directory.
pub const IFDIR: u16 = 0o040000;

/// The type of a character device.
pub const IFCHR: u16 = 0o020000;

/// The type of a block device.
pub const IFBLK: u16 = 0o060000;

/// The file is large: its addresses are those of indirect blocks.
pub const ILARG: u16 = 0o010000;

/// Who executes the file does so as its owner.
pub const ISUID: u16 = 0o004000;

/// Who executes the file does so in its group.
pub const ISGID: u16 = 0o002000;

/// The text of the program is kept on the swap area when nobody executes it.
pub const ISVTX: u16 = 0o001000;

/// The owner may read. The group's bit is this one shifted right by 3, and the others' by 6; so with the next two.
pub const IREAD: u16 = 0o000400;

/// The owner may write.
pub const IWRITE: u16 = 0o000200;

/// The owner may execute the file, or search the directory.
pub const IEXEC: u16 = 0o000100;

/// The type of a file: 0, `IFDIR`, `IFCHR` or `IFBLK`.
pub fn file_type(mode: u16) -> u16
    ensures { result ≡ file_type mode }
{
    mode & IFMT
}

/// Whether a file is a directory.
pub fn is_directory(mode: u16) -> bool
    ensures { result ≡ is_directory mode }
{
    file_type(mode) == IFDIR
}

/// Whether a file is a character device.
pub fn is_character_device(mode: u16) -> bool
    ensures { result ≡ is_character_device mode }
{
    file_type(mode) == IFCHR
}

/// Whether a file is a character device or a block device.
pub fn is_device(mode: u16) -> bool
    ensures { result ≡ is_device mode }
{
    file_type(mode) == IFCHR || file_type(mode) == IFBLK
}

/// Whether the blocks of a file are named by indirect blocks.
pub fn is_large(mode: u16) -> bool
    ensures { result ≡ is_large mode }
{
    mode & ILARG != 0
}

/// Whether an inode is used, and its addresses name blocks.
pub fn holds_blocks(mode: u16) -> bool
    ensures { result ≡ holds_blocks mode }
{
    mode != 0 && !is_device(mode)
}

/// Whether one of the three classes of users may execute the file, or search the directory.
pub fn has_execute_bit(mode: u16) -> bool
    ensures { result ≡ has_execute_bit mode }
{
    mode & (IEXEC | IEXEC >> 3 | IEXEC >> 6) != 0
}
