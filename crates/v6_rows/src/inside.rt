//! A kernel that is looked into between two turns: docs/manual/memory.md.
ghost use Rattle.std.specs.Prelude.{◌≡◌, ◌≤◌, ◌<◌, true, IfOk, IfSome};
ghost use Rattle.abstract_unix.specs.Unix.{New, Started, Finished};

use make_image::build;
use run_fixtures::{Piece, put};
use std::alloc::{AllocError, Global};
use std::test::Fail;
use unix_core::{Kernel, Turned};
use v6_base::{Entry, Place, Tape};

/// `/etc/init` of a made disk, as a program that makes `/d` and writes the 512 bytes from address 0 on to it, forty times:
/// `creat`, `mov $50,r2`, then `clr r0`, `write`, `dec r2` and `bne` back to `clr`; and then it branches to itself. Behind its
/// 28 bytes of text it has 512 of bss.
const FORTY: [Piece<'static>; 1] = [(
    33_792,
    b"\x07\x01\x1c\0\0\0\0\x02\0\0\0\0\0\0\0\0\
\x08\x89\x18\0\xb6\x01\xc2\x15\x28\0\0\x0a\x04\x89\0\0\0\x02\xc2\x0a\xfa\x02\xff\x01/d\0\0",
)];

/// `/etc/init` as a program that goes round three words for ever: `inc r1`, `mov (sp),r3`, and a branch back.
const ROUND: [Piece<'static>; 1] = [(
    33_792,
    b"\x07\x01\x06\0\0\0\0\0\0\0\0\0\0\0\0\0\x81\x0a\x83\x13\xfd\x01",
)];

/// `/etc/init` as a program that makes `/d`, writes the 512 bytes from address 0 on to it, and forks; then parent and child
/// branch to themselves: `creat`, `write`, `fork`, `br .`, `br .`. Behind its 22 bytes of text it has 512 of bss.
const FORKS: [Piece<'static>; 1] = [(
    33_792,
    b"\x07\x01\x16\0\0\0\0\x02\0\0\0\0\0\0\0\0\
\x08\x89\x12\0\xb6\x01\x04\x89\0\0\0\x02\x02\x89\xff\x01\xff\x01/d\0\0",
)];

/// The word at the address 0 of the first and of the last of these.
const FIRST_WORD: &[u8] = b"\x08\x89";

/// The most slots that may have been taken before one more.
const MOST_PASSED: u32 = 3_000_000_000;

/// The kernel of a made disk with these pieces and so many clicks of core, before its start.
fn kernel_of(alloc: Global, pieces: &[Piece<'_>], core: u16) -> Result<Option<Kernel>, AllocError>
    requires least { 64 ≤ core }
    requires most { core ≤ 3968 }
    ensures { IfOk result (λ some. IfSome some (λ kernel. kernel.phase ≡ New)) }
{
    let mut image = build(alloc, 0)?;
    put(&mut image, pieces);
    match Kernel::boot(alloc, &image, core) {
        Ok(kernel) => Ok(Some(kernel)),
        Err(_) => Ok(None),
    }
}

/// Takes so many slots: false where one comes to a panic.
fn runs(kernel: &mut Kernel, count: u32, tape: &mut Tape) -> bool
    requires { kernel.old.phase ≡ Started }
    ensures { result ≡ true → kernel.new.phase ≡ Started }
{
    'slots: for _ in 0..count {
        if kernel.passed() > MOST_PASSED {
            return false;
        }
        match kernel.turn(tape) {
            Turned::Ran | Turned::Idle => {}
            Turned::Panic(_) => return false,
        }
    }
    true
}

/// Takes so many slots, each with a tick behind it: false where something comes to a panic.
fn runs_with_ticks(kernel: &mut Kernel, count: u32, tape: &mut Tape) -> bool
    requires { kernel.old.phase ≡ Started }
    ensures { result ≡ true → kernel.new.phase ≡ Started }
{
    'slots: for _ in 0..count {
        if kernel.passed() > MOST_PASSED {
            return false;
        }
        match kernel.turn(tape) {
            Turned::Ran | Turned::Idle => {}
            Turned::Panic(_) => return false,
        }
        match kernel.tick(tape) {
            Ok(()) => {}
            Err(_) => return false,
        }
    }
    true
}

/// Puts a byte to a place of core.
fn deposit(kernel: &mut Kernel, at: u32, b: u8) -> bool
    requires { kernel.old.phase ≡ Started }
    ensures { kernel.new.phase ≡ Started }
{
    if at as usize >= kernel.core().len() {
        return false;
    }
    kernel.deposit(false, at, b)
}

/// The byte of core at a place.
fn byte_at(kernel: &Kernel, at: u32) -> Option<u8> {
    if at as usize >= kernel.core().len() {
        return None;
    }
    Some(kernel.core_byte(at))
}

/// How many blocks of files the disk has that begin with that word.
fn written(kernel: &Kernel) -> u16 {
    let mut count: u16 = 0;
    for n in 62..4000 {
        if kernel.disk_block(n).starts_with(FIRST_WORD) {
            count = count.saturating_add(1);
        }
    }
    count
}

/// After the start byte 0 of core is one of the u area, and takes none. Byte 1037 is the second one of the name with which
/// process 1 begins, which is then `/xtc/init`. There is no such file: its first turn is an exec that fails, with error 2 in
/// R0, the first word of the u area.
fn executes_what_was_put(alloc: Global) -> Result<bool, AllocError> {
    let mut tape = Tape::new(alloc, 64, 64)?;
    let Some(mut kernel) = kernel_of(alloc, &[], 1200)? else {
        return Ok(false);
    };
    kernel.start(&mut tape);
    tape.clear();
    let refused = !deposit(&mut kernel, 0, 1);
    let put = deposit(&mut kernel, 1037, 120);
    if kernel.passed() > MOST_PASSED {
        return Ok(false);
    }
    let ran = kernel.turn(&mut tape) == Turned::Ran;
    let logged = tape.entries() == [Entry::Trap(1), Entry::Go(1)].as_slice();
    Ok(refused && put && ran && logged && byte_at(&kernel, 0) == Some(2))
}

/// A process goes on with the bytes on which it stands. Its first turn is an exec, and six more go round twice: R1, in the
/// bytes 2 and 3 of its u area, is 2, and R3, at 6, the number of arguments, 1. Then byte 1024 makes its first word `inc r2`,
/// and byte 2352 the number 7; byte 2 takes none. When it has gone round twice more R1 is 2, R2 is 2 and R3 is 7.
fn goes_on_with_what_was_put(alloc: Global) -> Result<bool, AllocError> {
    let mut tape = Tape::new(alloc, 64, 64)?;
    let Some(mut kernel) = kernel_of(alloc, &ROUND, 1200)? else {
        return Ok(false);
    };
    kernel.start(&mut tape);
    if !runs(&mut kernel, 7, &mut tape) {
        return Ok(false);
    }
    let before = [byte_at(&kernel, 2), byte_at(&kernel, 6)] == [Some(2), Some(1)];
    let put = deposit(&mut kernel, 1024, 0x82) && deposit(&mut kernel, 2352, 7);
    let refused = !deposit(&mut kernel, 2, 9);
    if !runs(&mut kernel, 6, &mut tape) {
        return Ok(false);
    }
    let after = [
        byte_at(&kernel, 2),
        byte_at(&kernel, 4),
        byte_at(&kernel, 6),
    ];
    Ok(before && put && refused && after == [Some(2), Some(2), Some(7)])
}

/// Of the forty blocks that are written there are some on the disk before the run is finished, and some not, as fifteen
/// buffers keep the latest; after it all are.
fn writes_late(alloc: Global) -> Result<bool, AllocError> {
    let mut tape = Tape::new(alloc, 64, 64)?;
    let Some(mut kernel) = kernel_of(alloc, &FORTY, 1200)? else {
        return Ok(false);
    };
    kernel.start(&mut tape);
    if !runs(&mut kernel, 300, &mut tape) {
        return Ok(false);
    }
    let before = written(&kernel);
    kernel.finish();
    Ok(25 <= before && before <= 39 && written(&kernel) == 40)
}

/// Whether block `n` of the swap area has the bytes that are looked at there one by one.
fn is_of_the_swap_area(kernel: &Kernel, n: u16) -> bool
    requires from { 4000 ≤ n }
    requires to { n < 4872 }
{
    let block = kernel.disk_block(n);
    for k in 0..512 {
        if block[k as usize] != kernel.swap_byte(512 * u32::from(n - 4000) + k) {
            return false;
        }
    }
    true
}

/// Whether all blocks of the swap area have these bytes.
fn are_of_the_swap_area(kernel: &Kernel) -> bool {
    for n in 4000..4872 {
        if !is_of_the_swap_area(kernel, n) {
            return false;
        }
    }
    true
}

/// Whether each block of a disk is looked at as the one that is left.
fn are_final(kernel: &Kernel) -> bool
    requires { kernel.now.phase ≡ Finished }
{
    for n in 0..4872 {
        if kernel.disk_block(n) != kernel.final_block(n) {
            return false;
        }
    }
    true
}

/// Whether these bytes stand at this byte of the swap area.
fn stands_out_of_core(kernel: &Kernel, at: usize, bytes: &[u8]) -> bool {
    match kernel.swap().get(at..at.saturating_add(bytes.len())) {
        Some(part) => part == bytes,
        None => false,
    }
}

/// An image has 45 clicks, six blocks. In a core of 64 clicks the child finds no room: it stands at block 4000. When it has
/// been out for three seconds slot 1 goes to block 4006, and the child comes in. So in the swap area there is the child as it
/// was made, of parent 1, its PC at 14, which nobody has any more; and the parent of child 2, its PC at 16. `/d` has its block
/// on the disk when the run is finished, and not before.
fn looks_at_what_is_left(alloc: Global) -> Result<bool, AllocError> {
    let mut tape = Tape::new(alloc, 64, 64)?;
    let Some(mut kernel) = kernel_of(alloc, &FORKS, 64)? else {
        return Ok(false);
    };
    kernel.start(&mut tape);
    if !runs_with_ticks(&mut kernel, 240, &mut tape) {
        return Ok(false);
    }
    let moved = kernel.place(1) == Some(Place::Swap(4006))
        && kernel.place(2) == Some(Place::Core(1));
    let before = moved && are_of_the_swap_area(&kernel) && written(&kernel) == 0;
    kernel.finish();
    let parts = stands_out_of_core(&kernel, 0, b"\x01\0")
        && stands_out_of_core(&kernel, 12, b"\xf0\xff\x0e\0")
        && stands_out_of_core(&kernel, 3072, b"\x02\0")
        && stands_out_of_core(&kernel, 3084, b"\xf0\xff\x10\0")
        && stands_out_of_core(&kernel, 3096, b"\0\0\x09\0\x14\0")
        && stands_out_of_core(&kernel, 4096, b"\x08\x89\x12\0\xb6\x01\x04\x89");
    let after = are_final(&kernel) && are_of_the_swap_area(&kernel) && written(&kernel) == 1;
    Ok(before && parts && after)
}

#[test]
fn each_block_is_looked_at_as_the_one_that_is_left(rt: HostRuntime) -> Result<(), Fail> {
    assert!(rt; looks_at_what_is_left(rt.alloc())?);
    Ok(())
}

#[test]
fn a_byte_that_is_put_into_core_is_the_process_s(rt: HostRuntime) -> Result<(), Fail> {
    assert!(rt; executes_what_was_put(rt.alloc())?);
    Ok(())
}

#[test]
fn a_process_goes_on_with_a_byte_that_is_put_where_it_stands(rt: HostRuntime) -> Result<(), Fail> {
    assert!(rt; goes_on_with_what_was_put(rt.alloc())?);
    Ok(())
}

#[test]
fn buffers_keep_the_latest_blocks_from_the_disk(rt: HostRuntime) -> Result<(), Fail> {
    assert!(rt; writes_late(rt.alloc())?);
    Ok(())
}
