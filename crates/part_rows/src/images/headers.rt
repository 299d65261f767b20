//! The headers of programs: a.out(V) of the manual. A header is eight words, the low byte of each first: the magic
//! number, the sizes of the text, of the data and of the bss, the size of the symbol table, the entry, a word without
//! use, a flag.
use crate::tell;
use aout_head::ExecFault::{NotExecutable, Separate};
use aout_head::{ExecFault, Plan, plan};

/// A header byte by byte, and the sizes of text, of data in the file and of bss; or why it is no program's.
type Row = (&'static [u8; 16], Result<(u16, u32, u16), ExecFault>);

/// 0407 is the byte 7 and then 1, 0410 is 8 and 1, and 0411 is 9 and 1.
static PROGRAMS: [Row; 23] = [
    // 040 bytes of text and nothing else.
    (b"\x07\x01\x20\0\0\0\0\0\0\0\0\0\0\0\0\0", Ok((0, 32, 0))),
    (b"\x07\x01\0\0\x20\0\0\0\0\0\0\0\0\0\0\0", Ok((0, 32, 0))),
    (b"\x07\x01\0\0\0\0\x20\0\0\0\0\0\0\0\0\0", Ok((0, 0, 32))),
    (b"\x07\x01\0\0\0\0\0\0\0\0\0\0\0\0\0\0", Ok((0, 0, 0))),
    // Each byte is different: 2 + 256 is the text, 4 + 3 * 256 the data, 6 + 5 * 256 the bss.
    (
        b"\x07\x01\x02\x01\x04\x03\x06\x05\x08\x07\x0a\x09\x0c\x0b\x0e\x0d",
        Ok((0, 1030, 1286)),
    ),
    (
        b"\x08\x01\x02\x01\x04\x03\x06\x05\x08\x07\x0a\x09\x0c\x0b\x0e\x0d",
        Ok((258, 772, 1286)),
    ),
    // The example of docs/manual/a-out.md.
    (
        b"\x07\x01\x6e\0\x28\x01\x64\0\0\0\0\0\0\0\0\0",
        Ok((0, 406, 100)),
    ),
    (
        b"\x08\x01\x6e\0\x28\x01\x64\0\0\0\0\0\0\0\0\0",
        Ok((110, 296, 100)),
    ),
    // A size in a high byte alone.
    (
        b"\x07\x01\0\x01\0\x02\0\x04\0\0\0\0\0\0\0\0",
        Ok((0, 768, 1024)),
    ),
    (
        b"\x08\x01\0\x01\0\x02\0\x04\0\0\0\0\0\0\0\0",
        Ok((256, 512, 1024)),
    ),
    // Text and data together below 65,536 bytes, just so many, more, and the most.
    (
        b"\x07\x01\xff\x7f\0\x80\0\0\0\0\0\0\0\0\0\0",
        Ok((0, 65_535, 0)),
    ),
    (
        b"\x07\x01\0\x80\0\x80\0\0\0\0\0\0\0\0\0\0",
        Ok((0, 65_536, 0)),
    ),
    (
        b"\x07\x01\x01\0\xff\xff\xff\xff\0\0\0\0\0\0\0\0",
        Ok((0, 65_536, 65_535)),
    ),
    (
        b"\x07\x01\x40\x9c\x50\xc3\x01\0\0\0\0\0\0\0\0\0",
        Ok((0, 90_000, 1)),
    ),
    (
        b"\x07\x01\xff\xff\xff\xff\0\0\0\0\0\0\0\0\0\0",
        Ok((0, 131_070, 0)),
    ),
    (
        b"\x07\x01\xff\xff\xff\xff\xff\xff\xff\xff\xff\xff\xff\xff\xff\xff",
        Ok((0, 131_070, 65_535)),
    ),
    // A shared text, which may be empty.
    (b"\x08\x01\x20\0\0\0\0\0\0\0\0\0\0\0\0\0", Ok((32, 0, 0))),
    (b"\x08\x01\0\0\x20\0\0\0\0\0\0\0\0\0\0\0", Ok((0, 32, 0))),
    (b"\x08\x01\0\0\0\0\x20\0\0\0\0\0\0\0\0\0", Ok((0, 0, 32))),
    (b"\x08\x01\0\0\0\0\0\0\0\0\0\0\0\0\0\0", Ok((0, 0, 0))),
    (
        b"\x08\x01\xff\xff\x01\0\x01\0\0\0\0\0\0\0\0\0",
        Ok((65_535, 1, 1)),
    ),
    (
        b"\x08\x01\x01\0\xff\xff\xff\xff\0\0\0\0\0\0\0\0",
        Ok((1, 65_535, 65_535)),
    ),
    // The other words say nothing here, also an entry that isn't 0.
    (
        b"\x08\x01\x03\0\x05\0\x07\0\xff\xff\xff\xff\xff\xff\xff\xff",
        Ok((3, 5, 7)),
    ),
];

static REFUSED: [Row; 22] = [
    // 0411, whatever its sizes are.
    (b"\x09\x01\x20\0\0\0\0\0\0\0\0\0\0\0\0\0", Err(Separate)),
    (b"\x09\x01\0\0\x20\0\x20\0\0\0\0\0\0\0\0\0", Err(Separate)),
    (b"\x09\x01\0\0\0\0\0\0\0\0\0\0\0\0\0\0", Err(Separate)),
    (
        b"\x09\x01\xff\xff\xff\xff\xff\xff\xff\xff\xff\xff\xff\xff\xff\xff",
        Err(Separate),
    ),
    // The numbers beside: 0406 and 0412, and 0405.
    (
        b"\x06\x01\x20\0\0\0\0\0\0\0\0\0\0\0\0\0",
        Err(NotExecutable),
    ),
    (
        b"\x0a\x01\x20\0\0\0\0\0\0\0\0\0\0\0\0\0",
        Err(NotExecutable),
    ),
    (
        b"\x05\x01\x20\0\0\0\0\0\0\0\0\0\0\0\0\0",
        Err(NotExecutable),
    ),
    // No number, and the greatest.
    (b"\0\0\0\0\0\0\0\0\0\0\0\0\0\0\0\0", Err(NotExecutable)),
    (
        b"\xff\xff\xff\xff\xff\xff\xff\xff\xff\xff\xff\xff\xff\xff\xff\xff",
        Err(NotExecutable),
    ),
    // The bytes the other way round.
    (
        b"\x01\x07\0\x20\0\0\0\0\0\0\0\0\0\0\0\0",
        Err(NotExecutable),
    ),
    (
        b"\x01\x08\0\x20\0\0\0\0\0\0\0\0\0\0\0\0",
        Err(NotExecutable),
    ),
    (
        b"\x01\x09\0\x20\0\0\0\0\0\0\0\0\0\0\0\0",
        Err(NotExecutable),
    ),
    // The low byte alone, and with another high one.
    (b"\x07\0\x20\0\0\0\0\0\0\0\0\0\0\0\0\0", Err(NotExecutable)),
    (b"\x08\0\x20\0\0\0\0\0\0\0\0\0\0\0\0\0", Err(NotExecutable)),
    (b"\x09\0\x20\0\0\0\0\0\0\0\0\0\0\0\0\0", Err(NotExecutable)),
    (
        b"\x07\x02\x20\0\0\0\0\0\0\0\0\0\0\0\0\0",
        Err(NotExecutable),
    ),
    (
        b"\x08\x81\x20\0\0\0\0\0\0\0\0\0\0\0\0\0",
        Err(NotExecutable),
    ),
    (
        b"\x09\xff\x20\0\0\0\0\0\0\0\0\0\0\0\0\0",
        Err(NotExecutable),
    ),
    // 407 and 410 as decimal numbers.
    (
        b"\x97\x01\x20\0\0\0\0\0\0\0\0\0\0\0\0\0",
        Err(NotExecutable),
    ),
    (
        b"\x9a\x01\x20\0\0\0\0\0\0\0\0\0\0\0\0\0",
        Err(NotExecutable),
    ),
    // The number in another word, and a line of text.
    (
        b"\0\0\x07\x01\x08\x01\x07\x01\0\0\0\0\0\0\0\0",
        Err(NotExecutable),
    ),
    (b"echo hello world", Err(NotExecutable)),
];

fn header_holds(row: Row) -> bool {
    let (head, parts) = row;
    match (plan(head), parts) {
        (Ok(Plan { text, init, bss }), Ok(sizes)) => (text, init, bss) == sizes,
        (Err(fault), Err(expected)) => fault == expected,
        _ => false,
    }
}

#[test]
fn headers_are_programs(rt: HostRuntime) {
    for (n, row) in PROGRAMS.iter().enumerate() {
        tell::plain_row(&rt, n, header_holds(*row));
    }
}

#[test]
fn headers_are_refused(rt: HostRuntime) {
    for (n, row) in REFUSED.iter().enumerate() {
        tell::plain_row(&rt, n, header_holds(*row));
    }
}
