//! Bytes that are no line.
use crate::tell;
use log_text::parse;
use std::process::Abort;

/// Other words.
static WORDS: &[u8] = b"\
# No words, or others.

\x20
\0
.
walk
walk 1
e
en
ends
i
ide
g 1
goo 1
g
swap 4000
keep
runin
1
1 go
# Capitals.
END
End
Go 1
GO 1
tick U
Tick u
wake Keys
panic Swap
drop 1 2 Plain
size 1 2 AT 3
# Line feeds and carriage returns are no part of a line.
end\r
# Another word than may stand there.
tick x
tick uk
tick 1
panic core
panic swaps
drop 1 2 keep
drop 1 2 stick
drop 1 2 stickyx
drop 1 2 3
size 1 40 kept
size 1 40 plain
size 1 40 in 1
size 1 40 1 at
fork 1 2 keep
fork 1 2 to 4000
image 1 2 keep
text 1 2 3 at 4000
text 1 2 3 4000 swap
exit 1 at 4000
exit 1 4000
in 1 at 2
out 1 swap 4000
# No such channel.
wake run
wake runinn
wake runi
wake key
wake keys.
wake keys.01
wake keys.x
wake shows
wake show.
wake show.-1
wake tout.0
wake wait
wake wait.
wake wait1
wake wait..1
wake wait.1.
wake wait.x
wake wait.01
wake wait.-1
wake wait.+1
wake read
wake read.
wake read.01
wake read.65536
wake write.
wake write.007
wake write.65536
wake write.-0
wake .1
wake 1
wake wait.256
wake disk
wake disk.
wake disk.01
wake disk.256
sleep 1 -50 disk.00
sleep 1 40 wait.00
sleep 1 1 reads.1
";

/// Other parts, or other than one space between them.
static PARTS: &[u8] = b"\
# Words are parted by one space, and nothing else stands before the first or after the last.
 end
end\x20
 go 1
go 1\x20
go  1
go\t1
go_1
go1
go 1 \0
go 1\0
boot 1200  0
boot  1200 0
boot 1200 0\x20
sleep 0 -100  runin
sleep 0 -100 runin\x20
size 1 40 at  1
exit 1  swap 4000
exit 1 swap 4000\x20
tick  u
panic swap\x20
# A word too few.
boot
boot 1200
go
trap
tick
sleep
sleep 1
sleep 1 2
wake
signal 1
nice 1
time
size 1
size 1 40
size 1 40 at
size 1 40 swap
fork 1 2
fork 1 2 at
fork 1 2 swap
drop 1
drop 1 2
bare
text 1 2 3
text 1 2 3 swap
text 1 2 swap 4000
share 1
image 1 2
image 1 2 at
in 1
out 1
exit 1
exit 1 swap
reap
panic
# A word too many.
boot 1200 0 0
go 1 2
idle 1
trap 1 1
tick u u
sleep 0 -100 runin 1
wake keys 1
wake wait 1
signal 1 2 3
nice 1 2 3
time 1 2
size 1 40 at 1 1
size 1 40 keep 1
fork 1 2 at 1 1
drop 1 2 plain sticky
bare 1 1
text 1 2 3 swap 4000 1
share 1 2 3
image 1 2 at 1 1
in 1 2 3
out 1 4000 1
exit 1 swap 4000 1
reap 1 1
panic swap 4000
end 0
end end
# Long lines: one of 80 bytes, of 81, and more.
go 00000000000000000000000000000000000000000000000000000000000000000000000000001
go 000000000000000000000000000000000000000000000000000000000000000000000000000001
end                                                                             \x20
wake read.11111111111111111111111111111111111111111111111111111111111111111111111
xxxxxxxxxxxxxxxxxxxxxxxxxxxxxxxxxxxxxxxxxxxxxxxxxxxxxxxxxxxxxxxxxxxxxxxxxxxxxxxxx
xxxxxxxxxxxxxxxxxxxxxxxxxxxxxxxxxxxxxxxxxxxxxxxxxxxxxxxxxxxxxxxxxxxxxxxxxxxxxxxxxxxxxxxxxxxxxxxxxxxxxxxxxxxxxx
";

/// Other numbers than a line may have, or other digits.
static NUMBERS: &[u8] = b"\
# No leading zeros, no plus, and a minus before a negative number alone.
go 00
go 01
go 007
go -0
go -1
go +1
go --1
go 1-
time 00
time 01
time -1
boot 01200 0
boot 1200 00
boot -1 0
boot 1200 +0
sleep 00 -100 runin
sleep 0 -0100 runin
sleep 0 -0 runin
sleep 0 +1 runin
sleep 0 00 runin
signal 1 02
nice 1 -0
nice 1 -00
nice 1 -01
nice 1 01
nice 1 +1
nice 1 --1
nice 1 -
nice 1 1-
size 1 040 at 1
size 1 40 at 01
size 1 40 swap 04000
size 01 40 keep
fork 1 02 at 1
drop 1 02 plain
text 1 2 03 swap 4000
share 1 00
image 1 02 at 1
in 1 01
out 1 04000
exit 01 swap 4000
reap 01
# Nothing but decimal digits.
go x
go 1x
go x1
go 0x1
go 1.
go 1.0
go 1,
go 1_0
go 1e1
go :
go /
go \xb9
go 1\xff
go \xd9\xa1
time ten
boot 1200 0s
nice 1 -x
sleep 1 x keys
# Numbers that no type of theirs holds.
go 256
go 257
go 4294967296
go 18446744073709551616
boot 65536 0
boot 1200 4294967296
boot 1200 99999999999
time 4294967296
time 18446744073709551615
nice 1 128
nice 1 -129
nice 1 255
nice 1 -256
nice 1 -340282366920938463463374607431768211457
sleep 1 128 keys
sleep 1 -129 keys
signal 1 257
size 1 65536 at 1
size 1 40 at 65536
size 1 40 swap 69536
size 1 65536 keep
fork 1 256 at 1
fork 1 2 at 65536
drop 1 256 plain
text 1 2 65536 swap 4000
image 1 65536 at 1
image 1 2 at 65536
in 1 65536
out 1 69536
exit 256 swap 4000
";

/// Line feeds are no part of a line.
static FEEDS: [&[u8]; 6] = [
    b"end\n",
    b"\n",
    b"\nend",
    b"go 1\n",
    b"go 1\ngo 2",
    b"idle\r\n",
];

/// Tells the first row of a text that is a line. A row that begins with `#` says something of those below it.
fn judge(rt: &impl Abort, rows: &[u8]) {
    for (k, row) in rows.split(|byte| *byte == b'\n').enumerate() {
        tell::plain_row(rt, k, row.starts_with(b"#") || parse(row).is_none());
    }
}

#[test]
fn other_words_are_no_line(rt: HostRuntime) {
    judge(&rt, WORDS);
}

#[test]
fn other_parts_are_no_line(rt: HostRuntime) {
    judge(&rt, PARTS);
}

#[test]
fn other_numbers_are_no_line(rt: HostRuntime) {
    judge(&rt, NUMBERS);
}

#[test]
fn line_feeds_are_in_no_line(rt: HostRuntime) {
    for (k, row) in FEEDS.iter().enumerate() {
        tell::plain_row(&rt, k, parse(row).is_none());
    }
}
