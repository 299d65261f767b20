//! What is written of an entry.
ghost use Rattle.std.specs.Prelude.{◌≡◌, ◌≤◌, ◌+◌, ◌++◌, [], ◌∷◌, ◌<◌, length};
ghost use Rattle.std.specs.Fmt.{decimal, signed_decimal};
ghost use Rattle.arrayvec.specs.ArrayVec.{array_vec_len};
ghost use Rattle.v6_base.specs.LogLine.{spaced, channel, place_words, entry_line};

use arrayvec::ArrayVec;
use v6_base::{Chan, Entry, PanicKind, Place, Slot};

/// The bytes of a line without its line feed, of which there are at most 80.
pub type Text = ArrayVec<u8, 80>;

/// The bytes of a line with its line feed, of which there are at most 81.
pub type Line = ArrayVec<u8, 81>;

/// Adds the digits of a number, the highest first.
fn add_long(line: &mut Line, number: u32)
    requires { array_vec_len line.old + length (decimal number) ≤ 80 }
    ensures { line.new.items ≡ line.old.items ++ decimal number }
{
    if number < 10 {
        line.push(b'0' + number as u8);
    } else {
        add_long(line, number / 10);
        line.push(b'0' + (number % 10) as u8);
    }
}

/// The same. Most numbers have one digit, which is added without a call.
#[inline(always)]
fn add_digits(line: &mut Line, number: u32)
    requires { array_vec_len line.old + length (decimal number) ≤ 80 }
    ensures { line.new.items ≡ line.old.items ++ decimal number }
{
    if number < 10 {
        line.push(b'0' + number as u8);
    } else {
        add_long(line, number);
    }
}

/// Adds a space and a number.
fn add_number(line: &mut Line, number: u32)
    requires { array_vec_len line.old ≤ 69 }
    ensures items { line.new.items ≡ line.old.items ++ 0o040 ∷ decimal number }
    ensures len { array_vec_len line.new ≤ array_vec_len line.old + 11 }
{
    line.push(b' ');
    add_digits(line, number);
}

/// Adds a space and a number that may be negative.
fn add_signed(line: &mut Line, number: i8)
    requires { array_vec_len line.old ≤ 68 }
    ensures items { line.new.items ≡ line.old.items ++ 0o040 ∷ signed_decimal number }
    ensures len { array_vec_len line.new ≤ array_vec_len line.old + 12 }
{
    let magnitude = u32::from(number.unsigned_abs());
    if number < 0 {
        line.push(b' ');
        line.push(b'-');
        add_digits(line, magnitude);
    } else {
        add_number(line, magnitude);
    }
}

/// Adds bytes.
fn add(line: &mut Line, bytes: &[u8])
    requires { array_vec_len line.old + length bytes.now ≤ 80 }
    ensures { line.new.items ≡ line.old.items ++ bytes.now }
{
    for byte in bytes {
        line.push(*byte);
    }
}

/// Adds a space and a word.
fn add_word(line: &mut Line, word: &[u8])
    requires { array_vec_len line.old + length word.now < 80 }
    ensures { line.new.items ≡ line.old.items ++ 0o040 ∷ word.now }
{
    line.push(b' ');
    add(line, word);
}

/// The first word of a line.
fn begin(line: &mut Line, kind: &[u8])
    requires empty { line.old.items ≡ [] }
    requires kind { length kind.now ≤ 6 }
    ensures { line.new.items ≡ kind.now }
{
    add(line, kind);
}

/// A line of two words.
fn words(line: &mut Line, kind: &[u8], other: &[u8])
    requires empty { line.old.items ≡ [] }
    requires kind { length kind.now ≤ 6 }
    requires other { length other.now ≤ 6 }
    ensures items { line.new.items ≡ spaced (kind.now ∷ other.now ∷ []) }
    ensures len { array_vec_len line.new ≤ 80 }
{
    begin(line, kind);
    add_word(line, other);
}

/// A line with one number.
fn one(line: &mut Line, kind: &[u8], number: u32)
    requires empty { line.old.items ≡ [] }
    requires kind { length kind.now ≤ 6 }
    ensures items { line.new.items ≡ spaced (kind.now ∷ decimal number ∷ []) }
    ensures len { array_vec_len line.new ≤ 17 }
{
    begin(line, kind);
    add_number(line, number);
}

/// A line with two numbers.
fn two(line: &mut Line, kind: &[u8], first: u32, second: u32)
    requires empty { line.old.items ≡ [] }
    requires kind { length kind.now ≤ 6 }
    ensures items { line.new.items ≡ spaced (kind.now ∷ decimal first ∷ decimal second ∷ []) }
    ensures len { array_vec_len line.new ≤ 28 }
{
    one(line, kind, first);
    add_number(line, second);
}

/// A line with two numbers and a word.
fn two_and_word(line: &mut Line, kind: &[u8], first: u32, second: u32, last: &[u8])
    requires empty { line.old.items ≡ [] }
    requires kind { length kind.now ≤ 6 }
    requires last { length last.now ≤ 6 }
    ensures items { line.new.items ≡ spaced (kind.now ∷ decimal first ∷ decimal second ∷ last.now ∷ []) }
    ensures len { array_vec_len line.new ≤ 80 }
{
    two(line, kind, first, second);
    add_word(line, last);
}

/// Adds the two words of a place.
fn add_place(line: &mut Line, place: Place)
    requires { array_vec_len line.old ≤ 60 }
    ensures items { line.new.items ≡ line.old.items ++ 0o040 ∷ spaced (place_words place) }
    ensures len { array_vec_len line.new ≤ 80 }
{
    match place {
        Place::Core(click) => {
            add_word(line, b"at");
            add_number(line, click.into());
        }
        Place::Swap(block) => {
            add_word(line, b"swap");
            add_number(line, block.into());
        }
    }
}

/// A line with two numbers and a place.
fn two_and_place(line: &mut Line, kind: &[u8], first: u32, second: u32, place: Place)
    requires empty { line.old.items ≡ [] }
    requires kind { length kind.now ≤ 6 }
    ensures items { line.new.items ≡ spaced (kind.now ∷ decimal first ∷ decimal second ∷ place_words place) }
    ensures len { array_vec_len line.new ≤ 80 }
{
    two(line, kind, first, second);
    add_place(line, place);
}

/// Adds a space and the word of a channel that has a number.
fn add_numbered(line: &mut Line, channel: &[u8], number: u32)
    requires len { array_vec_len line.old ≤ 60 }
    requires channel { length channel.now ≤ 6 }
    ensures items { line.new.items ≡ line.old.items ++ 0o040 ∷ (channel.now ++ decimal number) }
    ensures len { array_vec_len line.new ≤ 80 }
{
    add_word(line, channel);
    add_digits(line, number);
}

/// Adds a space and a channel.
fn add_channel(line: &mut Line, chan: Chan)
    requires { array_vec_len line.old ≤ 60 }
    ensures items { line.new.items ≡ line.old.items ++ 0o040 ∷ channel chan }
    ensures len { array_vec_len line.new ≤ 80 }
{
    match chan {
        Chan::RunIn => add_word(line, b"runin"),
        Chan::RunOut => add_word(line, b"runout"),
        Chan::Tout => add_word(line, b"tout"),
        Chan::Keys => add_word(line, b"keys"),
        Chan::Show => add_word(line, b"show"),
        Chan::Wait(slot) => add_numbered(line, b"wait.", slot.into()),
        Chan::Read(inode) => add_numbered(line, b"read.", inode.into()),
        Chan::Write(inode) => add_numbered(line, b"write.", inode.into()),
        Chan::Disk(slot) => add_numbered(line, b"disk.", slot.into()),
        Chan::KeysOf(number) => add_numbered(line, b"keys.", number.into()),
        Chan::ShowOf(number) => add_numbered(line, b"show.", number.into()),
    }
}

fn sleep(line: &mut Line, slot: Slot, pri: i8, chan: Chan)
    requires { line.old.items ≡ [] }
    ensures items { line.new.items ≡ entry_line (Entry.Sleep slot pri chan) }
    ensures len { array_vec_len line.new ≤ 80 }
{
    one(line, b"sleep", slot.into());
    add_signed(line, pri);
    add_channel(line, chan);
}

fn wake(line: &mut Line, chan: Chan)
    requires { line.old.items ≡ [] }
    ensures items { line.new.items ≡ entry_line (Entry.Wake chan) }
    ensures len { array_vec_len line.new ≤ 80 }
{
    begin(line, b"wake");
    add_channel(line, chan);
}

fn nice(line: &mut Line, slot: Slot, nice: i8)
    requires { line.old.items ≡ [] }
    ensures items { line.new.items ≡ entry_line (Entry.Nice slot nice) }
    ensures len { array_vec_len line.new ≤ 80 }
{
    one(line, b"nice", slot.into());
    add_signed(line, nice);
}

fn size(line: &mut Line, slot: Slot, clicks: u16, place: Place)
    requires { line.old.items ≡ [] }
    ensures items { line.new.items ≡ entry_line (Entry.Size slot clicks place) }
    ensures len { array_vec_len line.new ≤ 80 }
{
    two_and_place(line, b"size", slot.into(), clicks.into(), place);
}

fn size_keep(line: &mut Line, slot: Slot, clicks: u16)
    requires { line.old.items ≡ [] }
    ensures items { line.new.items ≡ entry_line (Entry.SizeKeep slot clicks) }
    ensures len { array_vec_len line.new ≤ 80 }
{
    two_and_word(line, b"size", slot.into(), clicks.into(), b"keep");
}

fn fork(line: &mut Line, slot: Slot, child: Slot, place: Place)
    requires { line.old.items ≡ [] }
    ensures items { line.new.items ≡ entry_line (Entry.Fork slot child place) }
    ensures len { array_vec_len line.new ≤ 80 }
{
    two_and_place(line, b"fork", slot.into(), child.into(), place);
}

fn leave(line: &mut Line, slot: Slot, text: u8, sticky: bool)
    requires { line.old.items ≡ [] }
    ensures items { line.new.items ≡ entry_line (Entry.Leave slot text sticky) }
    ensures len { array_vec_len line.new ≤ 80 }
{
    if sticky {
        two_and_word(line, b"drop", slot.into(), text.into(), b"sticky");
    } else {
        two_and_word(line, b"drop", slot.into(), text.into(), b"plain");
    }
}

fn new_text(line: &mut Line, slot: Slot, text: u8, clicks: u16, block: u16)
    requires { line.old.items ≡ [] }
    ensures items { line.new.items ≡ entry_line (Entry.Text slot text clicks block) }
    ensures len { array_vec_len line.new ≤ 80 }
{
    two(line, b"text", slot.into(), text.into());
    add_number(line, clicks.into());
    add_place(line, Place::Swap(block));
}

fn image(line: &mut Line, slot: Slot, clicks: u16, place: Place)
    requires { line.old.items ≡ [] }
    ensures items { line.new.items ≡ entry_line (Entry.Image slot clicks place) }
    ensures len { array_vec_len line.new ≤ 80 }
{
    two_and_place(line, b"image", slot.into(), clicks.into(), place);
}

fn exit(line: &mut Line, slot: Slot, block: u16)
    requires { line.old.items ≡ [] }
    ensures items { line.new.items ≡ entry_line (Entry.Exit slot block) }
    ensures len { array_vec_len line.new ≤ 80 }
{
    one(line, b"exit", slot.into());
    add_place(line, Place::Swap(block));
}

fn panic(line: &mut Line, kind: PanicKind)
    requires { line.old.items ≡ [] }
    ensures items { line.new.items ≡ entry_line (Entry.Panic kind) }
    ensures len { array_vec_len line.new ≤ 80 }
{
    match kind {
        PanicKind::Swap => words(line, b"panic", b"swap"),
        PanicKind::Zombie => words(line, b"panic", b"zombie"),
        PanicKind::Text => words(line, b"panic", b"text"),
    }
}

/// Puts the words of an entry, with a space between each two, into an empty line.
#[inline(always)]
fn put_words(line: &mut Line, entry: &Entry)
    requires { line.old.items ≡ [] }
    ensures items { line.new.items ≡ entry_line entry.now }
    ensures len { array_vec_len line.new ≤ 80 }
{
    match *entry {
        Entry::Boot { core, time } => two(line, b"boot", core.into(), time),
        Entry::Go(slot) => one(line, b"go", slot.into()),
        Entry::Idle => begin(line, b"idle"),
        Entry::Trap(slot) => one(line, b"trap", slot.into()),
        Entry::TickUser => words(line, b"tick", b"u"),
        Entry::TickKernel => words(line, b"tick", b"k"),
        Entry::TickIdle => words(line, b"tick", b"i"),
        Entry::Sleep { slot, pri, chan } => sleep(line, slot, pri, chan),
        Entry::Wake(chan) => wake(line, chan),
        Entry::Signal { slot, sig } => two(line, b"signal", slot.into(), sig.into()),
        Entry::Nice { slot, nice: added } => nice(line, slot, added),
        Entry::Time(time) => one(line, b"time", time),
        Entry::Size {
            slot,
            clicks,
            place,
        } => size(line, slot, clicks, place),
        Entry::SizeKeep { slot, clicks } => size_keep(line, slot, clicks),
        Entry::Fork { slot, child, place } => fork(line, slot, child, place),
        Entry::Leave { slot, text, sticky } => leave(line, slot, text, sticky),
        Entry::Bare(slot) => one(line, b"bare", slot.into()),
        Entry::Text {
            slot,
            text,
            clicks,
            block,
        } => new_text(line, slot, text, clicks, block),
        Entry::Share { slot, text } => two(line, b"share", slot.into(), text.into()),
        Entry::Image {
            slot,
            clicks,
            place,
        } => image(line, slot, clicks, place),
        Entry::SwapIn { slot, at } => two(line, b"in", slot.into(), at.into()),
        Entry::SwapOut { slot, block } => two(line, b"out", slot.into(), block.into()),
        Entry::Exit { slot, block } => exit(line, slot, block),
        Entry::Reap(slot) => one(line, b"reap", slot.into()),
        Entry::Panic(kind) => panic(line, kind),
        Entry::End => begin(line, b"end"),
    }
}

/// Puts the line of an entry, with its line feed, into an empty line: words with a space between each two, and decimal
/// numbers.
#[inline(always)]
pub fn put_line(line: &mut Line, entry: &Entry)
    requires { line.old.items ≡ [] }
    ensures { line.new.items ≡ entry_line entry.now ++ 0o012 ∷ [] }
{
    put_words(line, entry);
    line.push(b'\n');
}

/// The line of an entry, without its line feed: words with a space between each two, and decimal numbers.
pub fn line(entry: &Entry) -> Text
    ensures { result.items ≡ entry_line entry.now }
{
    let mut line = Line::new();
    put_words(&mut line, entry);
    let mut text = Text::new();
    let Ok(()) = text.try_extend_from_slice(line.as_slice()) else {
        unreachable!()
    };
    text
}
