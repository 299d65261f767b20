//! Lines of text that take no memory.
ghost use Rattle.std.specs.Prelude.{◌≡◌, ◌+◌, ◌<◌, ◌≤◌, [], ◌∷◌, ◌++◌, length, decimal};
ghost use Rattle.arrayvec.specs.ArrayString.{array_string_len};
ghost use Rattle.v6_run.specs.Report.{line_of};

use arrayvec::ArrayString;

/// A line of at most 256 bytes.
pub(crate) type Line = ArrayString<256>;

fn push_digit(line: &mut Line, digit: u32)
    requires digit { digit < 10 }
    requires room { array_string_len line.old < 256 }
    ensures { line.new.bytes ≡ line.old.bytes ++ (48 + digit) ∷ [] }
{
    line.push(char::from(b'0' + digit as u8));
}

/// Appends the decimal digits of a number, from the first to the last.
fn push_digits(line: &mut Line, number: u64)
    requires { array_string_len line.old + length (decimal number) ≤ 256 }
    ensures { line.new.bytes ≡ line.old.bytes ++ decimal number }
{
    if number < 10 {
        push_digit(line, number as u32);
    } else {
        push_digits(line, number / 10);
        push_digit(line, (number % 10) as u32);
    }
}

/// Appends a number of at most ten digits.
pub(crate) fn push_number(line: &mut Line, number: u32)
    requires { array_string_len line.old ≤ 118 }
    ensures bytes { line.new.bytes ≡ line.old.bytes ++ decimal number }
    ensures len { array_string_len line.new ≤ array_string_len line.old + 10 }
{
    push_digits(line, u64::from(number));
}

/// Appends a number of at most twenty digits.
pub(crate) fn push_long(line: &mut Line, number: u64)
    requires { array_string_len line.old ≤ 118 }
    ensures bytes { line.new.bytes ≡ line.old.bytes ++ decimal number }
    ensures len { array_string_len line.new ≤ array_string_len line.old + 20 }
{
    push_digits(line, number);
}

/// A text and an LF.
pub(crate) fn plain(text: &str) -> Line
    requires { length text.now ≤ 240 }
    ensures { result.bytes ≡ line_of text.now }
{
    let mut line = Line::new();
    line.push_str(text);
    line.push_str("\n");
    line
}

/// A number between two texts, and an LF.
pub(crate) fn numbered(head: &str, number: u32, tail: &str) -> Line
    requires { length head.now + length tail.now ≤ 80 }
    ensures { result.bytes ≡ line_of (head.now ++ decimal number ++ tail.now) }
{
    long_numbered(head, u64::from(number), tail)
}

/// A number of at most twenty digits between two texts, and an LF.
pub(crate) fn long_numbered(head: &str, number: u64, tail: &str) -> Line
    requires { length head.now + length tail.now ≤ 80 }
    ensures { result.bytes ≡ line_of (head.now ++ decimal number ++ tail.now) }
{
    let mut line = Line::new();
    line.push_str(head);
    push_long(&mut line, number);
    line.push_str(tail);
    line.push_str("\n");
    line
}

/// Two numbers, with three texts round them, and an LF.
pub(crate) fn twice_numbered(head: &str, first: u32, middle: &str, second: u32, tail: &str) -> Line
    requires { length head.now + length middle.now + length tail.now ≤ 80 }
    ensures { result.bytes ≡ line_of (head.now ++ decimal first ++ middle.now ++ decimal second ++ tail.now) }
{
    let mut line = Line::new();
    line.push_str(head);
    push_number(&mut line, first);
    line.push_str(middle);
    push_number(&mut line, second);
    line.push_str(tail);
    line.push_str("\n");
    line
}
