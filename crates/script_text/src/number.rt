//! Numbers as commands and scripts write them.
ghost use Rattle.std.specs.Prelude.{◌≡◌, ◌≤◌, length, true, IfSome};
ghost use Rattle.std.specs.List.{list_all};
ghost use Rattle.std.specs.Char.{is_ascii_digit};
ghost use Rattle.std.specs.Str.Parse.{digits_value};
ghost use Rattle.script_text.specs.Number.{is_number, number_of, is_octal_digit, octal_of};

fn all_digits(text: &[u8]) -> bool
    ensures { result ≡ list_all is_ascii_digit text.now }
{
    text.iter().all(|byte| byte.is_ascii_digit())
}

fn is_number(text: &[u8]) -> bool
    ensures { result ≡ is_number text.now }
{
    !text.is_empty() && text.len() <= 9 && all_digits(text)
}

fn value_of(digits: &[u8]) -> u32
    requires short { length digits.now ≤ 9 }
    requires digits { list_all is_ascii_digit digits.now ≡ true }
    ensures { result ≡ digits_value 10 digits.now }
{
    let mut value = 0;
    for digit in digits {
        value = value * 10 + (*digit - b'0') as u32;
    }
    value
}

/// The value of one to nine decimal digits, and nothing for any other text.
pub fn number_of(text: &[u8]) -> Option<u32>
    ensures { result ≡ number_of text.now }
{
    if is_number(text) {
        Some(value_of(text))
    } else {
        None
    }
}

fn all_octal(text: &[u8]) -> bool
    ensures { result ≡ list_all is_octal_digit text.now }
{
    text.iter().all(|byte| b'0' <= *byte && *byte <= b'7')
}

fn octal_value(digits: &[u8]) -> u32
    requires short { length digits.now ≤ 6 }
    requires digits { list_all is_octal_digit digits.now ≡ true }
    ensures { result ≡ digits_value 8 digits.now }
{
    let mut value = 0;
    for digit in digits {
        value = value * 8 + (*digit - b'0') as u32;
    }
    value
}

/// The value of so many octal digits, at most six, where it is at most this, and nothing for any other text.
pub(crate) fn octal_of(count: usize, most: u32, text: &[u8]) -> Option<u32>
    requires { count ≤ 6 }
    ensures value { result ≡ octal_of count most text.now }
    ensures most { IfSome result (λ value. value ≤ most) }
{
    if text.len() != count || !all_octal(text) {
        return None;
    }
    let value = octal_value(text);
    if value <= most { Some(value) } else { None }
}
