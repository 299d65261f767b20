//! The lines of a script.
ghost use Rattle.std.specs.Prelude.{◌≡◌, ◌<◌, ◌∷◌, ◌==◌, length, position};
ghost use Rattle.std.specs.Str.Lines.{strip_carriage_return};
ghost use Rattle.script_text.specs.Lines.{lines_of};

/// The first line of a text without its end, and the text after that end.
#[derive(Drop)]
pub(crate) struct FirstLine<'a> {
    pub(crate) line: &'a [u8],
    pub(crate) rest: &'a [u8],
}

fn without_carriage_return(line: &[u8]) -> &[u8]
    ensures { result.now ≡ strip_carriage_return line.now }
{
    if line.last() == Some(&b'\r') {
        &line[..line.len() - 1]
    } else {
        line
    }
}

fn line_feed(text: &[u8]) -> Option<usize>
    ensures { result ≡ position (λ byte. byte == 10) text.now }
{
    text.iter().position(|byte| *byte == b'\n')
}

/// The first line of a text that isn't empty.
pub(crate) fn first_line(text: &[u8]) -> FirstLine<'_>
    requires { 0 < length text.now }
    ensures first { lines_of text.now ≡ result.line.now ∷ lines_of result.rest.now }
    ensures shorter { length result.rest.now < length text.now }
{
    match line_feed(text) {
        Some(end) => FirstLine {
            line: without_carriage_return(&text[..end]),
            rest: &text[end + 1..],
        },
        None => FirstLine {
            line: text,
            rest: &[],
        },
    }
}
