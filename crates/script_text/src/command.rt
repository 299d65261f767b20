//! What each line of a script asks for.
ghost use Rattle.std.specs.Prelude.{◌≡◌, ◌≤◌, ◌++◌, [], ◌∷◌, length, map, drop, sum_by, IfOk};
ghost use Rattle.std.specs.List.{list_all};
ghost use Rattle.std.specs.Option.{option_map};
ghost use Rattle.script_text.specs.declared.script.Event.TheVariants as event;
ghost use Rattle.script_text.specs.Number.{number_of, octal_of};
ghost use Rattle.script_text.specs.Command.{
  is_word,
  is_remark,
  is_printed,
  typed_keys,
  one,
  command_of,
  events_of_line,
};
ghost use Rattle.script_text.specs.Asked.{events_of};
ghost use Rattle.script_text.specs.Script.{slots_of};

use crate::number::{number_of, octal_of};
use crate::script::{Event, MAX_LINE};
use std::alloc::AllocError;

/// What one line asks for.
#[derive(Drop)]
pub(crate) enum Command<'a> {
    /// Nothing, as a comment.
    Nothing,
    /// One event.
    One(Event),
    /// The keys of this text, and the return key after them.
    Keys(&'a [u8]),
}

fn is_remark(line: &[u8]) -> bool
    ensures { result ≡ is_remark line.now }
{
    line.is_empty() || line.starts_with(b";")
}

fn is_word(word: &[u8], line: &[u8]) -> bool
    ensures { result ≡ is_word word.now line.now }
{
    line.len() == word.len() && line.starts_with(word)
}

/// What comes after these bytes, with which a line begins.
fn after<'a>(start: &[u8], line: &'a [u8]) -> &'a [u8]
    requires { length start.now ≤ length line.now }
    ensures { result.now ≡ drop (length start.now) line.now }
{
    &line[start.len()..]
}

fn all_printed(text: &[u8]) -> bool
    ensures { result ≡ list_all is_printed text.now }
{
    text.iter().all(|byte| 0o40 <= *byte && *byte <= 0o176)
}

fn typed(text: &[u8]) -> Option<Command<'_>>
    ensures keys { option_map events_of result ≡ typed_keys text.now }
{
    if all_printed(text) {
        Some(Command::Keys(text))
    } else {
        None
    }
}

fn clock(text: &[u8]) -> Option<Command<'_>>
    ensures events { option_map events_of result ≡ one event.Clock (number_of text.now) }
{
    let slots = number_of(text)?;
    Some(Command::One(Event::Clock(slots)))
}

fn run(text: &[u8]) -> Option<Command<'_>>
    ensures events { option_map events_of result ≡ one event.Run (number_of text.now) }
{
    let slots = number_of(text)?;
    Some(Command::One(Event::Run(slots)))
}

fn byte(text: &[u8]) -> Option<Command<'_>>
    ensures events { option_map events_of result ≡ one event.Byte (octal_of 3 0o377 text.now) }
{
    let value = octal_of(3, 0o377, text)?;
    Some(Command::One(Event::Byte(value as u8)))
}

fn switch(text: &[u8]) -> Option<Command<'_>>
    ensures events { option_map events_of result ≡ one event.Switch (octal_of 6 0o177777 text.now) }
{
    let value = octal_of(6, 0o177777, text)?;
    Some(Command::One(Event::Switch(value as u16)))
}

fn disk(text: &[u8]) -> Option<Command<'_>>
    ensures events { option_map events_of result ≡ one event.Disk (number_of text.now) }
{
    let slots = number_of(text)?;
    Some(Command::One(Event::Disk(slots)))
}

fn pace(text: &[u8]) -> Option<Command<'_>>
    ensures events { option_map events_of result ≡ one event.Pace (number_of text.now) }
{
    let slots = number_of(text)?;
    Some(Command::One(Event::Pace(slots)))
}

fn on_line(text: &[u8]) -> Option<Command<'_>>
    ensures events { option_map events_of result ≡ one event.Line (octal_of 1 0o7 text.now) }
{
    let number = octal_of(1, 0o7, text)?;
    Some(Command::One(Event::Line(number as u8)))
}

fn hangup(text: &[u8]) -> Option<Command<'_>>
    ensures events { option_map events_of result ≡ one event.Hangup (octal_of 1 0o7 text.now) }
{
    let number = octal_of(1, 0o7, text)?;
    Some(Command::One(Event::Hangup(number as u8)))
}

fn command_of(line: &[u8]) -> Option<Command<'_>>
    ensures events { option_map events_of result ≡ command_of line.now }
{
    if is_remark(line) {
        Some(Command::Nothing)
    } else if is_word(b"tick", line) {
        Some(Command::One(Event::Tick))
    } else if is_word(b"type", line) {
        typed(b"")
    } else if line.starts_with(b"type ") {
        typed(after(b"type ", line))
    } else if line.starts_with(b"clock ") {
        clock(after(b"clock ", line))
    } else if line.starts_with(b"run ") {
        run(after(b"run ", line))
    } else if line.starts_with(b"byte ") {
        byte(after(b"byte ", line))
    } else if line.starts_with(b"switch ") {
        switch(after(b"switch ", line))
    } else if line.starts_with(b"disk ") {
        disk(after(b"disk ", line))
    } else if line.starts_with(b"pace ") {
        pace(after(b"pace ", line))
    } else if line.starts_with(b"line ") {
        on_line(after(b"line ", line))
    } else if line.starts_with(b"hangup ") {
        hangup(after(b"hangup ", line))
    } else {
        None
    }
}

/// What a line asks for, where it is one.
pub(crate) fn command_of_line(line: &[u8]) -> Option<Command<'_>>
    ensures events { option_map events_of result ≡ events_of_line line.now }
{
    if line.len() <= MAX_LINE {
        command_of(line)
    } else {
        None
    }
}

fn slots_of(event: Event) -> u32
    ensures { result ≡ slots_of event }
{
    match event {
        Event::Run(count) => count,
        _ => 0,
    }
}

/// The slots that a line asks for.
#[tactic(auto, using(crate::proofs::CommandLemmas::keys_ask_no_slots))]
pub(crate) fn slots_asked(command: &Command<'_>) -> u32
    ensures { result ≡ sum_by slots_of (events_of command.now) }
{
    match command {
        Command::Nothing => 0,
        Command::One(event) => slots_of(*event),
        Command::Keys(_) => 0,
    }
}

fn push_keys(events: &mut Vec<Event>, text: &[u8]) -> Result<(), AllocError>
    ensures { IfOk result (λ done. events.new.items ≡ events.old.items ++ (map event.Byte text.now ++ event.Byte 0o015 ∷ [])) }
{
    for byte in text {
        events.push(Event::Byte(*byte))?;
    }
    events.push(Event::Byte(b'\r'))?;
    Ok(())
}

/// Puts the events of a line after those of the lines before it.
pub(crate) fn push(events: &mut Vec<Event>, command: &Command<'_>) -> Result<(), AllocError>
    ensures { IfOk result (λ done. events.new.items ≡ events.old.items ++ events_of command.now) }
{
    match command {
        Command::Nothing => {}
        Command::One(event) => events.push(*event)?,
        Command::Keys(text) => push_keys(events, text)?,
    }
    Ok(())
}
