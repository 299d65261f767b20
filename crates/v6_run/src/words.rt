//! The words of a command.
ghost use Rattle.std.specs.Prelude.{◌≡◌, is_some, option_map, codes};
ghost use Rattle.script_text.specs.Number.{number_of};
ghost use Rattle.v6_run.specs.Words.{command_in, line_words, disk_words, run_words, check_words, make_words, demo_words, short_words, is_word, line_count, second_files, lines_value, second_files_value, disk_files_value, outputs_value, command_value};

use script_text::number_of;

/// How many terminal lines a run has: the console alone, or eight.
#[derive(Clone, Copy)]
pub(crate) enum Lines {
    One,
    Eight,
}

impl Lines {
    /// Their number.
    pub(crate) fn count(&self) -> u8
        ensures { result ≡ lines_value self.now }
    {
        match self {
            Lines::One => 1,
            Lines::Eight => 8,
        }
    }
}

/// The files of a second disk: its image before the run, and after it.
#[derive(Clone, Copy)]
pub(crate) struct SecondFiles<'a> {
    pub(crate) image: &'a str,
    pub(crate) final_disk: &'a str,
}

/// The machine of a run.
#[derive(Clone, Copy)]
pub(crate) enum Machine<'a> {
    /// One disk, and so many terminal lines: that of `run` and of `run8`.
    Lines(Lines),
    /// Two disks, and the console alone: that of `run2`.
    Disks(SecondFiles<'a>),
}

/// The files that `run`, `run8` and `run2` write. The bytes of line 1 go to TERM.1, and so on.
#[derive(Clone, Copy)]
pub(crate) struct DiskFiles<'a> {
    pub(crate) machine: Machine<'a>,
    pub(crate) term: &'a str,
    pub(crate) log: &'a str,
    pub(crate) final_disk: &'a str,
}

impl<'a> DiskFiles<'a> {
    /// How many terminal lines there are.
    pub(crate) fn lines(&self) -> Lines
        ensures { lines_value result ≡ (disk_files_value self.now).lines }
    {
        match &self.machine {
            Machine::Lines(lines) => *lines,
            Machine::Disks(_) => Lines::One,
        }
    }

    /// The files of the second disk, where there is one.
    pub(crate) fn second(&self) -> Option<SecondFiles<'a>>
        ensures { option_map second_files_value result ≡ (disk_files_value self.now).second }
    {
        match &self.machine {
            Machine::Lines(_) => None,
            Machine::Disks(second) => Some(*second),
        }
    }

    /// Whether there is a second disk.
    pub(crate) fn has_second(&self) -> bool
        ensures { result ≡ is_some (disk_files_value self.now).second }
    {
        match &self.machine {
            Machine::Lines(_) => false,
            Machine::Disks(_) => true,
        }
    }
}

/// What a run leaves.
#[derive(Clone, Copy)]
pub(crate) enum Outputs<'a> {
    /// The files of `run`, of `run8` or of `run2`.
    Disk(DiskFiles<'a>),
    /// The file of `memory`, with the bytes of core and of the swap area.
    Memory(&'a str),
}

impl<'a> Outputs<'a> {
    /// How many terminal lines the run has.
    pub(crate) fn lines(&self) -> Lines
        ensures { lines_value result ≡ line_count (outputs_value self.now) }
    {
        match self {
            Outputs::Disk(files) => files.lines(),
            Outputs::Memory(_) => Lines::One,
        }
    }

    /// The files of the second disk, where there is one.
    pub(crate) fn second(&self) -> Option<SecondFiles<'a>>
        ensures { option_map second_files_value result ≡ second_files (outputs_value self.now) }
    {
        match self {
            Outputs::Disk(files) => files.second(),
            Outputs::Memory(_) => None,
        }
    }
}

/// The files of a run that are read, the size of core in clicks of 64 bytes, and what is written.
#[derive(Clone, Copy)]
pub(crate) struct RunWords<'a> {
    pub(crate) image: &'a str,
    pub(crate) core: u32,
    pub(crate) script: &'a str,
    pub(crate) outputs: Outputs<'a>,
}

/// A command with its names and numbers.
#[derive(Clone, Copy)]
pub(crate) enum Command<'a> {
    /// `run IMAGE CORE SCRIPT TERM LOG FINAL`, `run8 IMAGE CORE SCRIPT TERM LOG FINAL`,
    /// `run2 IMAGE CORE SCRIPT TERM LOG FINAL IMAGE2 FINAL2`, or `memory IMAGE CORE SCRIPT FINAL`
    Run(RunWords<'a>),
    /// `check IMAGE`
    Check(&'a str),
    /// `make N FINAL`
    Make(u32, &'a str),
    /// `demo N`
    Demo(u32),
    /// `audit LOG`
    Audit(&'a str),
}

/// The words of a run, where its verb is the one that is wanted.
fn run_words<'a>(
    is_named: bool,
    image: &'a str,
    core: &str,
    script: &'a str,
    outputs: Outputs<'a>,
) -> Option<Command<'a>>
    ensures { option_map command_value result
        ≡ run_words is_named (number_of core.now) image.now script.now (outputs_value outputs.entry) }
{
    if !is_named {
        return None;
    }
    let core = number_of(core.as_bytes())?;
    Some(Command::Run(RunWords {
        image,
        core,
        script,
        outputs,
    }))
}

fn check_words<'a>(verb: &str, image: &'a str) -> Option<Command<'a>>
    ensures { option_map command_value result ≡ check_words (is_word verb.now (codes "check")) image.now }
{
    if verb != "check" {
        return None;
    }
    Some(Command::Check(image))
}

fn demo_words<'a>(number: &str) -> Option<Command<'a>>
    ensures { option_map command_value result ≡ demo_words (number_of number.now) }
{
    let number = number_of(number.as_bytes())?;
    Some(Command::Demo(number))
}

/// The command of two words.
fn short_words<'a>(verb: &str, word: &'a str) -> Option<Command<'a>>
    ensures { option_map command_value result ≡ short_words verb.now word.now }
{
    if verb == "demo" {
        return demo_words(word);
    }
    if verb == "audit" {
        return Some(Command::Audit(word));
    }
    check_words(verb, word)
}

fn make_words<'a>(verb: &str, number: &str, name: &'a str) -> Option<Command<'a>>
    ensures { option_map command_value result ≡ make_words (is_word verb.now (codes "make")) (number_of number.now) name.now }
{
    if verb != "make" {
        return None;
    }
    let number = number_of(number.as_bytes())?;
    Some(Command::Make(number, name))
}

/// How many terminal lines the command of this verb has.
fn line_words(verb: &str) -> Option<Lines>
    ensures { option_map lines_value result ≡ line_words verb.now }
{
    if verb == "run" {
        return Some(Lines::One);
    }
    if verb == "run8" {
        return Some(Lines::Eight);
    }
    None
}

/// The words of `run` and of `run8`, by the number of lines that the verb gives.
fn disk_words<'a>(
    lines: Option<Lines>,
    image: &'a str,
    core: &str,
    script: &'a str,
    term: &'a str,
    log: &'a str,
    final_disk: &'a str,
) -> Option<Command<'a>>
    ensures { option_map command_value result
        ≡ disk_words (option_map lines_value lines) (number_of core.now) image.now script.now term.now log.now final_disk.now }
{
    let lines = lines?;
    let files = DiskFiles {
        machine: Machine::Lines(lines),
        term,
        log,
        final_disk,
    };
    run_words(true, image, core, script, Outputs::Disk(files))
}

/// The command of these words, or nothing where they are no command's.
pub(crate) fn command_of(words: &[String]) -> Option<Command<'_>>
    ensures { option_map command_value result ≡ command_in words.now }
{
    match words {
        [verb, image, core, script, term, log, disk, image2, disk2] => run_words(
            verb.as_str() == "run2",
            image.as_str(),
            core.as_str(),
            script.as_str(),
            Outputs::Disk(DiskFiles {
                machine: Machine::Disks(SecondFiles {
                    image: image2.as_str(),
                    final_disk: disk2.as_str(),
                }),
                term: term.as_str(),
                log: log.as_str(),
                final_disk: disk.as_str(),
            }),
        ),
        [verb, image, core, script, term, log, final_disk] => disk_words(
            line_words(verb.as_str()),
            image.as_str(),
            core.as_str(),
            script.as_str(),
            term.as_str(),
            log.as_str(),
            final_disk.as_str(),
        ),
        [verb, image, core, script, final_memory] => run_words(
            verb.as_str() == "memory",
            image.as_str(),
            core.as_str(),
            script.as_str(),
            Outputs::Memory(final_memory.as_str()),
        ),
        [verb, word] => short_words(verb.as_str(), word.as_str()),
        [verb, number, name] => make_words(verb.as_str(), number.as_str(), name.as_str()),
        _ => None,
    }
}
