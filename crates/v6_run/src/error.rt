//! Why a command was not done, and the status that says so.
ghost use Rattle.std.specs.Prelude.{◌≡◌};
ghost use Rattle.v6_run.specs.Errors.{read_status, image_status, second_status, script_status, run_status, make_status, log_status};

use crate::audit::LogError;
use crate::files::ReadError;
use crate::image::{ImageError, SecondError};
use crate::make::MakeError;
use crate::run::RunError;
use crate::status::Status;
use script_text::ScriptFault;
use v6_port::{InPort, OutPort};

/// Why a command was not done.
#[derive(Clone, Copy)]
pub(crate) enum CommandError {
    /// The words are no command's.
    Usage,
    /// The size of core is not 64 to 3968 clicks.
    CoreSize,
    /// `run`, `memory` or `demo` has failed.
    Run(RunError),
    /// `check` has no image.
    Check(ImageError),
    /// `make` has failed.
    Make(MakeError),
    /// `audit` has no lawful log.
    Audit(LogError),
}

fn read_status(port: InPort, error: ReadError) -> Status
    ensures { result ≡ read_status port error }
{
    match error {
        ReadError::Fault => Status::ReadFault(port),
        ReadError::NoMemory => Status::NoMemory,
    }
}

fn image_status(error: ImageError) -> Status
    ensures { result ≡ image_status error }
{
    match error {
        ImageError::Unread(error) => read_status(InPort::Image, error),
        ImageError::Faulty(fault) => Status::ImageFault(fault),
    }
}

fn second_status(error: SecondError) -> Status
    ensures { result ≡ second_status error }
{
    match error {
        SecondError::Unread(error) => read_status(InPort::Second, error),
        SecondError::Faulty(fault) => Status::SecondFault(fault),
    }
}

fn script_status(fault: ScriptFault) -> Status
    ensures { result ≡ script_status fault }
{
    match fault {
        ScriptFault::NoMemory => Status::NoMemory,
        fault => Status::ScriptFault(fault),
    }
}

fn run_status(error: RunError) -> Status
    ensures { result ≡ run_status error }
{
    match error {
        RunError::Image(error) => image_status(error),
        RunError::Second(error) => second_status(error),
        RunError::Script(error) => read_status(InPort::Script, error),
        RunError::Refused(fault) => script_status(fault),
        RunError::NoMemory => Status::NoMemory,
        RunError::Write(port) => Status::WriteFault(port),
        RunError::Panic(kind) => Status::Panic(kind),
    }
}

fn make_status(error: MakeError) -> Status
    ensures { result ≡ make_status error }
{
    match error {
        MakeError::NoMemory => Status::NoMemory,
        MakeError::Fault => Status::WriteFault(OutPort::Final),
    }
}

fn log_status(error: LogError) -> Status
    ensures { result ≡ log_status error }
{
    match error {
        LogError::Unread => Status::ReadFault(InPort::Log),
        LogError::Unlawful(line) => Status::Unlawful(line),
        LogError::Bad(line) => Status::BadLog(line),
        LogError::TooLong => Status::LogTooLong,
    }
}

impl From<CommandError> for Status {
    ghost use Rattle.std.specs.Prelude.{◌≡◌};
    ghost use Rattle.v6_run.specs.Errors.{command_status};

    ghost from_gives = { λ error status. status ≡ command_status error };

    fn from(error: CommandError) -> Status {
        match error {
            CommandError::Usage => Status::Usage,
            CommandError::CoreSize => Status::CoreSize,
            CommandError::Run(error) => run_status(error),
            CommandError::Check(error) => image_status(error),
            CommandError::Make(error) => make_status(error),
            CommandError::Audit(error) => log_status(error),
        }
    }
}
