//! The program: a host over real files, and the call that does a command.
#![tactic(auto)]

use std::process::ExitCode;
use std::rt::{Env, Files};
use std::{env, io};
use v6_port::FileHost;
use v6_run::{Status, v6};

/// The command line's words without the program's name, or `None` where there is no memory for them. Words that are no
/// text are no command's, and count as none.
fn words_of(rt: &(impl Env + AllocGlobal)) -> Option<Vec<String>> {
    let mut words = Vec::new(rt.alloc());
    let all = match env::args(rt) {
        Ok(all) => all,
        Err(error) if error.kind() == io::ErrorKind::OutOfMemory => return None,
        Err(_) => return Some(words),
    };
    for word in all.skip(1) {
        if words.push(word).is_err() {
            return None;
        }
    }
    Some(words)
}

/// Lets the host go, which gives out what it holds. It stands out of line: its buffers are moved as they go, and would lie
/// beside themselves.
#[inline(never)]
fn let_go<R: Files + Print + Drop>(_host: FileHost<R>) {}

fn main(rt: HostRuntime) -> ExitCode {
    let Some(words) = words_of(&rt) else {
        return ExitCode::from(Status::NoMemory.number());
    };
    let alloc = rt.alloc();
    let mut host = FileHost::new(rt);
    let status = v6(alloc, &words, &mut host);
    let_go(host);
    ExitCode::from(status.number())
}
