//! The calls of section II on processes.
#![tactic(auto)]

mod arguments;
mod caller;
mod exec;
mod exit;
mod fork;
mod growth;
mod ids;
mod placing;
mod procs;
mod program;
mod resume;
mod seen;
mod signals;
mod stack;
mod tested;
mod texts;
mod times;
mod wait;

pub use exec::exec_file;
pub use exit::{end_proc, exit_now};
pub use fork::fork_one;
pub use growth::{break_at, grow};
pub use ids::{get_gid, get_uid, nice_to, no_op, pid_of, set_gid, set_uid, switches};
pub use procs::Procs;
pub use program::Program;
pub use resume::resume_proc;
pub use signals::{kill_to, send_signal, signal_line, signal_set, signal_slot};
pub use times::{set_time, sleep_for, time_now, times_to};
pub use wait::wait_child;
