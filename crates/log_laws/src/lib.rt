//! Laws of the log: how each line that a kernel logs keeps what the kernel's processes and the board of the log have in
//! common, and why it fits. There is no code here.
#![tactic(auto)]
