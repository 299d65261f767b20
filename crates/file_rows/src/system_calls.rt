//! Rows of the calls of section II on files. A call that is proved equal to its row is as right as the row: what a proof can't see
//! is a page of the manual that was misread in both. So each error of each call has a row here, alone and beside its neighbours
//! in the order of the tests, and each good case has one with what it leaves.
//!
//! A scene is data: calls with their answers, and looks at what they leave. What must come is worked by hand from the pages of
//! the manual and from Lions' Commentary that the table names; none is an answer that this program gave.
mod calls;
mod console;
mod console_lines;
mod console_modes;
mod console_paced;
mod console_reads;
mod descriptors;
mod disk;
mod linking;
mod looks;
mod making;
mod moving;
mod names;
mod opening;
mod pipes;
mod scenes;
mod shared;
mod status;
mod world;
