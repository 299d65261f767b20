//! What the calls on files share.
use crate::pipes::Pipes;
use fs_tree::Tree;
use lines_eight::Lines;
use open_files::OpenTable;

/// The tree of names, the table of open files, the terminal lines and the pipes.
#[derive(Drop)]
pub struct Files {
    pub tree: Tree,
    pub table: OpenTable,
    pub lines: Lines,
    pub pipes: Pipes,
}
