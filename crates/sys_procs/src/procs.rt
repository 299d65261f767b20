//! What the calls on processes share.
use image_keep::Images;
use pick_rules::Table;
use proc_tab::Rows;

/// The processes: who they are, when they run, and their images; and the switches of the console.
#[derive(Drop)]
pub struct Procs {
    pub rows: Rows,
    pub table: Table,
    pub images: Images,
    /// The switches of the console: csw(II).
    pub switches: u16,
}
