//! Where images stand and what they hold: first fit, in core and in the swap area, copies, growth, the ends of processes,
//! the bytes of core and the map of what is free, the sizes that memory management allows and the addresses that they make,
//! what the header of a program's file says, and the table of shared texts. A scene is what is asked of fifty slots, and what
//! must come of it.
mod addresses;
mod bytes;
mod clicks;
mod copies;
mod deposits;
mod growth;
mod headers;
mod instructions;
mod maps;
mod places;
mod scenes;
mod sizes;
mod table;
mod texts;
