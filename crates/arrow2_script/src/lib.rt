//! The script's grammar: its lines, their words, and the commands that they spell.
#![tactic(auto)]

mod arguments;
pub mod array_command;
pub mod bitmap_command;
pub mod command;
pub mod growth_command;
pub mod kernel_command;
pub mod laws;
pub mod lines;
pub mod offset_command;
pub mod storage_command;
pub mod value_command;
pub mod words;
