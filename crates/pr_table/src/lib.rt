//! The table of a script: its statements as rows, each with the row that follows it, so that another program can send the script's
//! commands, byte by byte, and take its arms.
#![tactic(auto)]

mod counts;
mod laws;
mod writing;

pub use laws::tables_follow_scripts;
pub use writing::write_table;
