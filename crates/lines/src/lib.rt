//! What the programs that read commands a line at a time have in common: lines, and how bytes, units and tables are printed.

#![tactic(auto)]

mod parts;
mod show;

pub use parts::{Parts, Unknown, is_blank, is_comment};
pub use show::{Escaped, Kept, Table, Units};
