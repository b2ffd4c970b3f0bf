//! Marks in words.

use crate::YesNo;
use std::fmt;

/// The verdict that the mark is.
impl fmt::Display for YesNo {
    fn fmt<W: fmt::Write>(&self, f: &mut fmt::Formatter<W>) -> fmt::Result {
        f.write_str(match self {
            YesNo::Nothing => "nothing",
            YesNo::Yes => "yes",
        })
    }
}
