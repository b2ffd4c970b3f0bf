//! A fault in words.

use crate::Fault;
use std::error::Error;
use std::fmt;

/// The stop's number, the place and the reason.
impl fmt::Display for Fault {
    fn fmt<W: fmt::Write>(&self, f: &mut fmt::Formatter<W>) -> fmt::Result {
        let number = self.stop.number();
        let place = self.place;
        let stop = self.stop;
        write!(f, "stop {number} at {place}: {stop}")
    }
}

impl Error for Fault {}
