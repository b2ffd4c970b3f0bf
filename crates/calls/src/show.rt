//! Refusals, as they are printed.

use crate::call::Refusal;
use std::error::Error;
use std::fmt;

/// The stop's number, its place in the pattern where there is one, and the reason.
impl fmt::Display for Refusal {
    fn fmt<W: fmt::Write>(&self, f: &mut fmt::Formatter<W>) -> fmt::Result {
        let number = self.stop.number();
        let stop = self.stop;
        match self.place {
            Some(place) => write!(f, "stop {number} at {place}: {stop}"),
            None => write!(f, "stop {number}: {stop}"),
        }
    }
}

impl Error for Refusal {}
