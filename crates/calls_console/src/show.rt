//! What calls on a frame are told, as it is printed.

use mark::YesNo;
use std::fmt;
use stops::Stop;

/// The answer to a call on a frame.
#[derive(Clone, Copy)]
pub(crate) enum Answer {
    /// The frame will take so many touches.
    Begun(u64),
    /// So many bytes are still to come.
    Fed(u64),
    /// The verdict, and the touches made for the frame.
    Finished(YesNo, u64),
    /// The touches made for the frame.
    Dropped(u64),
}

impl fmt::Display for Answer {
    fn fmt<W: fmt::Write>(&self, f: &mut fmt::Formatter<W>) -> fmt::Result {
        match *self {
            Answer::Begun(touches) => write!(f, "the frame will take {touches} touches"),
            Answer::Fed(left) => write!(f, "bytes still to come: {left}"),
            Answer::Finished(verdict, touches) => {
                write!(f, "verdict {verdict}, touches made: {touches}")
            }
            Answer::Dropped(touches) => write!(f, "touches made: {touches}"),
        }
    }
}

/// What a call on a frame is told: the answer, or the stop.
#[derive(Clone, Copy)]
pub(crate) struct Told(pub(crate) Result<Answer, Stop>);

impl fmt::Display for Told {
    fn fmt<W: fmt::Write>(&self, f: &mut fmt::Formatter<W>) -> fmt::Result {
        match self.0 {
            Ok(answer) => write!(f, "{answer}"),
            Err(stop) => write!(f, "stop {}: {stop}", stop.number()),
        }
    }
}
