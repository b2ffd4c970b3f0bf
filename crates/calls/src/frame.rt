//! What a screen knows of the frame that is open.

ghost use Rattle.std.specs.Prelude.{◌≡◌, ◌≢◌, MatchResult};
ghost use Rattle.stops.specs.declared.Stop.TheVariants.{OtherRenter};
ghost use Rattle.calls.specs.Told.{closed, opened};

use stops::Stop;

/// A frame that is open: whose it is, how many bytes it is to have, how many were fed, and the touches made for it so far.
#[derive(Clone, Copy, Debug, PartialEq, Eq)]
pub struct OpenFrame {
    pub(crate) renter: u8,
    pub(crate) length: u64,
    pub(crate) fed: u64,
    pub(crate) touches: u64,
}

impl OpenFrame {
    /// Whether the frame is a renter's: else stop 13.
    pub(crate) fn check_renter(self, renter: u8) -> Result<(), Stop>
        ensures { MatchResult result (λ _. self.renter ≡ renter) (λ stop. (self.renter ≢ renter) × (stop ≡ OtherRenter)) }
    {
        if self.renter == renter {
            Ok(())
        } else {
            Err(Stop::OtherRenter)
        }
    }
}

/// A screen is empty, as it is made; ready, with a rule and no frame; or open.
#[derive(Clone, Copy, Debug, PartialEq, Eq)]
pub enum State {
    Empty,
    Ready,
    Open(OpenFrame),
}

impl State {
    /// Opens a frame in a ready state; another stays.
    pub(crate) fn open(&mut self, frame: OpenFrame)
        ensures { self.new ≡ opened frame self.old }
    {
        *self = match *self {
            State::Ready => State::Open(frame),
            other => other,
        };
    }

    /// Ends the frame of an open state; another stays.
    pub(crate) fn close(&mut self)
        ensures { self.new ≡ closed self.old }
    {
        *self = match *self {
            State::Open(_) => State::Ready,
            other => other,
        };
    }
}
