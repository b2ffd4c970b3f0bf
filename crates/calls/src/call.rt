//! Calls as values, and what they are told.

ghost use Rattle.std.specs.Prelude.{◌≡◌, None, Some};

use stops::Stop;
use syntax::Fault;

/// What is asked of a screen.
#[derive(Clone, Copy, Debug, PartialEq, Eq)]
pub enum Call<'a> {
    /// Read a pattern and make it the rule.
    Load(&'a [u8]),
    /// Open a frame of a renter, of so many bytes.
    Begin { renter: u8, length: u64 },
    /// Feed the next byte of a renter's frame.
    Feed { renter: u8, byte: u8 },
    /// End a renter's frame, and read its verdict.
    Finish { renter: u8 },
    /// End a renter's frame unread.
    Drop { renter: u8 },
    /// Read the meter.
    Meter,
}

/// What an accepted call answers: a number; or of a finish the mark, and the touches made for the frame.
#[derive(Clone, Copy, Debug, PartialEq, Eq)]
pub enum Answer<M> {
    Number(u64),
    Verdict(M, u64),
}

/// Why a call stopped, and if it was a load at which place of the pattern.
#[derive(Clone, Copy, Debug, PartialEq, Eq)]
pub struct Refusal {
    pub stop: Stop,
    pub place: Option<usize>,
}

impl From<Stop> for Refusal {
    ghost from_gives = { λ stop r. r ≡ record { stop = stop; place = None } };

    fn from(stop: Stop) -> Refusal {
        Refusal { stop, place: None }
    }
}

impl From<Fault> for Refusal {
    ghost from_gives = { λ fault r. r ≡ record { stop = fault.stop; place = Some fault.place } };

    fn from(fault: Fault) -> Refusal {
        Refusal {
            stop: fault.stop,
            place: Some(fault.place),
        }
    }
}
