//! A place in a frame from which the rest may be wanted.

ghost use Rattle.std.specs.Prelude.{◌<◌, ◌≤◌, ◌≡◌, MatchResult};
ghost use Rattle.mark.specs.Limits.{most_bytes};

use std::error::Error;
use std::fmt;

/// A frame has at most so many bytes.
pub const MOST_BYTES: u16 = 4096;

/// A start: a place from 0 to the most bytes of a frame.
#[derive(Clone, Copy, Debug, PartialEq, Eq, PartialOrd, Ord)]
pub struct Start {
    place: u16,
    ghost within: { place ≤ most_bytes },
}

/// A place past the end of every frame.
#[derive(Clone, Copy, Debug, PartialEq, Eq)]
pub struct PastTheEnd(pub u64);

impl Start {
    /// The place of the start in its frame.
    pub fn place(self) -> u16
        ensures { result ≡ self.place }
    {
        self.place
    }
}

/// The start at a place, where a frame may have it.
impl TryFrom<u64> for Start {
    type Error = PastTheEnd;

    ghost try_from_gives = { λ place r. MatchResult r (λ start. (start.place ≡ place) × (place ≤ most_bytes)) (λ e. (e.0 ≡ place) × (most_bytes < place)) };

    fn try_from(place: u64) -> Result<Start, PastTheEnd> {
        match u16::try_from(place) {
            Ok(place) if place <= MOST_BYTES => Ok(Start { place }),
            _ => Err(PastTheEnd(place)),
        }
    }
}

/// The place, and the most that a frame has.
impl fmt::Display for PastTheEnd {
    fn fmt<W: fmt::Write>(&self, f: &mut fmt::Formatter<W>) -> fmt::Result {
        write!(
            f,
            "place {} is past the {MOST_BYTES} bytes of a frame",
            self.0
        )
    }
}

impl Error for PastTheEnd {}
