//! The tail kind: the smallest start from which on a frame belongs.

ghost use Rattle.mark.specs.Tail.{tail};

use crate::{Mark, Start};

/// Nothing, or a start.
pub type Tail = Option<Start>;

impl Mark for Tail {
    ghost kind = { tail };

    fn nothing() -> Tail {
        None
    }

    fn join(self, other: Tail) -> Tail {
        match (self, other) {
            (Some(a), Some(b)) => Some(a.min(b)),
            _ => self.or(other),
        }
    }

    fn seed(place: u64) -> Tail {
        Start::try_from(place).ok()
    }

    fn code(self) -> u16 {
        self.map_or(65535, Start::place)
    }
}
