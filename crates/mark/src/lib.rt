//! Marks: what a cell of a board holds. A mark is of a kind, which says what nothing is, how marks are joined,
//! which mark a place of a frame is seeded with, and the number that a mark is shown by.

#![tactic(auto)]

mod show;
mod start;
mod tail;
mod yes_no;

ghost use Rattle.mark.specs.Marks.{Kind};
ghost use Rattle.std.specs.Prelude.{◌≡◌};

pub use start::{MOST_BYTES, PastTheEnd, Start};
pub use tail::Tail;
pub use yes_no::YesNo;

/// A kind of mark. A type of marks has to show the laws that `Kind` asks for.
pub trait Mark: Copy {
    ghost kind: { Kind Self };

    /// The mark of no place.
    fn nothing() -> Self
        ensures { result ≡ kind.nothing };

    /// The mark of what either mark stands for.
    fn join(self, other: Self) -> Self
        ensures { result ≡ kind.join self other };

    /// The mark that a place of a frame is seeded with.
    fn seed(place: u64) -> Self
        ensures { result ≡ kind.seed place };

    /// The number that the mark is shown by.
    fn code(self) -> u16
        ensures { result ≡ kind.code self };
}
