//! The yes/no kind: yes where all of a frame belongs.

ghost use Rattle.mark.specs.YesNo.{yes_no};

use crate::Mark;

/// Nothing, or yes.
#[derive(Clone, Copy, Debug, PartialEq, Eq, PartialOrd, Ord)]
pub enum YesNo {
    Nothing = 0,
    Yes = 1,
}

impl Mark for YesNo {
    ghost kind = { yes_no };

    fn nothing() -> YesNo {
        YesNo::Nothing
    }

    fn join(self, other: YesNo) -> YesNo {
        match self {
            YesNo::Yes => YesNo::Yes,
            YesNo::Nothing => other,
        }
    }

    fn seed(place: u64) -> YesNo {
        if place == 0 {
            YesNo::Yes
        } else {
            YesNo::Nothing
        }
    }

    fn code(self) -> u16 {
        self as u16
    }
}
