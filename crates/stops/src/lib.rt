//! The stops: why a call is not carried out, and the number of each reason.

#![tactic(auto)]

ghost use Rattle.stops.specs.Stops.{stop_number};
ghost use Rattle.std.specs.Prelude.{◌≡◌};

use std::error::Error;
use std::fmt;

/// Why a call is not carried out. Each stop is known by its number.
#[derive(Clone, Copy, Debug, PartialEq, Eq)]
pub enum Stop {
    /// A byte follows the most units that a pattern may have.
    TooLong = 1,
    /// A backslash that begins no escape, or one of `[ ] { } ^ $` bare.
    NoUnit = 2,
    /// A `)` with no group open.
    NothingOpen = 3,
    /// The pattern ends with a group open.
    LeftOpen = 4,
    /// A repeat sign first in the pattern, or after `(` or `|`.
    NoOperand = 5,
    /// A repeat sign after a repeat sign.
    SignAfterSign = 6,
    /// A `(` inside the most groups that may be open.
    TooDeep = 7,
    /// The pattern's positions do not fit the board.
    TooWide = 8,
    /// A load while a frame is open.
    LoadWhileOpen = 9,
    /// A begin without a rule.
    NoRule = 10,
    /// A begin while a frame is open.
    FrameOpen = 11,
    /// No frame is open.
    NoFrame = 12,
    /// The open frame is another renter's.
    OtherRenter = 13,
    /// A feed after all bytes of the frame.
    AllFed = 14,
    /// A finish before all bytes of the frame.
    BytesMissing = 15,
    /// A begin of a frame with more bytes than a frame may have.
    FrameTooLong = 16,
    /// The board's allowance is less than the frame takes.
    AllowanceTooSmall = 17,
    /// A cell number that is not below the board's size.
    NoCell = 18,
    /// The board's allowance is used up.
    NoAllowance = 19,
}

impl Stop {
    /// The number that the stop is known by.
    pub fn number(self) -> u8
        ensures { result ≡ stop_number self }
    {
        self as u8
    }
}

/// The reason in words.
impl fmt::Display for Stop {
    fn fmt<W: fmt::Write>(&self, f: &mut fmt::Formatter<W>) -> fmt::Result {
        f.write_str(match self {
            Stop::TooLong => "a byte follows the most units that a pattern may have",
            Stop::NoUnit => "a backslash that begins no escape, or one of [ ] { } ^ $ bare",
            Stop::NothingOpen => "a ) with no group open",
            Stop::LeftOpen => "the pattern ends with this group open",
            Stop::NoOperand => "a repeat sign first in the pattern, or after ( or |",
            Stop::SignAfterSign => "a repeat sign after a repeat sign",
            Stop::TooDeep => "a ( inside the most groups that may be open",
            Stop::TooWide => "the pattern has more positions than the board has cells",
            Stop::LoadWhileOpen => "a load while a frame is open",
            Stop::NoRule => "a begin without a rule",
            Stop::FrameOpen => "a begin while a frame is open",
            Stop::NoFrame => "no frame is open",
            Stop::OtherRenter => "the open frame is another renter's",
            Stop::AllFed => "a feed after all bytes of the frame",
            Stop::BytesMissing => "a finish before all bytes of the frame",
            Stop::FrameTooLong => "a frame of more bytes than a frame may have",
            Stop::AllowanceTooSmall => "the board's allowance is less than the frame takes",
            Stop::NoCell => "the cell number is not below the board's size",
            Stop::NoAllowance => "the board's allowance is 0",
        })
    }
}

impl Error for Stop {}
