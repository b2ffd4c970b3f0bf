//! Runs: lists of calls played on a screen from its making on, one run alone or two side by side.

#![tactic(auto)]

ghost use Rattle.conduct.specs.Runs.{TwoRuns};
ghost use Rattle.runs.specs.Playing.{Played, at_rest, orders, told_of};
ghost use Rattle.std.specs.Prelude.{take};

use board::Board;
use calls::{Answer, Call, Refusal, Screen};

/// What a call is told.
pub type Told<M> = Result<Answer<M>, Refusal>;

/// Plays calls on a new screen over the board, each from what the last one left, stopped ones too, and writes what each is told into
/// `told`. It plays as many calls as `told` has room for, and answers how many that are.
pub fn play<B: Board>(board: &mut B, calls: &[Call<'_>], told: &mut [Told<B::M>]) -> usize
    ensures { Played B.Board B.M.Mark.kind board.old board.new calls.now told.old told.new result }
{
    let room = calls.len().min(told.len());
    let mut screen = Screen::new(board);
    for (i, call) in calls[..room].iter().enumerate() {
        told[i] = screen.call(*call);
    }
    room
}

/// Plays two lists of calls, each on a new screen over a board of its own, as `play` does; answers how many calls of each list.
pub fn play_both<B: Board>(
    left: &mut B,
    left_calls: &[Call<'_>],
    left_told: &mut [Told<B::M>],
    right: &mut B,
    right_calls: &[Call<'_>],
    right_told: &mut [Told<B::M>],
) -> (usize, usize)
    ensures left { Played B.Board B.M.Mark.kind left.old left.new left_calls.now left_told.old left_told.new result.0 }
    ensures right { Played B.Board B.M.Mark.kind right.old right.new right_calls.now right_told.old right_told.new result.1 }
    ensures law { TwoRuns B.make B.M.Mark.kind (at_rest (B.cells left.old) (B.meter left.old)) (orders (take result.0 left_calls.now)) (told_of (take result.0 left_told.new)) (at_rest (B.cells left.new) (B.meter left.new)) (at_rest (B.cells right.old) (B.meter right.old)) (orders (take result.1 right_calls.now)) (told_of (take result.1 right_told.new)) (at_rest (B.cells right.new) (B.meter right.new)) }
{
    let played = play(left, left_calls, left_told);
    (played, play(right, right_calls, right_told))
}
