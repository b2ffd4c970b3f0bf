//! Plays one night twice on two counting boards. The nights differ only in what renter 2 feeds and in what the cells first hold:
//! in one run its payload fits the pattern, in the other it fails. What each call is told is printed side by side.

#![tactic(auto)]

use board::{Board, Counting};
use calls::{Answer, Call};
use mark::YesNo;
use runs::{Told, play_both};
use std::{fmt, io};

/// The cells of each board.
const CELLS: usize = 16;
/// The calls of a night.
const CALLS: usize = 15;

/// A night's calls, with the payload of renter 2.
fn calls_with<'a>(pattern: &'a [u8], payload: [u8; 3]) -> [Call<'a>; CALLS] {
    let [a, b, c] = payload;
    [
        Call::Load(pattern),
        Call::Begin {
            renter: 1,
            length: 2,
        },
        Call::Feed {
            renter: 1,
            byte: b'A',
        },
        Call::Feed {
            renter: 1,
            byte: b'B',
        },
        Call::Finish { renter: 1 },
        Call::Meter,
        Call::Begin {
            renter: 2,
            length: 3,
        },
        Call::Feed { renter: 2, byte: a },
        Call::Feed {
            renter: 1,
            byte: b'A',
        },
        Call::Feed { renter: 2, byte: b },
        Call::Feed { renter: 2, byte: c },
        Call::Meter,
        Call::Finish { renter: 2 },
        Call::Meter,
        Call::Drop { renter: 2 },
    ]
}

/// A call, printed without the byte that it feeds.
#[derive(Clone, Copy)]
struct Asked<'a>(Call<'a>);

impl fmt::Display for Asked<'_> {
    fn fmt<W: fmt::Write>(&self, f: &mut fmt::Formatter<W>) -> fmt::Result {
        match self.0 {
            Call::Load(_) => write!(f, "load"),
            Call::Begin { renter, length } => write!(f, "begin {renter} {length}"),
            Call::Feed { renter, .. } => write!(f, "feed {renter}"),
            Call::Finish { renter } => write!(f, "finish {renter}"),
            Call::Drop { renter } => write!(f, "drop {renter}"),
            Call::Meter => write!(f, "meter"),
        }
    }
}

/// What a call was told, as it is printed.
#[derive(Clone, Copy)]
struct Heard(Told<YesNo>);

impl fmt::Display for Heard {
    fn fmt<W: fmt::Write>(&self, f: &mut fmt::Formatter<W>) -> fmt::Result {
        match self.0 {
            Ok(Answer::Number(number)) => write!(f, "{number}"),
            Ok(Answer::Verdict(verdict, touches)) => write!(f, "{verdict}, {touches}"),
            Err(refusal) => write!(f, "stop {}", refusal.stop.number()),
        }
    }
}

/// What each call of a night is told.
type Answers = [Told<YesNo>; CALLS];

/// A night in which renter 2 feeds `payload`: its calls, the cells of its board, which first hold `mark`, and memory for what it is told.
fn night<'a>(
    pattern: &'a [u8],
    payload: [u8; 3],
    mark: YesNo,
) -> ([Call<'a>; CALLS], [YesNo; CELLS], Answers) {
    let told = [Ok(Answer::Number(0)); CALLS];
    (calls_with(pattern, payload), [mark; CELLS], told)
}

/// Prints both runs, call by call.
fn show_runs(
    rt: &HostRuntime,
    calls: &[Call<'_>],
    left: &Answers,
    right: &Answers,
) -> io::Result<()> {
    println!(rt; "call       one run       the other")?;
    for ((call, one), other) in calls.iter().zip(left).zip(right) {
        let call = Asked(*call).to_string(rt.alloc())?;
        let one = Heard(*one).to_string(rt.alloc())?;
        let other = Heard(*other).to_string(rt.alloc())?;
        println!(rt; "{call:<9}  {one:<12}  {other}")?;
    }
    Ok(())
}

fn main(rt: HostRuntime) -> io::Result<()> {
    let pattern = b"(A)*B|C";
    let (left_calls, mut left_cells, mut left_told) = night(pattern, *b"AAB", YesNo::Nothing);
    let (right_calls, mut right_cells, mut right_told) = night(pattern, *b"A?B", YesNo::Yes);
    let mut left = Counting::new(&mut left_cells);
    let mut right = Counting::new(&mut right_cells);
    play_both(
        &mut left,
        &left_calls,
        &mut left_told,
        &mut right,
        &right_calls,
        &mut right_told,
    );
    show_runs(&rt, &left_calls, &left_told, &right_told)?;
    let one = left.reading();
    let other = right.reading();
    println!(rt; "readings   {one:<12}  {other}")
}
