//! Drives a board of each make through the same accesses, good and refused, for each kind of mark, and prints what each
//! access answers and what is left in the slices that the boards were lent.

#![tactic(auto)]

use board::{Board, Counting, Row, Trace};
use drive::{Access, drive_counting, drive_row, drive_trace, touch};
use mark::{Mark, Tail, YesNo};
use std::io;

/// The cells of each board.
const CELLS: usize = 20;
/// The words of the trace board, fewer than the accesses that it would accept.
const WORDS: usize = 6;
/// What the words hold before.
const UNUSED: u32 = 0xFFFFFFFF;

/// The accesses; 20 and the largest number are no cells.
fn accesses<M: Mark>() -> [Access<M>; 11] {
    [
        Access::Write(0, M::seed(0)),
        Access::Read(0),
        Access::Read(15),
        Access::Read(16),
        Access::Read(20),
        Access::Write(19, M::seed(3)),
        Access::Write(u64::MAX, M::seed(0)),
        Access::Read(19),
        Access::Write(1, M::seed(0)),
        Access::Read(1),
        Access::Read(20),
    ]
}

/// Puts nothing into each cell.
fn wipe<M: Mark>(marks: &mut [M]) {
    for mark in marks {
        *mark = M::nothing();
    }
}

/// Accesses to show on boards of each make.
#[derive(Clone, Copy)]
struct Demo<'a, M> {
    rt: &'a HostRuntime,
    accesses: &'a [Access<M>],
}

impl<'a, M: Mark> Demo<'a, M> {
    /// Prints each of the accesses on a new board with what it answers, and the reading after it.
    fn show_accesses<B: Board<M = M>>(&self, name: &str, board: &mut B) -> io::Result<()> {
        println!(self.rt;
            " {name}: {} cells, allowance {}",
            board.size(),
            board.allowance()
        )?;
        for access in self.accesses {
            match access {
                Access::Read(cell) => print!(self.rt; "  read {cell}: ")?,
                Access::Write(cell, mark) => print!(self.rt;
                    "  write {} to {cell}: ",
                    mark.code()
                )?,
            }
            match touch(board, *access) {
                Ok(mark) => print!(self.rt; "mark {}", mark.code())?,
                Err(stop) => print!(self.rt; "stop {}, {stop}", stop.number())?,
            }
            println!(self.rt; "; reading {}", board.reading())?;
        }
        Ok(())
    }

    /// Prints the last reading and the marks.
    fn show_left(&self, reading: u64, marks: &[M]) -> io::Result<()> {
        print!(self.rt; "  left: reading {reading}, marks")?;
        for mark in marks {
            print!(self.rt; " {}", mark.code())?;
        }
        println!(self.rt; "")
    }

    /// Prints the accesses on a board of one make, and then what driving another leaves in the marks.
    fn show_make<S, D>(&self, marks: &mut [M], show: S, drive: D) -> io::Result<()>
    where
        S: FnOnce(&mut [M]) -> io::Result<()>,
        D: FnOnce(&mut [M]) -> u64,
        requires shows { S.IsAlwaysCallable show }
        requires drives { D.IsAlwaysCallable drive }
    {
        wipe(marks);
        show(marks)?;
        wipe(marks);
        let reading = drive(marks);
        self.show_left(reading, marks)
    }

    /// Prints a board of each make, and the words of the trace board.
    fn show(&self, kind: &str, marks: &mut [M]) -> io::Result<()> {
        println!(self.rt; "{kind}")?;
        self.show_make(
            marks,
            |marks| self.show_accesses("counting", &mut Counting::new(marks)),
            |marks| drive_counting(marks, self.accesses),
        )?;
        self.show_make(
            marks,
            |marks| self.show_accesses("row", &mut Row::new(marks)),
            |marks| drive_row(marks, self.accesses),
        )?;
        let mut words = [UNUSED; WORDS];
        self.show_make(
            marks,
            |marks| self.show_accesses("trace", &mut Trace::new(marks, &mut [UNUSED; WORDS])),
            |marks| drive_trace(marks, &mut words, self.accesses),
        )?;
        print!(self.rt; "  words:")?;
        for word in words {
            print!(self.rt; " {word:08X}")?;
        }
        println!(self.rt; "")
    }
}

fn main(rt: HostRuntime) -> io::Result<()> {
    let rt = &rt;
    Demo {
        rt,
        accesses: &accesses::<YesNo>(),
    }
    .show("yes/no", &mut [YesNo::nothing(); CELLS])?;
    Demo {
        rt,
        accesses: &accesses::<Tail>(),
    }
    .show("tail", &mut [Tail::nothing(); CELLS])
}
