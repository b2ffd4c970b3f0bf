//! Reads commands from standard input, one a line, makes the calls that they ask for on one screen, and prints what is
//! answered.

#![tactic(auto)]

mod command;
mod number;
mod show;

use board::Counting;
use calls::Screen;
use command::{Command, KNOWN};
use lines::{Escaped, Kept, Table, Units};
use mark::YesNo;
use rule::read;
use show::{Answer, Told};
use std::io;
use std::io::{BufRead, BufReader};
use stops::Stop;

/// The cells of the board, as many as the longest pattern takes.
const CELLS: usize = 1023;

/// The screen that the calls are made on, the number of its rule's last position, and where to print.
#[derive(Drop)]
struct Console<'r, 'b, 'a> {
    rt: &'r HostRuntime,
    screen: Screen<'b, Counting<'a, YesNo>>,
    last: Option<u16>,
}

impl Console<'_, '_, '_> {
    /// Prints the table of a pattern.
    fn show_table(&self, pattern: &[u8]) -> io::Result<()> {
        match read(pattern) {
            Ok(rule) => print!(self.rt; "{}", Table(&rule)),
            Err(_) => Ok(()),
        }
    }

    /// Loads a pattern and prints its units, the answer and the table, or the stop and the rule that stays.
    fn load(&mut self, pattern: &[u8]) -> io::Result<()> {
        match self.screen.load(pattern) {
            Ok(last) => {
                self.last = Some(last);
                print!(self.rt; "{}", Units(pattern))?;
                println!(self.rt; "  n = {last}")?;
                self.show_table(pattern)
            }
            Err(fault) => {
                let kept = Kept(self.last);
                println!(self.rt; "  {fault}\n  {kept}")
            }
        }
    }

    /// Prints what a call on a frame was told, and the meter's reading after it.
    fn show_told(&self, told: Result<Answer, Stop>) -> io::Result<()> {
        let told = Told(told);
        println!(self.rt; "  {told}; meter {}", self.screen.meter())
    }

    /// Feeds the bytes of a text up to the first that is refused.
    fn feed(&mut self, renter: u8, text: &[u8]) -> io::Result<()> {
        if text.is_empty() {
            return println!(self.rt; "  no byte to feed; meter {}", self.screen.meter());
        }
        for byte in text {
            let answer = self.screen.feed(renter, *byte).map(Answer::Fed);
            let told = Told(answer);
            println!(self.rt; "  byte {byte:02X}: {told}; meter {}", self.screen.meter())?;
            if answer.is_err() {
                break;
            }
        }
        Ok(())
    }

    /// Makes the calls that a command asks for.
    fn run(&mut self, command: Command<'_>) -> io::Result<()> {
        match command {
            Command::Load(pattern) => self.load(pattern),
            Command::Begin { renter, length } => {
                let told = self.screen.begin(renter, length).map(Answer::Begun);
                self.show_told(told)
            }
            Command::Feed { renter, text } => self.feed(renter, text),
            Command::Finish { renter } => {
                let told = self.screen.finish(renter).map(|(verdict, touches)| {
                    Answer::Finished(verdict, touches)
                });
                self.show_told(told)
            }
            Command::Drop { renter } => {
                let told = self.screen.drop(renter).map(Answer::Dropped);
                self.show_told(told)
            }
            Command::Meter => println!(self.rt; "  meter {}", self.screen.meter()),
        }
    }

    /// Carries out a line.
    fn run_line(&mut self, line: &[u8]) -> io::Result<()> {
        match Command::of_line(line) {
            Ok(None) => Ok(()),
            Ok(Some(command)) => {
                println!(self.rt; "{}", Escaped(line))?;
                self.run(command)
            }
            Err(unknown) => println!(self.rt; "{unknown}\n{KNOWN}"),
        }
    }
}

fn main(rt: HostRuntime) -> io::Result<()> {
    let mut marks = vec![in rt.alloc(); YesNo::Nothing; CELLS]?;
    let mut board = Counting::new(marks.as_mut_slice());
    let mut console = Console {
        rt: &rt,
        screen: Screen::new(&mut board),
        last: None,
    };
    for line in BufReader::new(rt.alloc(), rt.stdin())?.split(rt.alloc(), b'\n') {
        console.run_line(line?.as_slice())?;
    }
    Ok(())
}
