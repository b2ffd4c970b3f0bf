//! Reads commands from standard input, one a line, and prints what the unit makes of each.

#![tactic(auto)]

mod command;

use command::{Command, KNOWN};
use lines::{Escaped, Kept, Table, Units};
use rule::{Rule, load};
use std::io;
use std::io::{BufRead, BufReader};

/// The rule of the last accepted pattern, and where to print.
#[derive(Drop)]
struct Console<'r> {
    rt: &'r HostRuntime,
    rule: Option<Rule>,
}

impl Console<'_> {
    /// Loads a pattern and prints its units and its table, or the stop and the rule that stays.
    fn load(&mut self, pattern: &[u8]) -> io::Result<()> {
        println!(self.rt; "load {}", Escaped(pattern))?;
        match load(&mut self.rule, pattern) {
            Ok(last) => {
                print!(self.rt; "{}", Units(pattern))?;
                println!(self.rt; "  n = {last}")?;
                self.show_table()
            }
            Err(fault) => {
                let kept = Kept(self.rule.as_ref().map(Rule::last));
                println!(self.rt; "  {fault}\n  {kept}")
            }
        }
    }

    /// Prints the table of the rule that is loaded.
    fn show_table(&self) -> io::Result<()> {
        match &self.rule {
            Some(rule) => print!(self.rt; "{}", Table(rule)),
            None => Ok(()),
        }
    }

    /// Carries out a line.
    fn run_line(&mut self, line: &[u8]) -> io::Result<()> {
        match Command::of_line(line) {
            Ok(None) => Ok(()),
            Ok(Some(Command::Load(pattern))) => self.load(pattern),
            Err(unknown) => println!(self.rt; "{unknown}\n{KNOWN}"),
        }
    }
}

fn main(rt: HostRuntime) -> io::Result<()> {
    let mut console = Console {
        rt: &rt,
        rule: None,
    };
    for line in BufReader::new(rt.alloc(), rt.stdin())?.split(rt.alloc(), b'\n') {
        console.run_line(line?.as_slice())?;
    }
    Ok(())
}
