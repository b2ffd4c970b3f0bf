//! Reading a pattern into its rule table.

#![tactic(auto)]

mod builder;
mod show;
mod table;
mod word;

ghost use Rattle.rule.specs.Loading.{Loads};
ghost use Rattle.rule.specs.Tables.{EachPatternHasOneTable};

pub use builder::{empty_rule, read};
use syntax::Fault;
pub use table::Rule;
pub use word::{Entry, Kind, UnknownKind};

/// A pattern has at most so many units.
pub const MOST_UNITS: u16 = 1020;

/// Groups stand inside one another to at most this depth.
pub const MOST_GROUPS: usize = 32;

/// Reads a pattern into a slot, and answers the number of its last position. A pattern that is refused leaves in the slot
/// what was there before.
pub fn load(slot: &mut Option<Rule>, pattern: &[u8]) -> Result<u16, Fault>
    ensures { Loads pattern.now slot.old result slot.new }
{
    let rule = read(pattern)?;
    let last = rule.last();
    *slot = Some(rule);
    Ok(last)
}

/// The table of a pattern is settled: its length, and every word of it.
pub fn each_pattern_has_one_table()
    ensures { EachPatternHasOneTable }
{}
