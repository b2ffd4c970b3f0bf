//! The rules of the calls, and the law of runs: what each call is told, which touches it makes, what it leaves in the cells, and
//! what two runs have in common.

#![tactic(auto)]

ghost use Rattle.conduct.specs.Runs.{EachCallIsToldOneThing};

/// Whatever is loaded and open, a call is told one thing only.
pub fn each_call_is_told_one_thing<M, X>()
    ensures { EachCallIsToldOneThing M X }
{}
