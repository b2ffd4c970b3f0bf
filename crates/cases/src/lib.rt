//! Worked cases: patterns with the tables or stops that the definitions give them.

#![tactic(auto)]

ghost use Rattle.cases.specs.Cases.{WorkedCasesHold};

/// Each worked case follows from the definitions.
pub fn worked_cases_hold()
    ensures { WorkedCasesHold }
{}

#[cfg(test)]
mod tests {
    use rule::read;
    use std::test::Fail;

    // How reading the pattern ends: the last position, or the stop's number and place.
    fn ends(pattern: &[u8]) -> Result<u16, (u8, usize)> {
        let rule = read(pattern).map_err(|fault| (fault.stop.number(), fault.place))?;
        Ok(rule.last())
    }

    #[test]
    fn most_units_load(rt: HostRuntime) -> Result<(), Fail> {
        let pattern = vec![in rt.alloc(); b'a'; 1020]?;
        assert_eq!(rt; ends(pattern.as_slice()), Ok(1022));
        Ok(())
    }

    #[test]
    fn one_unit_more_is_too_long(rt: HostRuntime) -> Result<(), Fail> {
        let pattern = vec![in rt.alloc(); b'a'; 1021]?;
        assert_eq!(rt; ends(pattern.as_slice()), Err((1, 1020)));
        Ok(())
    }

    #[test]
    fn groups_to_33_are_too_deep(rt: HostRuntime) -> Result<(), Fail> {
        let pattern = vec![in rt.alloc(); b'('; 33]?;
        assert_eq!(rt; ends(pattern.as_slice()), Err((7, 32)));
        Ok(())
    }
}
