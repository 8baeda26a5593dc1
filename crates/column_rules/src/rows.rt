//! Small programs that break a rule, and their neighbours that keep them, computed from the definitions.
ghost use Rattle.column_rules.specs.SmallPrograms.{RuleRows};

/// Shared dummies, writes of module variables, `data` and `over`, the dimension and its bounds, RETURN.
pub fn rules_by_example()
    ensures { RuleRows }
{}
