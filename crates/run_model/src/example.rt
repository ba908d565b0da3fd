//! Programs with a run that breaks a rule, and the same mended.

ghost use Rattle.run_model.specs.Examples.{ExampleIsCode, RunsThatBreakARule, RunsThatBreakNone};

/// For each rule a program has a run whose last step breaks it, and no other step breaks one.
pub fn runs_break_each_rule()
    ensures { RunsThatBreakARule }
{}

/// The same programs mended have a run of the same length that breaks none.
pub fn runs_break_none()
    ensures { RunsThatBreakNone }
{}

/// What the laws ask of a program is met by one of these.
pub fn example_is_code()
    ensures { ExampleIsCode }
{}
