//! The law on limits.

ghost use Rattle.grammar_limits.specs.LimitsLate.{LimitsComeLate};

/// Reading the items of a program passes a limit, 100,000 nodes or depth 1,000, at the 900th token at the earliest.
pub fn limits_come_late()
    ensures { LimitsComeLate }
{}
