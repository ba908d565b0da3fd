ghost use Rattle.c_builtins.specs.Distinct.{NamesAreDistinct};

/// No name stands twice among those of expressions and types, and no tag twice.
pub fn names_are_distinct()
    ensures { NamesAreDistinct }
{}
