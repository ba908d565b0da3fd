ghost use Rattle.std.specs.Prelude.{◌≡◌, map};
ghost use Rattle.c_builtins.specs.Types.{type_names};
ghost use Rattle.c_tree.specs.TypeWords.{built_in_types};

/// The names that are types before the first item are those that are types to the grammar, in the same order.
pub fn type_names_are_the_grammars()
    ensures { map (λ t. t.0) type_names ≡ built_in_types }
{}
