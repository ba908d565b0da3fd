//! Laws of the grammar.

ghost use Rattle.c_tree.specs.EqualSpellings.{EqualSpellingsAreEqualTrees};
ghost use Rattle.c_grammar.specs.Kind.{KeywordsAreThoseOfTheLexis};

/// Two programs of the shape that the grammar asks, with equal spelling, are equal: a list of tokens is spelled by one program
/// at most.
pub fn equal_spellings_are_equal_trees()
    ensures { EqualSpellingsAreEqualTrees }
{}

/// The rules tell apart exactly the keywords of the subset (C11 6.4.1): the texts of these kinds are the scanner's list.
pub fn keywords_are_those_of_the_lexis()
    ensures { KeywordsAreThoseOfTheLexis }
{}
