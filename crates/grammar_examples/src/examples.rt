//! What the grammar reads, on examples.

ghost use Rattle.grammar_examples.specs.Examples.{ArrayOfPointers, PointerToFunction, Differences, Assignments, Choices, InnerElse, SizeOfAType, SizeOfAValue, CastOfAMinus, MinusBehindBrackets, StructWithValue, Enumeration, CastToANewType, ForWithDeclaration, Cases, Jump, Postfix, SizeOfItsOwnName};
ghost use Rattle.grammar_examples.specs.Refusals.{TypeDeclaredAgain, DifferenceAssigned, CaseWithoutASwitch, BreakWithoutALoop, BracketsRoundAName, LongChar, FunctionWithAValue, ParameterNamedAsItsType, MemberNamedAsItsType, EnumeratorNamedAsItsType};

/// Each of these small programs spells the tokens of the text beside it in `specs/Examples.antt`, and is read back from them.
pub fn examples_are_read_back()
    ensures array_of_pointers { ArrayOfPointers }
    ensures pointer_to_function { PointerToFunction }
    ensures differences { Differences }
    ensures assignments { Assignments }
    ensures choices { Choices }
    ensures inner_else { InnerElse }
    ensures size_of_a_type { SizeOfAType }
    ensures size_of_a_value { SizeOfAValue }
    ensures cast_of_a_minus { CastOfAMinus }
    ensures minus_behind_brackets { MinusBehindBrackets }
    ensures struct_with_value { StructWithValue }
    ensures enumeration { Enumeration }
    ensures cast_to_a_new_type { CastToANewType }
    ensures for_with_declaration { ForWithDeclaration }
    ensures cases { Cases }
    ensures jump { Jump }
    ensures postfix { Postfix }
    ensures size_of_its_own_name { SizeOfItsOwnName }
{}

/// In each of these texts the token behind the bar in `specs/Refusals.antt` is refused, as no rule goes on with it.
pub fn examples_are_refused()
    ensures type_declared_again { TypeDeclaredAgain }
    ensures difference_assigned { DifferenceAssigned }
    ensures case_without_a_switch { CaseWithoutASwitch }
    ensures break_without_a_loop { BreakWithoutALoop }
    ensures brackets_round_a_name { BracketsRoundAName }
    ensures long_char { LongChar }
    ensures function_with_a_value { FunctionWithAValue }
    ensures parameter_named_as_its_type { ParameterNamedAsItsType }
    ensures member_named_as_its_type { MemberNamedAsItsType }
    ensures enumerator_named_as_its_type { EnumeratorNamedAsItsType }
{}
