//! What the rules say of small programs.

ghost use Rattle.c_rules.specs.declared.misfit.MisfitKind.TheVariants.{NoMain, LeftOut, UnknownName, DeclaredTwice, LibraryAsValue, WrongCount, KindMismatch, NotCallable, NotAssignable, NotConstant};
ghost use Rattle.kind_examples.specs.Answers.{Fits, Breaks};
ghost use Rattle.kind_examples.specs.Programs as programs;

/// In these programs of `specs/Programs.antt` no node breaks a rule.
pub fn programs_fit()
    ensures least { Fits programs.least }
    ensures built_in_names { Fits programs.built_in_names }
    ensures own_initializer { Fits programs.own_initializer }
    ensures parameter_hidden { Fits programs.parameter_hidden }
    ensures defined_behind { Fits programs.defined_behind }
    ensures initialised_apart { Fits programs.initialised_apart }
    ensures enumerator_in_sizeof { Fits programs.enumerator_in_sizeof }
    ensures library_hidden { Fits programs.library_hidden }
    ensures library_called { Fits programs.library_called }
    ensures handler_set { Fits programs.handler_set }
    ensures zero_action { Fits programs.zero_action }
    ensures difference_of_pointers { Fits programs.difference_of_pointers }
    ensures array_parameter { Fits programs.array_parameter }
    ensures array_elsewhere { Fits programs.array_elsewhere }
    ensures array_initialised { Fits programs.array_initialised }
    ensures array_pointed_to { Fits programs.array_pointed_to }
    ensures goto_forward { Fits programs.goto_forward }
    ensures element_of_an_array { Fits programs.element_of_an_array }
    ensures own_structure { Fits programs.own_structure }
    ensures own_pointer { Fits programs.own_pointer }
{}

/// In each of these programs this node is the first that breaks a rule, and this is the rule.
pub fn programs_break()
    ensures without_main { Breaks 0 NoMain programs.without_main }
    ensures main_of_an_int { Breaks 0 NoMain programs.main_of_an_int }
    ensures main_called { Breaks 5 LeftOut programs.main_called }
    ensures undeclared { Breaks 4 UnknownName programs.undeclared }
    ensures first_of_two { Breaks 5 UnknownName programs.first_of_two }
    ensures parameter_declared_again { Breaks 5 DeclaredTwice programs.parameter_declared_again }
    ensures defined_nowhere { Breaks 6 UnknownName programs.defined_nowhere }
    ensures initialised_twice { Breaks 7 DeclaredTwice programs.initialised_twice }
    ensures library_as_value { Breaks 8 LibraryAsValue programs.library_as_value }
    ensures too_few_for_the_library { Breaks 4 WrongCount programs.too_few_for_the_library }
    ensures no_handler { Breaks 6 KindMismatch programs.no_handler }
    ensures action_by_place { Breaks 5 LeftOut programs.action_by_place }
    ensures too_few_arguments { Breaks 10 WrongCount programs.too_few_arguments }
    ensures object_called { Breaks 6 NotCallable programs.object_called }
    ensures sum_of_pointers { Breaks 7 KindMismatch programs.sum_of_pointers }
    ensures constant_assigned { Breaks 7 NotAssignable programs.constant_assigned }
    ensures array_assigned { Breaks 7 NotAssignable programs.array_assigned }
    ensures array_without_size { Breaks 4 KindMismatch programs.array_without_size }
    ensures elements_without_size { Breaks 4 KindMismatch programs.elements_without_size }
    ensures local_without_size { Breaks 6 KindMismatch programs.local_without_size }
    ensures member_without_size { Breaks 5 KindMismatch programs.member_without_size }
    ensures enumerator_past_int { Breaks 4 NotConstant programs.enumerator_past_int }
    ensures static_initializer { Breaks 4 NotConstant programs.static_initializer }
    ensures element_behind_a_pointer { Breaks 4 NotConstant programs.element_behind_a_pointer }
    ensures case_twice { Breaks 8 DeclaredTwice programs.case_twice }
    ensures goto_without_label { Breaks 3 UnknownName programs.goto_without_label }
    ensures built_in_structure { Breaks 7 UnknownName programs.built_in_structure }
    ensures tag_of_a_prototype { Breaks 8 UnknownName programs.tag_of_a_prototype }
    ensures begun_twice { Breaks 1 DeclaredTwice programs.begun_twice }
{}
