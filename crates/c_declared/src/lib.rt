//! What is said of the nodes of expressions, types and declarators (C11 6.5, 6.7).
#![tactic(auto)]

mod constness;
mod declared;
mod denoted;
mod faults;
mod judgements;
mod operands;
mod rules;
mod walk;

pub use constness::Constness;
pub use declared::{Declared, ParametersPart, Part, SizesPart};
pub use faults::{
    Faults, both, is_own, names_enumeration, object_faults, result_faults, tag_unknown, tag_word,
};
pub use judgements::Judgements;
pub use operands::Walked;
pub use rules::{broken, declared_name, once};
pub use walk::{walk_declarator, walk_operand, walk_parameters, walk_specifiers};
