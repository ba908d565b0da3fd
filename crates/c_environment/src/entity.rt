ghost use Rattle.std.specs.Prelude.{◌≡◌, map, IfOk};
ghost use Rattle.c_kinds.specs.View.{view};
ghost use Rattle.c_environment.specs.Entity.{simple, variables_of};
ghost use Rattle.c_environment.specs.Seen.{seen_type, seen_variable, seen_entity};

use crate::built_in::KnownBuiltIn;
use c_kinds::CType;
use std::alloc::{AllocError, Global};

/// A type as a declaration gives it.
#[derive(Drop)]
pub struct DeclaredType {
    /// Its kind; of a function type that of pointers to it (C11 6.3.2.1p4).
    pub kind: CType,
    /// Whether it is a function type.
    pub is_function: bool,
    /// Whether it is an array without a size, which is incomplete (C11 6.2.5p22).
    pub is_open: bool,
    /// Whether what is declared with it is const (C11 6.7.3).
    pub constant: bool,
    /// Whether it is volatile.
    pub volatile: bool,
    /// Whether it is sig_atomic_t (C11 7.14p2), under whatever name.
    pub atomic: bool,
}

impl DeclaredType {
    /// A type without qualifiers that is no function type.
    pub fn simple(kind: CType) -> Self
        ensures { seen_type result ≡ simple (view kind) }
    {
        DeclaredType {
            kind,
            is_function: false,
            is_open: false,
            constant: false,
            volatile: false,
            atomic: false,
        }
    }

    /// The same type once more, in one step.
    pub fn share(&self) -> Result<Self, AllocError>
        ensures { IfOk result (λ t. seen_type t ≡ seen_type self.now) }
    {
        Ok(DeclaredType {
            kind: self.kind.share()?,
            is_function: self.is_function,
            is_open: self.is_open,
            constant: self.constant,
            volatile: self.volatile,
            atomic: self.atomic,
        })
    }
}

/// A variable.
#[derive(Drop)]
pub struct Variable {
    /// Its number among the variables, in order of the text.
    pub number: u32,
    pub of: DeclaredType,
    /// The number of the function in which it is first declared.
    pub owner: Option<u32>,
    /// Whether it has static storage duration (C11 6.2.4p3).
    pub lasting: bool,
    /// Whether it has linkage (C11 6.2.2).
    pub linked: bool,
}

impl Variable {
    /// The same variable once more, in one step. Err where there is not enough memory.
    pub fn share(&self) -> Result<Variable, AllocError>
        ensures { IfOk result (λ v. seen_variable v ≡ seen_variable self.now) }
    {
        Ok(Variable {
            number: self.number,
            of: self.of.share()?,
            owner: self.owner,
            lasting: self.lasting,
            linked: self.linked,
        })
    }
}

/// What an ordinary name stands for (C11 6.2.3).
#[derive(Drop)]
pub enum Entity {
    /// A variable, or a parameter of a function with a body.
    Variable(Variable),
    /// A parameter of a prototype.
    Parameter(DeclaredType),
    /// A function of the unit.
    Function(DeclaredType),
    /// An enumerator with its value, where it has one (C11 6.7.2.2).
    Enumerator(Option<i32>),
    /// A name of a type (C11 6.7.8).
    TypeName(DeclaredType),
    /// A library function, by its place in the table.
    Library(u32),
    /// A built-in name.
    BuiltIn(KnownBuiltIn),
}

/// The variables among these things, in order. Err where there is not enough memory.
pub(crate) fn variables_among(alloc: Global, all: &[Entity]) -> Result<Vec<Variable>, AllocError>
    ensures { IfOk result (λ vs. map seen_variable vs.items ≡ variables_of (map seen_entity all.now)) }
{
    let mut variables = Vec::new(alloc);
    for one in all {
        match one {
            Entity::Variable(variable) => variables.push(variable.share()?)?,
            Entity::Parameter(_)
            | Entity::Function(_)
            | Entity::Enumerator(_)
            | Entity::TypeName(_)
            | Entity::Library(_)
            | Entity::BuiltIn(_) => {}
        }
    }
    Ok(variables)
}
