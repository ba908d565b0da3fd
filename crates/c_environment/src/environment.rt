//! What the names at a place of the text stand for, and how blocks begin and end.

ghost use Rattle.std.specs.Prelude.{◌≡◌, map, option_map, IfOk, OnOk};
ghost use Rattle.c_environment.specs.Entity.{variables_of};
ghost use Rattle.c_environment.specs.Environment as plain;
ghost use Rattle.c_environment.specs.Seen.{seen_entity, seen_variable, seen_structure, seen_environment};

use crate::entity::{Entity, Variable, variables_among};
use crate::members::Structure;
use c_constants::Names;
use c_scopes::Scope;
use std::alloc::{AllocError, Global};

/// What the names at a place of the text stand for. A contract sees it as `seen_environment` of `specs/Seen.antt` says.
#[derive(Drop)]
pub struct Environment<'a> {
    pub(crate) alloc: Global,
    /// The things declared so far, in order of the text, behind those of the implementation.
    pub(crate) entities: Vec<Entity>,
    /// The ordinary names, by the numbers of the things that they stand for.
    pub(crate) names: Scope<'a>,
    /// The names of the implementation, which stand outside the file's scope.
    pub(crate) implementation: Scope<'a>,
    /// The objects and functions with linkage, by name (C11 6.2.2p2).
    pub(crate) linked: Scope<'a>,
    /// The tags, by the numbers of what they name.
    pub(crate) tags: Scope<'a>,
    /// What tags name: structures, by their numbers, and enumerations.
    pub(crate) tagged: Vec<Option<u32>>,
    pub(crate) structures: Vec<Structure<'a>>,
    /// How many variables there are.
    pub(crate) variables: u32,
    /// The number of the function in whose text the place stands.
    pub(crate) inside: Option<u32>,
    /// The functions with a body in the whole unit, by their numbers (C11 6.9p3).
    pub(crate) functions: Scope<'a>,
    /// The objects with a definition in the unit (C11 6.9.2).
    pub(crate) objects: Scope<'a>,
    /// The names with linkage that have had a body or an initialiser so far.
    pub(crate) initialised: Scope<'a>,
    /// The labels of the function so far (C11 6.2.1p3).
    pub(crate) labels: Scope<'a>,
}

impl<'a> Environment<'a> {
    /// The number of what an ordinary name stands for.
    pub fn number(&self, name: &[u8]) -> Option<u32>
        ensures { result ≡ plain.number (seen_environment self.now) name.now }
    {
        match self.names.look_up(name) {
            Some(number) => Some(number),
            None => self.implementation.look_up(name),
        }
    }

    /// What an ordinary name stands for.
    pub fn entity(&self, name: &[u8]) -> Option<&Entity>
        ensures { option_map (λ e. seen_entity e.now) result ≡ plain.entity (seen_environment self.now) name.now }
    {
        match self.number(name) {
            Some(number) => self.entities.get(number as usize),
            None => None,
        }
    }

    /// What the innermost block has declared the name as.
    pub fn entity_here(&self, name: &[u8]) -> Option<&Entity>
        ensures { option_map (λ e. seen_entity e.now) result ≡ plain.entity_here (seen_environment self.now) name.now }
    {
        match self.names.declared_here(name) {
            Some(number) => self.entities.get(number as usize),
            None => None,
        }
    }

    /// The object or function with linkage of this name (C11 6.2.2p2).
    pub fn linked_entity(&self, name: &[u8]) -> Option<&Entity>
        ensures { option_map (λ e. seen_entity e.now) result ≡ plain.linked_entity (seen_environment self.now) name.now }
    {
        match self.linked.look_up(name) {
            Some(number) => self.entities.get(number as usize),
            None => None,
        }
    }

    /// All variables declared so far, in order of their numbers. Err where there is not enough memory.
    pub fn all_variables(&self) -> Result<Vec<Variable>, AllocError>
        ensures { IfOk result (λ vs. map seen_variable vs.items ≡ variables_of (seen_environment self.now).entities) }
    {
        variables_among(self.alloc, self.entities.as_slice())
    }

    /// Whether the innermost block has declared the name.
    pub fn is_declared_here(&self, name: &[u8]) -> bool
        ensures { result ≡ plain.is_declared_here (seen_environment self.now) name.now }
    {
        self.names.declared_here(name).is_some()
    }

    /// Whether the name is one of the implementation's.
    pub fn is_reserved(&self, name: &[u8]) -> bool
        ensures { result ≡ plain.is_reserved (seen_environment self.now) name.now }
    {
        self.implementation.look_up(name).is_some()
    }

    /// What a tag names: None where it isn't declared, else the number of a structure, or an enumeration.
    pub fn tag(&self, name: &[u8]) -> Option<Option<u32>>
        ensures { result ≡ plain.tag (seen_environment self.now) name.now }
    {
        match self.tags.look_up(name) {
            Some(number) => self.tagged.get(number as usize).copied(),
            None => None,
        }
    }

    /// The same, where the innermost block has declared the tag.
    pub fn tag_here(&self, name: &[u8]) -> Option<Option<u32>>
        ensures { result ≡ plain.tag_here (seen_environment self.now) name.now }
    {
        match self.tags.declared_here(name) {
            Some(number) => self.tagged.get(number as usize).copied(),
            None => None,
        }
    }

    /// The structure of this number.
    pub fn structure(&self, number: u32) -> Option<&Structure<'a>>
        ensures { option_map (λ s. seen_structure s.now) result ≡ plain.structure (seen_environment self.now) number }
    {
        self.structures.get(number as usize)
    }

    /// The number of the function of the unit that has this name and a body.
    pub fn function_number(&self, name: &[u8]) -> Option<u32>
        ensures { result ≡ plain.function_number (seen_environment self.now) name.now }
    {
        self.functions.look_up(name)
    }

    /// Whether the unit defines an object of this name, that has linkage.
    pub fn is_defined_object(&self, name: &[u8]) -> bool
        ensures { result ≡ plain.is_defined_object (seen_environment self.now) name.now }
    {
        self.objects.look_up(name).is_some()
    }

    /// Whether the name has had a body, or an initialiser, before.
    pub fn is_initialised(&self, name: &[u8]) -> bool
        ensures { result ≡ plain.is_initialised (seen_environment self.now) name.now }
    {
        self.initialised.look_up(name).is_some()
    }

    /// Whether the function has had a label of this name before.
    pub fn is_label(&self, name: &[u8]) -> bool
        ensures { result ≡ plain.is_label (seen_environment self.now) name.now }
    {
        self.labels.look_up(name).is_some()
    }

    /// Behind a label. Err where there is not enough memory; the environment is then of no use.
    pub fn with_label(&mut self, name: &'a [u8]) -> Result<(), AllocError>
        ensures { OnOk result (seen_environment self.new ≡ plain.with_label (seen_environment self.old) name.now) }
    {
        self.labels.declare(name, 0)
    }

    /// Behind the body of a function, or the initialiser of an object with linkage. Err where there is not enough memory; the environment
    /// is then of no use.
    pub fn with_initialised(&mut self, name: &'a [u8]) -> Result<(), AllocError>
        ensures { OnOk result (seen_environment self.new ≡ plain.with_initialised (seen_environment self.old) name.now) }
    {
        self.initialised.declare(name, 0)
    }

    /// Whether the place stands outside all functions.
    pub fn at_file_scope(&self) -> bool
        ensures { result ≡ plain.at_file_scope (seen_environment self.now) }
    {
        self.inside.is_none()
    }

    /// Enters a block (C11 6.2.1p4). Err where there is not enough memory; the environment is then of no use.
    pub fn entered(&mut self) -> Result<(), AllocError>
        ensures { OnOk result (seen_environment self.new ≡ plain.entered (seen_environment self.old)) }
    {
        self.names.enter()?;
        self.tags.enter()
    }

    /// Leaves the innermost block.
    pub fn left(&mut self)
        ensures { seen_environment self.new ≡ plain.left (seen_environment self.old) }
    {
        self.names.leave();
        self.tags.leave();
    }

    /// Goes into the text of the function of this number, or behind it.
    pub fn within_function(&mut self, function: Option<u32>)
        ensures { seen_environment self.new ≡ plain.within_function (seen_environment self.old) function }
    {
        self.inside = function;
        self.labels.leave();
    }
}

impl<'a> Names for Environment<'a> {
    ghost use Rattle.c_environment.specs.Environment.{value};
    ghost use Rattle.c_environment.specs.Seen.{seen_environment};

    ghost values = { λ env. value (seen_environment env) };

    fn value(&self, name: &[u8]) -> Option<i32> {
        match self.entity(name) {
            Some(Entity::Enumerator(value)) => *value,
            Some(Entity::BuiltIn(built_in)) => built_in.value(),
            _ => None,
        }
    }
}
