//! The types that specifiers name, at a place where names stand for this (C11 6.7.2). Err where there is not enough memory.

ghost use Rattle.std.specs.Prelude.{◌≡◌, map, option_map, IfOk};
ghost use Rattle.c_tree.specs.View.{view_specifier, specifiers_of};
ghost use Rattle.c_environment.specs.Environment.{type_of, entity};
ghost use Rattle.c_environment.specs.Types as plain;
ghost use Rattle.c_environment.specs.Seen.{seen_type, seen_environment};

use crate::declare::next_number;
use crate::entity::{DeclaredType, Entity};
use crate::environment::Environment;
use crate::words::{Word, integer_kind, stands_among};
use base_core::Lexeme;
use c_kinds::CType;
use c_tree::SpecWord;
use std::alloc::AllocError;

impl<'a> Environment<'a> {
    /// The number of the structure that a tag names, a new one where it names none.
    pub fn structure_number(&self, known: Option<Option<u32>>) -> Result<u32, AllocError>
        ensures { IfOk result (λ number. number ≡ plain.structure_number (seen_environment self.now) known) }
    {
        match known {
            Some(Some(number)) => Ok(number),
            _ => next_number(self.structures.len()),
        }
    }

    /// The number of the structure that a tag alone names (C11 6.7.2.3p8).
    pub fn mentioned_structure(&self, name: &[u8]) -> Result<u32, AllocError>
        ensures { IfOk result (λ number. number ≡ plain.mentioned_structure (seen_environment self.now) name.now) }
    {
        self.structure_number(self.tag(name))
    }

    /// The number of the structure that a tag with braces names, or braces alone (C11 6.7.2.3p7).
    pub fn defined_structure(&self, tag: &Option<Lexeme>) -> Result<u32, AllocError>
        ensures { IfOk result (λ number. number ≡ plain.defined_structure (seen_environment self.now) tag.now) }
    {
        match tag {
            Some(name) => self.structure_number(self.tag_here(name.as_bytes())),
            None => next_number(self.structures.len()),
        }
    }

    /// The type that a name of a type stands for.
    fn type_named(&self, name: &[u8]) -> Result<Option<DeclaredType>, AllocError>
        ensures { IfOk result (λ t. option_map seen_type t ≡ type_of (entity (seen_environment self.now) name.now)) }
    {
        match self.entity(name) {
            Some(Entity::TypeName(of)) => Ok(Some(of.share()?)),
            _ => Ok(None),
        }
    }

    /// The type that a word names, where it names a whole type.
    fn whole(&self, word: &SpecWord) -> Result<Option<DeclaredType>, AllocError>
        ensures { IfOk result (λ t. option_map seen_type t ≡ plain.whole (seen_environment self.now) (view_specifier word.now)) }
    {
        let kind = match word {
            SpecWord::Void => CType::Void,
            SpecWord::TypeName(name) => return self.type_named(name.as_bytes()),
            SpecWord::StructTag(name) => {
                CType::Struct(self.mentioned_structure(name.as_bytes())?)
            }
            SpecWord::Struct(tag, _) => CType::Struct(self.defined_structure(tag)?),
            SpecWord::EnumTag(_) | SpecWord::Enum(_, _, _) => CType::Int(32, true),
            _ => return Ok(None),
        };
        Ok(Some(DeclaredType::simple(kind)))
    }

    /// The first whole type that is named.
    fn first_whole(&self, specs: &[SpecWord]) -> Result<Option<DeclaredType>, AllocError>
        ensures { IfOk result (λ t. option_map seen_type t ≡ plain.first_whole (seen_environment self.now) (specifiers_of (map view_specifier specs.now))) }
    {
        for word in specs {
            if let Some(of) = self.whole(word)? {
                return Ok(Some(of));
            }
        }
        Ok(None)
    }

    /// The type that specifiers name, without their qualifiers.
    fn unqualified(&self, specs: &[SpecWord]) -> Result<DeclaredType, AllocError>
        ensures { IfOk result (λ t. seen_type t ≡ plain.or_integer (plain.first_whole (seen_environment self.now) (specifiers_of (map view_specifier specs.now))) (plain.integer_kind (specifiers_of (map view_specifier specs.now)))) }
    {
        match self.first_whole(specs)? {
            Some(of) => Ok(of),
            None => Ok(DeclaredType::simple(integer_kind(specs))),
        }
    }

    /// The type that specifiers name.
    pub fn specified(&self, specs: &[SpecWord]) -> Result<DeclaredType, AllocError>
        ensures { IfOk result (λ t. seen_type t ≡ plain.specified (seen_environment self.now) (specifiers_of (map view_specifier specs.now))) }
    {
        let constant = stands_among(Word::Const, specs);
        let volatile = stands_among(Word::Volatile, specs);
        let of = self.unqualified(specs)?;
        Ok(of.qualified(constant, volatile))
    }
}
