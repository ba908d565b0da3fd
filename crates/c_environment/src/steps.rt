//! What tags, parameters and declared names make of what the names stand for. Where one of these gives Err, there is not enough memory,
//! and the environment is of no use.

ghost use Rattle.std.specs.Prelude.{◌≡◌, map, option_map, OnOk};
ghost use Rattle.c_tree.specs.View.{view_specifier, specifiers_of};
ghost use Rattle.c_environment.specs.Environment.{tag_here};
ghost use Rattle.c_environment.specs.Behind as behind;
ghost use Rattle.c_environment.specs.Scopes as scopes;
ghost use Rattle.c_environment.specs.Tags.{tag_of, tag_alone, tagged_structure};
ghost use Rattle.c_environment.specs.Seen.{seen_type, seen_environment};

use crate::entity::{DeclaredType, Entity};
use crate::environment::Environment;
use base_core::Lexeme;
use c_tree::{SpecWord, Storage};
use std::alloc::AllocError;

/// The tag of a structure, where the word is one.
fn tag_of(word: &SpecWord) -> Option<&Lexeme>
    ensures { option_map (λ n. n.now) result ≡ tag_of (view_specifier word.now) }
{
    match word {
        SpecWord::StructTag(name) => Some(name),
        _ => None,
    }
}

/// The tag of a structure that stands alone, where the specifiers are that.
pub fn tag_alone(specs: &[SpecWord]) -> Option<&Lexeme>
    ensures { option_map (λ n. n.now) result ≡ tag_alone (specifiers_of (map view_specifier specs.now)) }
{
    match specs {
        [] => None,
        [word] => tag_of(word),
        [_word, _other, _more @ ..] => None,
    }
}

impl<'a> Environment<'a> {
    /// A structure more, which the tag names from here on.
    fn with_tagged_structure(&mut self, name: &'a [u8], declared: bool) -> Result<(), AllocError>
        ensures { OnOk result (seen_environment self.new ≡ tagged_structure (seen_environment self.old) name.now declared) }
    {
        let number = self.structure_number(None)?;
        self.with_structure(declared)?;
        self.with_tag(name, Some(number))
    }

    /// Behind a structure's tag that is mentioned, and is known as this (C11 6.7.2.3p8).
    pub fn mentioned(
        &mut self,
        name: &'a [u8],
        known: Option<Option<u32>>,
    ) -> Result<(), AllocError>
        ensures { OnOk result (seen_environment self.new ≡ behind.mentioned (seen_environment self.old) name.now known) }
    {
        match known {
            Some(_) => Ok(()),
            None => self.with_tagged_structure(name, false),
        }
    }

    /// Behind the tag of a structure with members, which is known in this block as this.
    fn tagged_by(&mut self, name: &'a [u8], known: Option<Option<u32>>) -> Result<(), AllocError>
        ensures { OnOk result (seen_environment self.new ≡ behind.tagged_by (seen_environment self.old) name.now known) }
    {
        match known {
            Some(Some(_)) => Ok(()),
            _ => self.with_tagged_structure(name, true),
        }
    }

    /// The tag of a structure with members is declared in this block, where it isn't yet (C11 6.7.2.3p7).
    fn tagged(&mut self, tag: &'a Option<Lexeme>) -> Result<(), AllocError>
        ensures { OnOk result (seen_environment self.new ≡ behind.tagged (seen_environment self.old) tag.now) }
    {
        match tag {
            Some(name) => {
                let known = self.tag_here(name.as_bytes());
                self.tagged_by(name.as_bytes(), known)
            }
            None => self.with_structure(true),
        }
    }

    /// Before the members of a structure, which begin here (C11 6.7.2.3p1).
    pub fn opened(&mut self, tag: &'a Option<Lexeme>) -> Result<(), AllocError>
        ensures { OnOk result (seen_environment self.new ≡ behind.opened (seen_environment self.old) tag.now) }
    {
        let number = self.defined_structure(tag)?;
        self.tagged(tag)?;
        self.with_begun(number);
        Ok(())
    }

    /// From here on the name stands for a parameter, of a function with a body or without (C11 6.2.1p4).
    pub fn with_parameter(
        &mut self,
        has_body: bool,
        name: &'a [u8],
        of: DeclaredType,
    ) -> Result<(), AllocError>
        ensures { OnOk result (seen_environment self.new ≡ behind.with_parameter has_body (seen_environment self.old) name.now (seen_type of)) }
    {
        if has_body {
            self.with_variable(name, of, false)
        } else {
            self.with_entity(name, Entity::Parameter(of))
        }
    }

    /// From here on the name stands for an object, which is declared at file scope or in a block (C11 6.2.2p4, p5, 6.2.4p3).
    pub fn with_object(
        &mut self,
        at_file_scope: bool,
        storage: Storage,
        name: &'a [u8],
        of: DeclaredType,
    ) -> Result<(), AllocError>
        ensures { OnOk result (seen_environment self.new ≡ scopes.with_object (seen_environment self.old) at_file_scope storage name.now (seen_type of)) }
    {
        if at_file_scope {
            return self.with_linked_variable(name, of);
        }
        match storage {
            Storage::Extern => self.with_linked_variable(name, of),
            Storage::Static => self.with_variable(name, of, true),
            Storage::Nothing | Storage::Typedef => self.with_variable(name, of, false),
        }
    }

    /// From here on the name stands for an object or a function.
    pub fn with_ordinary(
        &mut self,
        is_function: bool,
        storage: Storage,
        name: &'a [u8],
        of: DeclaredType,
    ) -> Result<(), AllocError>
        ensures { OnOk result (seen_environment self.new ≡ scopes.with_ordinary (seen_environment self.old) is_function storage name.now (seen_type of)) }
    {
        if is_function {
            self.with_function(name, of)
        } else {
            let at_file_scope = self.at_file_scope();
            self.with_object(at_file_scope, storage, name, of)
        }
    }

    /// From here on the name stands for what it is declared as with this storage class and this type (C11 6.7).
    pub fn with_name(
        &mut self,
        storage: Storage,
        name: &'a [u8],
        of: DeclaredType,
    ) -> Result<(), AllocError>
        ensures { OnOk result (seen_environment self.new ≡ scopes.with_name (seen_environment self.old) storage name.now (seen_type of)) }
    {
        match storage {
            Storage::Typedef => self.with_entity(name, Entity::TypeName(of)),
            Storage::Nothing | Storage::Static | Storage::Extern => {
                self.with_ordinary(of.is_function, storage, name, of)
            }
        }
    }

    /// Behind a structure's tag that is declared alone, and is known in this block as this (C11 6.7.2.3p7).
    pub fn declared_tag(
        &mut self,
        name: &'a [u8],
        known: Option<Option<u32>>,
    ) -> Result<(), AllocError>
        ensures { OnOk result (seen_environment self.new ≡ scopes.declared_tag (seen_environment self.old) name.now known) }
    {
        match known {
            Some(Some(number)) => {
                self.with_declared(number);
                Ok(())
            }
            Some(None) => Ok(()),
            None => self.with_tagged_structure(name, true),
        }
    }

    /// Behind a declaration of this tag alone.
    pub fn with_tag_alone(&mut self, name: &'a [u8]) -> Result<(), AllocError>
        ensures { OnOk result (seen_environment self.new ≡ scopes.declared_tag (seen_environment self.old) name.now (tag_here (seen_environment self.old) name.now)) }
    {
        let known = self.tag_here(name);
        self.declared_tag(name, known)
    }
}
