//! What a declaration makes of what the names stand for. Where one of these gives Err, there is not enough memory, and the environment is
//! of no use.

ghost use Rattle.std.specs.Prelude.{◌≡◌, true, IfOk, OnOk};
ghost use Rattle.c_environment.specs.Environment as plain;
ghost use Rattle.c_environment.specs.Seen.{seen_type, seen_entity, seen_members, seen_environment};

use crate::entity::{DeclaredType, Entity, Variable};
use crate::environment::Environment;
use crate::members::{Members, Structure};
use base_core::Lexeme;
use std::alloc::AllocError;

/// The number of what follows so many things. Err past the numbers of 32 bits: a text within the limits declares fewer.
pub(crate) fn next_number(count: usize) -> Result<u32, AllocError>
    ensures { IfOk result (λ number. number ≡ count) }
{
    if count > u32::MAX as usize {
        return Err(AllocError);
    }
    Ok(count as u32)
}

impl<'a> Environment<'a> {
    /// From here on the name stands for the thing of this number.
    pub fn named(&mut self, name: &'a [u8], number: u32) -> Result<(), AllocError>
        ensures { OnOk result (seen_environment self.new ≡ plain.named (seen_environment self.old) name.now number) }
    {
        self.names.declare(name, number)
    }

    /// From here on the name stands for this thing.
    pub fn with_entity(&mut self, name: &'a [u8], entity: Entity) -> Result<(), AllocError>
        ensures { OnOk result (seen_environment self.new ≡ plain.with_entity (seen_environment self.old) name.now (seen_entity entity)) }
    {
        let number = next_number(self.entities.len())?;
        self.entities.push(entity)?;
        self.names.declare(name, number)
    }

    /// The same of a thing with linkage that has not been declared before.
    fn with_new_linked(&mut self, name: &'a [u8], entity: Entity) -> Result<(), AllocError>
        ensures { OnOk result (seen_environment self.new ≡ plain.with_new_linked (seen_environment self.old) name.now (seen_entity entity)) }
    {
        let number = next_number(self.entities.len())?;
        self.entities.push(entity)?;
        self.names.declare(name, number)?;
        self.linked.declare(name, number)
    }

    /// From here on the name stands for the function of this type: in a unit it is one, however often it is declared (C11 6.2.2p2).
    pub fn with_function(&mut self, name: &'a [u8], of: DeclaredType) -> Result<(), AllocError>
        ensures { OnOk result (seen_environment self.new ≡ plain.with_function (seen_environment self.old) name.now (seen_type of)) }
    {
        match self.linked.look_up(name) {
            Some(number) => self.named(name, number),
            None => self.with_new_linked(name, Entity::Function(of)),
        }
    }

    /// The name stands for the thing of this number in the block around the innermost.
    fn named_around(&mut self, name: &'a [u8], number: u32) -> Result<(), AllocError>
        ensures { OnOk result (seen_environment self.new ≡ plain.named_around (seen_environment self.old) name.now number) }
    {
        self.names.declare_around(name, number)
    }

    /// The same of a thing with linkage that has not been declared before.
    fn with_new_linked_around(&mut self, name: &'a [u8], entity: Entity) -> Result<(), AllocError>
        ensures { OnOk result (seen_environment self.new ≡ plain.with_new_linked_around (seen_environment self.old) name.now (seen_entity entity)) }
    {
        let number = next_number(self.entities.len())?;
        self.entities.push(entity)?;
        self.names.declare_around(name, number)?;
        self.linked.declare(name, number)
    }

    /// Like `with_function`, in the block around the innermost, in the time that the names of the innermost take.
    pub fn with_function_around(
        &mut self,
        name: &'a [u8],
        of: DeclaredType,
    ) -> Result<(), AllocError>
        ensures { OnOk result (seen_environment self.new ≡ plain.with_function_around (seen_environment self.old) name.now (seen_type of)) }
    {
        match self.linked.look_up(name) {
            Some(number) => self.named_around(name, number),
            None => self.with_new_linked_around(name, Entity::Function(of)),
        }
    }

    /// The variable that is declared next.
    fn next_variable(&self, of: DeclaredType, lasting: bool, linked: bool) -> Entity
        ensures { seen_entity result ≡ plain.next_variable (seen_environment self.now) (seen_type of) lasting linked }
    {
        Entity::Variable(Variable {
            number: self.variables,
            of,
            owner: self.inside,
            lasting,
            linked,
        })
    }

    /// Counts a variable. Err past the numbers of 32 bits: a text within the limits declares fewer.
    fn one_more(&mut self) -> Result<(), AllocError>
        ensures { OnOk result (seen_environment self.new ≡ plain.one_more (seen_environment self.old)) }
    {
        if self.variables == u32::MAX {
            return Err(AllocError);
        }
        self.variables += 1;
        Ok(())
    }

    /// From here on the name stands for a variable without linkage (C11 6.2.2p6); `lasting` says whether it has static storage duration.
    pub fn with_variable(
        &mut self,
        name: &'a [u8],
        of: DeclaredType,
        lasting: bool,
    ) -> Result<(), AllocError>
        ensures { OnOk result (seen_environment self.new ≡ plain.with_variable (seen_environment self.old) name.now (seen_type of) lasting) }
    {
        let variable = self.next_variable(of, lasting, false);
        self.with_entity(name, variable)?;
        self.one_more()
    }

    /// A variable with linkage that has not been declared before.
    fn with_new_variable(&mut self, name: &'a [u8], of: DeclaredType) -> Result<(), AllocError>
        ensures { OnOk result (seen_environment self.new ≡ plain.one_more (plain.with_new_linked (seen_environment self.old) name.now (plain.next_variable (seen_environment self.old) (seen_type of) true true))) }
    {
        let variable = self.next_variable(of, true, true);
        self.with_new_linked(name, variable)?;
        self.one_more()
    }

    /// From here on the name stands for a variable with linkage (C11 6.2.2p2), which has static storage duration (6.2.4p3).
    pub fn with_linked_variable(
        &mut self,
        name: &'a [u8],
        of: DeclaredType,
    ) -> Result<(), AllocError>
        ensures { OnOk result (seen_environment self.new ≡ plain.with_linked_variable (seen_environment self.old) name.now (seen_type of)) }
    {
        match self.linked.look_up(name) {
            Some(number) => self.named(name, number),
            None => self.with_new_variable(name, of),
        }
    }

    /// From here on the tag names this: a structure, by its number, or an enumeration (C11 6.7.2.3).
    pub fn with_tag(&mut self, name: &'a [u8], what: Option<u32>) -> Result<(), AllocError>
        ensures { OnOk result (seen_environment self.new ≡ plain.with_tag (seen_environment self.old) name.now what) }
    {
        let number = next_number(self.tagged.len())?;
        self.tagged.push(what)?;
        self.tags.declare(name, number)
    }

    /// The same, where there is a tag.
    pub fn with_optional_tag(
        &mut self,
        tag: &'a Option<Lexeme>,
        what: Option<u32>,
    ) -> Result<(), AllocError>
        ensures { OnOk result (seen_environment self.new ≡ plain.with_optional_tag (seen_environment self.old) tag.now what) }
    {
        match tag {
            Some(name) => self.with_tag(name.as_bytes(), what),
            None => Ok(()),
        }
    }

    /// A structure more, whose members aren't known; `declared` says whether its tag is declared, and not mentioned alone.
    pub fn with_structure(&mut self, declared: bool) -> Result<(), AllocError>
        ensures { OnOk result (seen_environment self.new ≡ plain.with_structure (seen_environment self.old) declared) }
    {
        let members = Members::new(self.alloc);
        self.structures.push(Structure {
            members,
            begun: false,
            complete: false,
            declared,
        })?;
        Ok(())
    }

    /// The members of the structure of this number are known from here on (C11 6.7.2.1p8).
    pub fn completed(&mut self, number: u32, members: Members<'a>)
        ensures { seen_environment self.new ≡ plain.completed (seen_environment self.old) number (seen_members members.entry) }
    {
        let place = number as usize;
        if place < self.structures.len() {
            self.structures[place] = Structure {
                members,
                begun: true,
                complete: true,
                declared: true,
            };
        }
    }

    /// The tag of the structure of this number is declared, and not mentioned alone, from here on (C11 6.7.2.3p7).
    pub fn with_declared(&mut self, number: u32)
        ensures { seen_environment self.new ≡ plain.with_declared (seen_environment self.old) number }
    {
        let place = number as usize;
        if place < self.structures.len() {
            self.structures[place].declared = true;
        }
    }

    /// The members of the structure of this number begin here (C11 6.7.2.3p1).
    pub(crate) fn with_begun(&mut self, number: u32)
        ensures { seen_environment self.new ≡ plain.with_begun (seen_environment self.old) number }
    {
        let place = number as usize;
        if place < self.structures.len() {
            self.structures[place].begun = true;
        }
    }
}
