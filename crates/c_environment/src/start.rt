//! What the names stand for before the first item.

ghost use Rattle.std.specs.Prelude.{◌≡◌, [], ◌∷◌, map, IfOk, OnOk};
ghost use Rattle.c_tree.specs.StatementView.{view_item};
ghost use Rattle.c_builtins.specs.Names as names;
ghost use Rattle.c_builtins.specs.Types as types;
ghost use Rattle.c_environment.specs.Fill as fill;
ghost use Rattle.c_environment.specs.Start as plain;
ghost use Rattle.c_environment.specs.Seen.{seen_entity, seen_environment};

use crate::built_in::KnownBuiltIn;
use crate::built_in_types::{built_in_members, built_in_type};
use crate::declare::next_number;
use crate::entity::Entity;
use crate::environment::Environment;
use crate::members::Structure;
use crate::unit::{unit_functions, unit_objects};
use c_builtins::{Member, NamedBuiltIn, TypeName, built_ins, structures, tags, type_names};
use c_scopes::Scope;
use c_tree::Item;
use posix_table::Table;
use std::alloc::{AllocError, Global};

impl<'a> Environment<'a> {
    /// Nothing is declared; the unit has these functions and objects.
    fn nothing(alloc: Global, functions: Scope<'a>, objects: Scope<'a>) -> Self
        ensures { seen_environment result ≡ fill.nothing functions.entry objects.entry }
    {
        Environment {
            alloc,
            entities: Vec::new(alloc),
            names: Scope::new(alloc),
            implementation: Scope::new(alloc),
            linked: Scope::new(alloc),
            tags: Scope::new(alloc),
            tagged: Vec::new(alloc),
            structures: Vec::new(alloc),
            variables: 0,
            inside: None,
            functions,
            objects,
            initialised: Scope::new(alloc),
            labels: Scope::new(alloc),
        }
    }

    /// A name of the implementation stands for this thing.
    fn with_known(&mut self, name: &'a [u8], entity: Entity) -> Result<(), AllocError>
        ensures { OnOk result (seen_environment self.new ≡ fill.with_known (seen_environment self.old) (name.now, seen_entity entity)) }
    {
        let number = next_number(self.entities.len())?;
        self.entities.push(entity)?;
        self.implementation.declare(name, number)
    }

    fn with_built_in(&mut self, one: &'static NamedBuiltIn) -> Result<(), AllocError>
        ensures { OnOk result (seen_environment self.new ≡ fill.with_known (seen_environment self.old) (fill.known_built_in (one.now.name.now, one.now.stands_for))) }
    {
        // Each number of the table is a value of int.
        let Some(known) = KnownBuiltIn::new(one.stands_for) else {
            return Err(AllocError);
        };
        self.with_known(one.name, Entity::BuiltIn(known))
    }

    fn with_built_ins(&mut self, all: &'static [NamedBuiltIn]) -> Result<(), AllocError>
        ensures { OnOk result (seen_environment self.new ≡ fill.with_all_known (seen_environment self.old) (map fill.known_built_in (map (λ b. (b.name.now, b.stands_for)) all.now))) }
    {
        for one in all {
            self.with_built_in(one)?;
        }
        Ok(())
    }

    fn with_types(&mut self, all: &'static [TypeName]) -> Result<(), AllocError>
        ensures { OnOk result (seen_environment self.new ≡ fill.with_all_known (seen_environment self.old) (map fill.known_type (map (λ t. (t.name.now, t.names)) all.now))) }
    {
        for one in all {
            let entity = built_in_type(self.alloc, one)?;
            self.with_known(one.name, entity)?;
        }
        Ok(())
    }

    fn with_rows(&mut self, table: &'a Table) -> Result<(), AllocError>
        ensures { OnOk result (seen_environment self.new ≡ fill.with_all_known (seen_environment self.old) (fill.known_rows 0 (map (λ row. row.name) table.now))) }
    {
        let mut place = 0;
        while let Some(row) = table.at(place as usize) {
            self.with_known(row.name.as_str().as_bytes(), Entity::Library(place))?;
            // A table has at most 100,000 rows.
            if place == u32::MAX {
                return Err(AllocError);
            }
            place += 1;
        }
        Ok(())
    }

    fn with_structure_tags(&mut self, all: &'static [&'static [u8]]) -> Result<(), AllocError>
        ensures { OnOk result (seen_environment self.new ≡ fill.with_tags_entered (fill.with_tags (seen_environment self.old) 0 (map (λ t. t.now) all.now))) }
    {
        let mut number = 0;
        for name in all {
            self.with_tag(name, Some(number))?;
            // There are 12 tags.
            if number == u32::MAX {
                return Err(AllocError);
            }
            number += 1;
        }
        self.tags.enter()
    }

    fn with_built_in_structure(&mut self, all: &'static [Member]) -> Result<(), AllocError>
        ensures { OnOk result (seen_environment self.new ≡ fill.with_built_in_structures (seen_environment self.old) (map (λ m. (m.name.now, m.holds)) all.now ∷ [])) }
    {
        let members = built_in_members(self.alloc, all)?;
        self.structures.push(Structure {
            members,
            begun: true,
            complete: true,
            declared: true,
        })?;
        Ok(())
    }

    fn with_built_in_structures(
        &mut self,
        all: &'static [&'static [Member]],
    ) -> Result<(), AllocError>
        ensures { OnOk result (seen_environment self.new ≡ fill.with_built_in_structures (seen_environment self.old) (map (λ ms. map (λ m. (m.name.now, m.holds)) ms.now) all.now)) }
    {
        for members in all {
            self.with_built_in_structure(members)?;
        }
        Ok(())
    }

    /// The implementation declares what it does.
    fn filled(&mut self, table: &'a Table) -> Result<(), AllocError>
        ensures { OnOk result (seen_environment self.new ≡ fill.filled (seen_environment self.old) names.built_ins types.type_names (map (λ row. row.name) table.now) types.tags types.structures) }
    {
        self.with_built_ins(built_ins())?;
        self.with_types(type_names())?;
        self.with_rows(table)?;
        self.with_structure_tags(tags())?;
        self.with_built_in_structures(structures())
    }

    /// What the names stand for before the first of these items, over this table of library functions. Err where there is not enough
    /// memory.
    pub fn start(alloc: Global, table: &'a Table, items: &'a [Item]) -> Result<Self, AllocError>
        ensures { IfOk result (λ env. seen_environment env ≡ plain.start (map (λ row. row.name) table.now) (map view_item items.now)) }
    {
        let functions = unit_functions(alloc, items)?;
        let objects = unit_objects(alloc, items)?;
        let mut environment = Environment::nothing(alloc, functions, objects);
        environment.filled(table)?;
        Ok(environment)
    }
}
