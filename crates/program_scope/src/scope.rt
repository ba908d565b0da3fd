//! The scope of a program, as it grows while the program is parsed.

ghost use Rattle.std.specs.Prelude.{◌≡◌, map, OnOk, IfOk};
ghost use Rattle.c_tree.specs.DeclaredNames.{declarator_name};
ghost use Rattle.c_tree.specs.Shape.{first_scope, behind_specifiers, behind_named, behind_names, behind_declaration, behind_item};
ghost use Rattle.c_tree.specs.StatementView.{view_named, view_declaration, view_item};
ghost use Rattle.c_tree.specs.View.{view_specifier, view_declarator, specifiers_of};
ghost use Rattle.program_scope.specs.With.{with_all};

use crate::expressions::{add_inside, add_specifiers};
use crate::items::{add_function, add_named};
use base_core::Lexeme;
use c_grammar::Names;
use c_tree::{Decl, Declarator, Item, Named, SpecWord, Storage};
use std::alloc::{AllocError, Global};
use std::marker::Model;

/// The names that are types in every program.
const BUILT_IN: [&[u8]; 38] = [
    b"size_t",
    b"ssize_t",
    b"off_t",
    b"time_t",
    b"clock_t",
    b"ptrdiff_t",
    b"intptr_t",
    b"int64_t",
    b"uintptr_t",
    b"uint64_t",
    b"pthread_t",
    b"nfds_t",
    b"pid_t",
    b"clockid_t",
    b"int32_t",
    b"sig_atomic_t",
    b"uid_t",
    b"gid_t",
    b"mode_t",
    b"socklen_t",
    b"uint32_t",
    b"in_addr_t",
    b"uint16_t",
    b"sa_family_t",
    b"in_port_t",
    b"int16_t",
    b"uint8_t",
    b"int8_t",
    b"sigset_t",
    b"siginfo_t",
    b"FILE",
    b"pthread_attr_t",
    b"pthread_mutex_t",
    b"pthread_mutexattr_t",
    b"pthread_cond_t",
    b"pthread_condattr_t",
    b"sem_t",
    b"fd_set",
];

/// The names that a point of the text follows: those that are types, and those declared as anything else, of any scope.
#[derive(Drop)]
pub struct Scope {
    types: Names,
    others: Names,
}

impl Model for Scope {
    ghost use Rattle.c_tree.specs.Shape.{Scope as Names};

    ghost Value = { Names };

    ghost view = { λ s. record { types = s.types; others = s.others } };
}

fn add_all(all: &[&[u8]], names: &mut Names) -> Result<(), AllocError>
    ensures { OnOk result (names.new ≡ with_all names.old (map (λ w. w.now) all.now)) }
{
    for name in all {
        names.add(name)?;
    }
    Ok(())
}

/// The name that a declarator declares.
fn name_of(d: &Declarator) -> &Lexeme
    ensures { result.now ≡ declarator_name (view_declarator d.now) }
{
    match d {
        Declarator::Plain(_, name)
        | Declarator::Array(_, name, _)
        | Declarator::Function(_, name, _)
        | Declarator::Pointer(_, _, name, _, _) => name,
    }
}

impl Scope {
    /// The scope before the first item. Err where there is not enough memory.
    pub fn first(alloc: Global) -> Result<Self, AllocError>
        ensures { IfOk result (λ s. s ≡ first_scope) }
    {
        let mut types = Names::new(alloc);
        add_all(&BUILT_IN, &mut types)?;
        Ok(Scope {
            types,
            others: Names::new(alloc),
        })
    }

    /// The names that are types.
    pub fn types(&self) -> &Names
        ensures { result.now ≡ self.now.types }
    {
        &self.types
    }

    /// The names that are declared as anything else, of any scope.
    pub fn others(&self) -> &Names
        ensures { result.now ≡ self.now.others }
    {
        &self.others
    }

    /// Goes on past specifiers. Err where there is not enough memory.
    pub fn behind_specifiers(&mut self, all: &[SpecWord]) -> Result<(), AllocError>
        ensures { OnOk result (self.new ≡ behind_specifiers (specifiers_of (map view_specifier all.now)) self.old) }
    {
        add_specifiers(all, &mut self.others)
    }

    /// Goes on past a declared name. Err where there is not enough memory.
    pub fn behind_named(&mut self, storage: Storage, n: &Named) -> Result<(), AllocError>
        ensures { OnOk result (self.new ≡ behind_named storage (view_named n.now) self.old) }
    {
        match storage {
            Storage::Typedef => {
                self.types.add_first(name_of(&n.declarator).as_bytes())?;
                add_inside(&n.declarator, &mut self.others)
            }
            Storage::Nothing | Storage::Static | Storage::Extern => {
                add_named(n, &mut self.others)
            }
        }
    }

    fn behind_names(&mut self, storage: Storage, all: &[Named]) -> Result<(), AllocError>
        ensures { OnOk result (self.new ≡ behind_names storage (map view_named all.now) self.old) }
    {
        for named in all {
            self.behind_named(storage, named)?;
        }
        Ok(())
    }

    fn behind_declaration(&mut self, d: &Decl) -> Result<(), AllocError>
        ensures { OnOk result (self.new ≡ behind_declaration (view_declaration d.now) self.old) }
    {
        self.behind_specifiers(d.specs.as_slice())?;
        self.behind_names(d.storage, d.names.as_slice())
    }

    /// Goes on past an item. Err where there is not enough memory.
    pub fn behind_item(&mut self, item: &Item) -> Result<(), AllocError>
        ensures { OnOk result (self.new ≡ behind_item (view_item item.now) self.old) }
    {
        match item {
            Item::Function(f) => add_function(f, &mut self.others),
            Item::Decl(d) => self.behind_declaration(d),
        }
    }
}
