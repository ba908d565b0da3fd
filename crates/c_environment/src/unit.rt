//! The functions and objects that a unit defines (C11 6.9p3, 6.9.2).

ghost use Rattle.std.specs.Prelude.{◌≡◌, [], ◌∷◌, map, IfOk, OnOk};
ghost use Rattle.c_tree.specs.DeclaredNames.{declarator_name};
ghost use Rattle.c_tree.specs.StatementView.{view_named, view_item};
ghost use Rattle.c_tree.specs.View.{view_declarator};
ghost use Rattle.c_environment.specs.Start as plain;
ghost use Rattle.c_environment.specs.Counted.{seen_numbering, counted, item_objects};

use base_core::Lexeme;
use c_scopes::Scope;
use c_tree::{Declarator, Item, Named, Storage};
use std::alloc::{AllocError, Global};

/// Names with their numbers, and the next number.
#[derive(Drop)]
pub(crate) struct Numbering<'a> {
    pub names: Scope<'a>,
    pub next: u32,
}

/// The name that a declarator declares.
fn declared_name(d: &Declarator) -> &Lexeme
    ensures { result.now ≡ declarator_name (view_declarator d.now) }
{
    match d {
        Declarator::Plain(_, name)
        | Declarator::Array(_, name, _)
        | Declarator::Function(_, name, _)
        | Declarator::Pointer(_, _, name, _, _) => name,
    }
}

fn is_function_form(d: &Declarator) -> bool
    ensures { result ≡ plain.is_function_form (view_declarator d.now) }
{
    matches!(d, Declarator::Function(_, _, _))
}

/// Whether a declaration at file scope defines the object (C11 6.9.2p1, p2).
fn defines(storage: Storage, named: &Named) -> bool
    ensures { result ≡ plain.defines storage (view_named named.now) }
{
    match storage {
        Storage::Typedef => false,
        Storage::Extern => named.init.is_some(),
        Storage::Nothing | Storage::Static => true,
    }
}

impl<'a> Numbering<'a> {
    /// No names.
    fn new(alloc: Global) -> Self
        ensures { seen_numbering result ≡ (0, plain.one_block) }
    {
        Numbering {
            names: Scope::new(alloc),
            next: 0,
        }
    }

    /// The name has the next number. Err past the numbers of 32 bits: a text within the limits has fewer names.
    fn add(&mut self, name: &'a [u8]) -> Result<(), AllocError>
        ensures { OnOk result (seen_numbering self.new ≡ counted (seen_numbering self.old) (name.now ∷ [])) }
    {
        if self.next == u32::MAX {
            return Err(AllocError);
        }
        self.names.declare(name, self.next)?;
        self.next += 1;
        Ok(())
    }

    /// The object has the next number, where its declaration at file scope defines it.
    fn add_object(&mut self, storage: Storage, named: &'a Named) -> Result<(), AllocError>
        ensures { OnOk result (seen_numbering self.new ≡ counted (seen_numbering self.old) (plain.defined_name storage (view_named named.now))) }
    {
        if is_function_form(&named.declarator) {
            Ok(())
        } else if defines(storage, named) {
            self.add(declared_name(&named.declarator).as_bytes())
        } else {
            Ok(())
        }
    }

    #[tactic(auto, using(crate::proofs::Counts::counted_both))]
    fn add_objects(&mut self, storage: Storage, all: &'a [Named]) -> Result<(), AllocError>
        ensures { OnOk result (seen_numbering self.new ≡ counted (seen_numbering self.old) (plain.defined_names storage (map view_named all.now))) }
    {
        for named in all {
            self.add_object(storage, named)?;
        }
        Ok(())
    }

    /// The objects that the item defines have the next numbers.
    fn add_item_objects(&mut self, item: &'a Item) -> Result<(), AllocError>
        ensures { OnOk result (seen_numbering self.new ≡ counted (seen_numbering self.old) (item_objects (view_item item.now))) }
    {
        match item {
            Item::Decl(d) => self.add_objects(d.storage, d.names.as_slice()),
            Item::Function(_) => Ok(()),
        }
    }

    fn add_unit_objects(&mut self, items: &'a [Item]) -> Result<(), AllocError>
        ensures { OnOk result (seen_numbering self.new ≡ counted (seen_numbering self.old) (plain.object_names (map view_item items.now))) }
    {
        for item in items {
            self.add_item_objects(item)?;
        }
        Ok(())
    }

    fn add_unit_functions(&mut self, items: &'a [Item]) -> Result<(), AllocError>
        ensures { OnOk result (seen_numbering self.new ≡ counted (seen_numbering self.old) (plain.function_names (map view_item items.now))) }
    {
        for item in items {
            match item {
                Item::Function(f) => self.add(f.name.as_bytes())?,
                Item::Decl(_) => {}
            }
        }
        Ok(())
    }
}

/// The functions with a body, by their numbers in order of the text. Err where there is not enough memory.
pub(crate) fn unit_functions<'a>(alloc: Global, items: &'a [Item]) -> Result<Scope<'a>, AllocError>
    ensures { IfOk result (λ s. s ≡ plain.numbered 0 (plain.function_names (map view_item items.now)) plain.one_block) }
{
    let mut numbering = Numbering::new(alloc);
    numbering.add_unit_functions(items)?;
    Ok(numbering.names)
}

/// The objects with a definition. Err where there is not enough memory.
pub(crate) fn unit_objects<'a>(alloc: Global, items: &'a [Item]) -> Result<Scope<'a>, AllocError>
    ensures { IfOk result (λ s. s ≡ plain.numbered 0 (plain.object_names (map view_item items.now)) plain.one_block) }
{
    let mut numbering = Numbering::new(alloc);
    numbering.add_unit_objects(items)?;
    Ok(numbering.names)
}
