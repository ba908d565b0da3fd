//! The types that declarators give, from those of their specifiers (C11 6.7.6). Each takes the type that it changes. Err where there is not
//! enough memory.

ghost use Rattle.std.specs.Prelude.{◌≡◌, map, option_map, IfOk};
ghost use Rattle.c_kinds.specs.View.{view, view_types};
ghost use Rattle.c_tree.specs.View.{view_expression, sizes_of};
ghost use Rattle.c_environment.specs.Types as plain;
ghost use Rattle.c_environment.specs.Seen.{seen_type};

use crate::entity::DeclaredType;
use crate::words::{has_const, has_volatile};
use c_kinds::{CType, Types};
use c_tree::{Expr, Qual, Quals};
use std::alloc::{AllocError, Global};

/// An array of the kind, with as many dimensions as there are sizes.
fn array_kind(alloc: Global, sizes: &[Option<Expr>], of: CType) -> Result<CType, AllocError>
    ensures { IfOk result (λ t. view t ≡ plain.array_kind (sizes_of (map (option_map view_expression) sizes.now)) (view of)) }
{
    let mut kind = of;
    for _size in sizes {
        kind = CType::array(alloc, kind)?;
    }
    Ok(kind)
}

/// Whether the outermost array has no size.
fn begins_open(sizes: &[Option<Expr>]) -> bool
    ensures { result ≡ plain.begins_open (sizes_of (map (option_map view_expression) sizes.now)) }
{
    match sizes {
        [] => false,
        [Some(_), _more @ ..] => false,
        [None, _more @ ..] => true,
    }
}

impl DeclaredType {
    /// It with these qualifiers besides its own (C11 6.7.3p5).
    pub(crate) fn qualified(self, constant: bool, volatile: bool) -> Self
        ensures { seen_type result ≡ plain.qualified constant volatile (seen_type self) }
    {
        DeclaredType {
            kind: self.kind,
            is_function: self.is_function,
            is_open: self.is_open,
            constant: constant || self.constant,
            volatile: volatile || self.volatile,
            atomic: self.atomic,
        }
    }

    /// The kind of a pointer to it; a function's kind is that of pointers to it already.
    fn pointed_kind(self, alloc: Global) -> Result<CType, AllocError>
        ensures { IfOk result (λ t. view t ≡ plain.pointed_kind (seen_type self)) }
    {
        if self.is_function {
            Ok(self.kind)
        } else {
            CType::pointer(alloc, self.kind)
        }
    }

    /// A pointer to it, with these qualifiers (C11 6.7.6.1).
    pub fn pointer_to(self, alloc: Global, quals: &[Qual]) -> Result<Self, AllocError>
        ensures { IfOk result (λ t. seen_type t ≡ plain.pointer_to quals.now (seen_type self)) }
    {
        let constant = has_const(quals);
        let volatile = has_volatile(quals);
        Ok(DeclaredType {
            kind: self.pointed_kind(alloc)?,
            is_function: false,
            is_open: false,
            constant,
            volatile,
            atomic: false,
        })
    }

    /// What these stars make of it, from the left.
    pub fn pointed(self, alloc: Global, stars: &[Quals]) -> Result<Self, AllocError>
        ensures { IfOk result (λ t. seen_type t ≡ plain.pointed stars.now (seen_type self)) }
    {
        let mut of = self;
        for quals in stars {
            of = of.pointer_to(alloc, quals.as_slice())?;
        }
        Ok(of)
    }

    /// An array of it for each pair of brackets (C11 6.7.6.2).
    pub fn arrayed(self, alloc: Global, sizes: &[Option<Expr>]) -> Result<Self, AllocError>
        ensures { IfOk result (λ t. seen_type t ≡ plain.arrayed (sizes_of (map (option_map view_expression) sizes.now)) (seen_type self)) }
    {
        match sizes {
            [] => Ok(self),
            [_first, _more @ ..] => Ok(DeclaredType {
                is_function: self.is_function,
                is_open: begins_open(sizes),
                constant: self.constant,
                volatile: self.volatile,
                kind: array_kind(alloc, sizes, self.kind)?,
                atomic: false,
            }),
        }
    }

    /// A function with these parameters that gives it (C11 6.7.6.3).
    pub fn function_type(self, alloc: Global, parameters: Types) -> Result<Self, AllocError>
        ensures { IfOk result (λ t. seen_type t ≡ plain.function_type (view_types parameters) (seen_type self)) }
    {
        Ok(DeclaredType {
            kind: CType::function(alloc, parameters, self.kind)?,
            is_function: true,
            is_open: false,
            constant: false,
            volatile: false,
            atomic: false,
        })
    }

    /// A pointer with these qualifiers to a function with these parameters that gives it, or an array of such pointers.
    pub fn pointer_type(
        self,
        alloc: Global,
        quals: &[Qual],
        sizes: &[Option<Expr>],
        parameters: Types,
    ) -> Result<Self, AllocError>
        ensures { IfOk result (λ t. seen_type t ≡ plain.pointer_type quals.now (sizes_of (map (option_map view_expression) sizes.now)) (view_types parameters) (seen_type self)) }
    {
        let pointer = DeclaredType {
            kind: CType::function(alloc, parameters, self.kind)?,
            is_function: false,
            is_open: false,
            constant: has_const(quals),
            volatile: has_volatile(quals),
            atomic: false,
        };
        pointer.arrayed(alloc, sizes)
    }

    /// The type of a parameter that is declared with it: an array is a pointer to its element (C11 6.7.6.3p7).
    pub fn adjusted(self) -> Result<Self, AllocError>
        ensures { IfOk result (λ t. seen_type t ≡ plain.adjusted (seen_type self)) }
    {
        match &self.kind {
            CType::Array(_) => Ok(DeclaredType::simple(self.kind.decayed()?)),
            _ => Ok(self),
        }
    }
}
