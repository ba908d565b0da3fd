ghost use Rattle.std.specs.Prelude.{◌≡◌, option_map, OnOk};
ghost use Rattle.c_kinds.specs.View.{view};
ghost use Rattle.c_environment.specs.Entity as plain;
ghost use Rattle.c_environment.specs.Seen.{seen_members};

use c_kinds::CType;
use c_scopes::Scope;
use std::alloc::{AllocError, Global};

/// The members of a structure, a name space of its own (C11 6.2.3): each name with its place, and the kinds in order.
#[derive(Drop)]
pub struct Members<'a> {
    names: Scope<'a>,
    kinds: Vec<CType>,
}

impl<'a> Members<'a> {
    /// No members.
    pub fn new(alloc: Global) -> Self
        ensures { seen_members result ≡ plain.no_members }
    {
        Members {
            names: Scope::new(alloc),
            kinds: Vec::new(alloc),
        }
    }

    /// One member more. Err where there is not enough memory; the members are then of no use.
    pub fn with_member(&mut self, name: &'a [u8], kind: CType) -> Result<(), AllocError>
        ensures { OnOk result (seen_members self.new ≡ plain.with_member (seen_members self.old) name.now (view kind)) }
    {
        let place = self.kinds.len();
        // A text within the limits has fewer members.
        if place > u32::MAX as usize {
            return Err(AllocError);
        }
        self.kinds.push(kind)?;
        self.names.declare(name, place as u32)
    }

    /// The place of the member of this name.
    pub fn place(&self, name: &[u8]) -> Option<u32>
        ensures { result ≡ plain.member_place (seen_members self.now) name.now }
    {
        self.names.look_up(name)
    }

    /// The kind of the member at this place.
    pub fn at(&self, place: usize) -> Option<&CType>
        ensures { option_map (λ t. view t.now) result ≡ plain.member_at (seen_members self.now) place }
    {
        self.kinds.get(place)
    }

    /// The kind of the member of this name.
    pub fn member(&self, name: &[u8]) -> Option<&CType>
        ensures { option_map (λ t. view t.now) result ≡ plain.member (seen_members self.now) name.now }
    {
        match self.names.look_up(name) {
            Some(place) => self.kinds.get(place as usize),
            None => None,
        }
    }
}

/// A structure.
#[derive(Drop)]
pub struct Structure<'a> {
    pub members: Members<'a>,
    /// Whether the members have begun (C11 6.7.2.3p1).
    pub begun: bool,
    /// Whether the members are known, so that it is complete (C11 6.7.2.1p8).
    pub complete: bool,
    /// Whether its tag is declared, and not mentioned alone.
    pub declared: bool,
}
