//! Where a statement stands.

ghost use Rattle.std.specs.Prelude.{◌≡◌};
ghost use Rattle.c_tree.specs.Shape as shape;

use std::marker::Model;

/// The context of the rules as code holds it: whether a statement stands in a loop, in a switch, directly in a block, directly in
/// the block of a switch. Contracts see the record of the rules alone.
#[derive(Clone, Copy)]
pub struct Context {
    pub in_loop: bool,
    pub in_switch: bool,
    pub in_block: bool,
    pub in_cases: bool,
}

impl Model for Context {
    ghost use Rattle.c_tree.specs.Shape as shape;

    ghost Value = { shape.Context };

    ghost view = { λ c. record { in_loop = c.in_loop; in_switch = c.in_switch; in_block = c.in_block; in_cases = c.in_cases } };

    ghost inverse = { λ c. record { in_loop = c.in_loop; in_switch = c.in_switch; in_block = c.in_block; in_cases = c.in_cases } };
}

impl Context {
    /// Outside every loop, switch and block.
    pub fn outside() -> Self
        ensures { result ≡ shape.outside }
    {
        Context {
            in_loop: false,
            in_switch: false,
            in_block: false,
            in_cases: false,
        }
    }

    /// The context of a loop's body.
    pub fn of_loop(self) -> Self
        ensures { result ≡ shape.of_loop self }
    {
        Context {
            in_loop: true,
            in_switch: self.in_switch,
            in_block: false,
            in_cases: false,
        }
    }

    /// The context of a branch.
    pub fn of_branch(self) -> Self
        ensures { result ≡ shape.of_branch self }
    {
        Context {
            in_loop: self.in_loop,
            in_switch: self.in_switch,
            in_block: false,
            in_cases: false,
        }
    }

    /// The context of a statement of a block.
    pub fn of_block(self) -> Self
        ensures { result ≡ shape.of_block self }
    {
        Context {
            in_loop: self.in_loop,
            in_switch: self.in_switch,
            in_block: true,
            in_cases: false,
        }
    }

    /// The context of a statement of a switch's block.
    pub fn of_switch(self) -> Self
        ensures { result ≡ shape.of_switch self }
    {
        Context {
            in_loop: self.in_loop,
            in_switch: true,
            in_block: true,
            in_cases: true,
        }
    }
}
