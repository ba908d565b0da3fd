//! The cases of a switch (C11 6.8.4.2).

ghost use Rattle.std.specs.Prelude.{◌≡◌, option_map, OnOk};
ghost use Rattle.c_kinds.specs.View.{view};
ghost use Rattle.c_tree.specs.View.{view_expression};
ghost use Rattle.c_environment.specs.Seen.{seen_environment};
ghost use Rattle.c_rules.specs.Seen.{seen};
ghost use Rattle.c_judged.specs.Seen.{seen_cases};
ghost use Rattle.c_judged.specs.Statements as spec;

use crate::case_values::CaseValues;
use c_arithmetic::IntType;
use c_constants::case_value;
use c_declared::broken;
use c_environment::Environment;
use c_kinds::CType;
use c_rules::{MisfitKind, Verdict};
use c_tree::Expr;
use std::alloc::{AllocError, Global};

/// The cases of the innermost switch so far.
#[derive(Drop)]
pub(crate) struct Cases {
    /// The type of what is switched on, where that is an integer.
    of: Option<IntType>,
    /// Their values.
    values: CaseValues,
    /// Whether default was among them.
    defaulted: bool,
}

fn integer_of(kind: Option<&CType>) -> Option<IntType>
    ensures { result ≡ spec.integer_of (option_map (λ t. view t.now) kind.entry) }
{
    match kind {
        Some(CType::Int(width, signed)) => Some(IntType {
            width: *width,
            signed: *signed,
        }),
        _ => None,
    }
}

impl Cases {
    /// Outside of a switch.
    pub(crate) fn none(alloc: Global) -> Cases
        ensures { seen_cases result ≡ spec.no_cases }
    {
        Cases {
            of: None,
            values: CaseValues::new(alloc),
            defaulted: false,
        }
    }

    /// At the beginning of a switch on a value of this kind.
    pub(crate) fn first(alloc: Global, kind: Option<&CType>) -> Cases
        ensures { seen_cases result ≡ spec.first_cases (option_map (λ t. view t.now) kind.entry) }
    {
        Cases {
            of: integer_of(kind),
            values: CaseValues::new(alloc),
            defaulted: false,
        }
    }

    /// The value of a case, in the type of what is switched on.
    pub(crate) fn value(&self, env: &Environment, x: &Expr) -> Option<i64>
        ensures { result ≡ spec.value_in (seen_environment env.now) (seen_cases self.now).of (view_expression x.now) }
    {
        match self.of {
            Some(of) => case_value(env, x, of),
            None => None,
        }
    }

    fn is_earlier(&self, value: Option<i64>) -> bool
        ensures { result ≡ spec.is_earlier (seen_cases self.now).values value }
    {
        match value {
            Some(value) => self.values.contains(value),
            None => false,
        }
    }

    /// What is said of a case with this value.
    pub(crate) fn rule(&self, value: Option<i64>) -> Verdict
        ensures { seen result ≡ spec.case_rule (seen_cases self.now) value }
    {
        let unknown = self.of.is_some() && value.is_none();
        let own = Verdict::unless(broken(unknown, MisfitKind::NotConstant), Verdict::Silent);
        let twice = self.is_earlier(value);
        Verdict::unless(broken(twice, MisfitKind::DeclaredTwice), own)
    }

    /// What is said of default.
    pub(crate) fn default_rule(&self) -> Verdict
        ensures { seen result ≡ spec.default_rule (seen_cases self.now) }
    {
        let twice = broken(self.defaulted, MisfitKind::DeclaredTwice);
        Verdict::unless(twice, Verdict::Silent)
    }

    /// Behind a case with this value. Err where there is not enough memory.
    pub(crate) fn with_value(&mut self, value: Option<i64>) -> Result<(), AllocError>
        ensures { OnOk result (seen_cases self.new ≡ spec.with_value (seen_cases self.old) value) }
    {
        match value {
            Some(value) => self.values.add(value),
            None => Ok(()),
        }
    }

    /// Behind default.
    pub(crate) fn with_default(&mut self)
        ensures { seen_cases self.new ≡ spec.behind_default (seen_cases self.old) }
    {
        self.defaulted = true;
    }
}
