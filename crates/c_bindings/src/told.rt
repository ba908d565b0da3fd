//! What is told of a node of a program.

ghost use Rattle.std.specs.Prelude.{◌≡◌, map};
ghost use Rattle.c_rules.specs.Seen.{seen};
ghost use Rattle.c_bindings.specs.Seen.{seen_told};
ghost use Rattle.c_bindings.specs.Told as spec;

use crate::binding::Binding;
use c_rules::{MisfitKind, Verdict};

/// What is told of a node.
#[derive(Drop)]
pub struct Told {
    /// Its kind, or the rule that it breaks.
    pub verdict: Verdict,
    /// What it stands for, of a name in an expression, a declared name or a parameter.
    pub binding: Option<Binding>,
    /// Its value, of a case or an enumerator, where that is known.
    pub value: Option<i64>,
}

impl Told {
    /// Of a node that is no name and has no value of its own.
    pub fn plain(verdict: Verdict) -> Told
        ensures { seen_told result ≡ spec.plainly (seen verdict) }
    {
        Told {
            verdict,
            binding: None,
            value: None,
        }
    }

    /// Of a name, which stands for this.
    pub fn bound(verdict: Verdict, binding: Option<Binding>) -> Told
        ensures { seen_told result ≡ spec.bound (seen verdict) binding }
    {
        Told {
            verdict,
            binding,
            value: None,
        }
    }

    /// Of a case or an enumerator with this value.
    pub fn valued(verdict: Verdict, value: Option<i64>) -> Told
        ensures { seen_told result ≡ spec.of_value (seen verdict) value }
    {
        Told {
            verdict,
            binding: None,
            value,
        }
    }
}

/// The first node that breaks a rule, by its number in the list, and which rule.
#[tactic(auto, using(crate::proofs::Further::further_none, crate::proofs::Further::further_one, crate::proofs::Further::further_here))]
pub fn first_misfit(all: &[Told]) -> Option<(usize, MisfitKind)>
    ensures { result ≡ spec.first_misfit (map seen_told all.now) }
{
    for (k, told) in all.iter().enumerate() {
        match &told.verdict {
            Verdict::Fails(misfit) => return Some((k, *misfit)),
            Verdict::Fits(_) | Verdict::Waits | Verdict::Silent => {}
        }
    }
    None
}
