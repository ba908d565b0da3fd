ghost use Rattle.std.specs.Prelude.{◌≡◌, option_map, is_some};
ghost use Rattle.std.specs.List.{list_all};
ghost use Rattle.c_kinds.specs.View.{view};
ghost use Rattle.c_rules.specs.Judgement as judgement;
ghost use Rattle.c_rules.specs.Seen.{seen, seen_operands};

use crate::form::Form;
use crate::verdict::Verdict;
use c_kinds::CType;

/// An expression as an operand: what is said of it, and its form.
#[derive(Drop)]
pub struct Operand {
    /// What is said of it.
    pub verdict: Verdict,
    /// Its form.
    pub form: Form,
}

impl Operand {
    /// Whether a rule may be asked.
    pub(crate) fn is_settled(&self) -> bool
        ensures { result ≡ judgement.is_settled (seen self.now.verdict) }
    {
        self.verdict.is_settled()
    }

    /// Its kind, where it has one.
    pub(crate) fn kind(&self) -> Option<&CType>
        ensures { option_map (λ t. view t.now) result ≡ judgement.kind (seen self.now.verdict) }
    {
        self.verdict.kind()
    }
}

/// Whether a rule on all of them may be asked.
pub(crate) fn are_settled(all: &[Operand]) -> bool
    ensures { result ≡ list_all (λ x. judgement.is_settled x.judged) (seen_operands all.now) }
{
    for one in all {
        if !one.is_settled() {
            return false;
        }
    }
    true
}

/// Whether each has a kind.
pub(crate) fn have_kinds(all: &[Operand]) -> bool
    ensures { result ≡ list_all (λ x. is_some (judgement.kind x.judged)) (seen_operands all.now) }
{
    for one in all {
        if one.kind().is_none() {
            return false;
        }
    }
    true
}
