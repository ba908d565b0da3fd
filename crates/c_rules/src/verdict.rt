ghost use Rattle.std.specs.Prelude.{◌≡◌, IfOk, option_map};
ghost use Rattle.c_kinds.specs.View.{view};
ghost use Rattle.c_rules.specs.Judgement as judgement;
ghost use Rattle.c_rules.specs.Seen.{seen};

use crate::misfit::MisfitKind;
use c_kinds::CType;
use std::alloc::AllocError;

/// What is said of a node.
#[derive(Drop)]
pub enum Verdict {
    /// It has this kind.
    Fits(CType),
    /// It breaks this rule.
    Fails(MisfitKind),
    /// A part of it breaks a rule, or waits.
    Waits,
    /// By its form it has no kind.
    Silent,
}

impl Verdict {
    /// The same once more, in one step. Err where there is not enough memory.
    pub fn share(&self) -> Result<Verdict, AllocError>
        ensures { IfOk result (λ v. seen v ≡ seen self.now) }
    {
        match self {
            Verdict::Fits(kind) => Ok(Verdict::Fits(kind.share()?)),
            Verdict::Fails(misfit) => Ok(Verdict::Fails(*misfit)),
            Verdict::Waits => Ok(Verdict::Waits),
            Verdict::Silent => Ok(Verdict::Silent),
        }
    }

    /// The kind, where the node has one.
    pub fn kind(&self) -> Option<&CType>
        ensures { option_map (λ t. view t.now) result ≡ judgement.kind (seen self.now) }
    {
        match self {
            Verdict::Fits(kind) => Some(kind),
            _ => None,
        }
    }

    /// The rule that it breaks.
    pub fn misfit(&self) -> Option<MisfitKind>
        ensures { result ≡ judgement.misfit (seen self.now) }
    {
        match self {
            Verdict::Fails(misfit) => Some(*misfit),
            _ => None,
        }
    }

    /// Whether a rule of a node above may be asked: the node has a kind, or by its form it has none.
    pub fn is_settled(&self) -> bool
        ensures { result ≡ judgement.is_settled (seen self.now) }
    {
        matches!(
            self,
            Verdict::Fits(_) | Verdict::Silent | Verdict::Fails(MisfitKind::LibraryAsValue)
        )
    }

    /// The rule that is broken, where one is; else the verdict.
    pub fn unless(misfit: Option<MisfitKind>, otherwise: Verdict) -> Verdict
        ensures { seen result ≡ judgement.unless misfit (seen otherwise) }
    {
        match misfit {
            Some(misfit) => Verdict::Fails(misfit),
            None => otherwise,
        }
    }
}
