ghost use Rattle.std.specs.Prelude.{◌≡◌, map, IfOk};
ghost use Rattle.c_tree.specs.StatementView.{view_statement};
ghost use Rattle.flow_form.specs.Known.{label_of, AreKnown};
ghost use Rattle.flow_form.specs.Statements.{label, labels};

use crate::labels::collect_labels;
use crate::walk::enter_of;
use base_core::Pos;
use c_tree::Stmt;
use std::alloc::{AllocError, Global};
use std::collections::HashMap;

/// A label of a function, and the node that has it.
#[derive(Clone, Copy)]
pub(crate) struct Label<'a> {
    pub(crate) name: &'a [u8],
    pub(crate) node: u32,
}

/// What is found of a function's statements before they are walked: the labels in order of the text, and the number of the condition
/// of each do, by the number of the do.
#[derive(Drop)]
pub(crate) struct Found<'a> {
    pub(crate) labels: Vec<Label<'a>>,
    pub(crate) conditions: HashMap<u32, u32>,
}

/// Where a function's statements lead to that lie ahead. The labels are found by their names, of two of one name the first.
#[derive(Drop)]
pub(crate) struct Targets<'a> {
    pub(crate) labels: Vec<Label<'a>>,
    known: HashMap<&'a [u8], u32>,
    conditions: HashMap<u32, u32>,
    ghost found: { AreKnown known (map label_of labels.items) },
}

/// The labels by their names.
fn known_labels<'a>(
    alloc: Global,
    labels: &[Label<'a>],
) -> Result<HashMap<&'a [u8], u32>, AllocError>
    ensures { IfOk result (λ known. AreKnown known (map label_of labels.now)) }
{
    let mut known = HashMap::new(alloc);
    let mut i = labels.len();
    while i > 0 {
        i -= 1;
        let Some(l) = labels.get(i) else {
            return Err(AllocError);
        };
        let Ok(_before) = known.insert(l.name, l.node) else {
            return Err(AllocError);
        };
    }
    Ok(known)
}

impl<'a> Targets<'a> {
    /// What the statements of a function ask, whose body has the number `n`.
    pub(crate) fn of_body(alloc: Global, s: &'a Stmt, n: u32) -> Result<Self, AllocError>
        ensures { IfOk result (λ t. map label_of t.labels.items ≡ labels n (view_statement s.now)) }
    {
        let mut found = Found {
            labels: Vec::new(alloc),
            conditions: HashMap::new(alloc),
        };
        let mut at = n;
        collect_labels(s, &mut at, &mut found)?;
        let known = known_labels(alloc, found.labels.as_slice())?;
        let Found { labels, conditions } = found;
        Ok(Targets {
            labels,
            known,
            conditions,
        })
    }

    /// The Enter of the label of this name.
    pub(crate) fn label(&self, name: &[u8]) -> Option<Pos>
        ensures { result ≡ label name.now (map label_of self.now.labels.items) }
    {
        match self.known.get(name) {
            Some(n) => Some(enter_of(*n)),
            None => None,
        }
    }

    /// The number that was noted for the condition of the do `n`.
    pub(crate) fn condition(&self, n: u32) -> Option<u32> {
        self.conditions.get(&n).copied()
    }
}
