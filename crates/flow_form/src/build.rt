ghost use Rattle.std.specs.Prelude.{◌≡◌, IfOk};
ghost use Rattle.c_tree.specs.ProgramTree.{trees};
ghost use Rattle.flow_form.specs.Laws.{IsInOrder, IsClosed, IsLate};
ghost use Rattle.flow_form.specs.Statements.{program_ways};
ghost use Rattle.flow_form.specs.Typing.{typing};

use crate::functions::walk_items;
use crate::meaning::Meaning;
use crate::positions::Flow;
use crate::table::index_of;
use crate::walk::Walk;
use c_tree::Program;
use std::alloc::{AllocError, Global};

/// The positions of a program, and the ways on from each (C11 5.1.2.3, 6.5, 6.8). The edges of a position stand in order of the
/// positions to which they lead, which are there, and no value of a function is pending at its Enter. The time grows with the
/// number of nodes. Err where there is not enough memory.
pub fn flow<'a>(
    alloc: Global,
    meaning: Meaning<'a>,
    program: &'a Program,
) -> Result<Flow<'a>, AllocError>
    ensures rows { IfOk result (λ f. f.rows.items ≡ program_ways (typing meaning.entry) (trees program.now)) }
    ensures meaning { IfOk result (λ f. f.meaning ≡ meaning.entry) }
    ensures order { IfOk result (λ f. IsInOrder f.rows.items) }
    ensures closed { IfOk result (λ f. IsClosed f.rows.items) }
    ensures late { IfOk result (λ f. IsLate (typing meaning.entry) f.rows.items) }
{
    let mut walk = Walk::new(alloc);
    walk_items(&meaning, program.items().as_slice(), &mut walk)?;
    let Walk { at, rows, .. } = walk;
    let index = index_of(alloc, rows.as_slice(), at)?;
    Ok(Flow {
        meaning,
        program,
        rows,
        index,
    })
}
