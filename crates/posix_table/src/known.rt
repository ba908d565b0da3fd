ghost use Rattle.std.specs.Prelude.{◌≡◌, ◌++◌, map, IfOk, OnOk};
ghost use Rattle.posix_table.specs.Profile.{profile_rows, later_rows};
ghost use Rattle.posix_table.specs.Line.{row_of_line};
ghost use Rattle.posix_table.specs.Table.{IsTable};

use crate::lines::{BEFORE_FORK, BEFORE_SPLIT, BEHIND_FORK, FORK, Line, SPLIT, UNSAFE_FORK};
use crate::{Name, Params, Row, Table};
use base_core::NoMemory;
use std::alloc::Global;

/// The row of a line.
fn row_of(alloc: Global, line: &Line) -> Result<Row, NoMemory>
    ensures { IfOk result (λ row. row ≡ row_of_line line.now) }
{
    Ok(Row {
        name: Name::new(alloc, line.0)?,
        safe: line.1,
        fewest: line.2,
        most: line.3,
        parameters: Params::from_letters(alloc, line.4)?,
        result: line.5,
        effect: line.6,
    })
}

/// Adds the rows of these lines.
fn add(alloc: Global, rows: &mut Vec<Row>, lines: &[Line]) -> Result<(), NoMemory>
    ensures { OnOk result (rows.new.items ≡ rows.old.items ++ map row_of_line lines.now) }
{
    for line in lines {
        let row = row_of(alloc, line)?;
        match rows.push(row) {
            Ok(()) => {}
            Err(_) => return Err(NoMemory),
        }
    }
    Ok(())
}

/// The table of the functions that the certifier knows without being told: functions of POSIX.1-2017 and C11 that this
/// project's profile counts as safe to call from a signal-catching function, as far as programs of the subset can call
/// them, four macros of `<sys/wait.h>`, and common functions that it counts as unsafe. The profile is made after the list
/// of POSIX.1-2017 XSH 2.4.3, and is no statement of which names stand in that list. The only error is want of memory.
pub fn profile(alloc: Global) -> Result<Table, NoMemory>
    ensures value { IfOk result (λ table. table ≡ profile_rows) }
    ensures table { IfOk result IsTable }
{
    let mut rows = Vec::new(alloc);
    add(alloc, &mut rows, &BEFORE_SPLIT)?;
    add(alloc, &mut rows, &BEFORE_FORK)?;
    add(alloc, &mut rows, &FORK)?;
    add(alloc, &mut rows, &BEHIND_FORK)?;
    Ok(Table::of_rows(rows))
}

/// The table of the later profile: that of [`profile`], with `fork` counted as unsafe and one more row, that of `_Fork`,
/// which makes a child process without running fork handlers and counts as safe. The only error is want of memory.
pub fn profile_later(alloc: Global) -> Result<Table, NoMemory>
    ensures value { IfOk result (λ table. table ≡ later_rows) }
    ensures table { IfOk result IsTable }
{
    let mut rows = Vec::new(alloc);
    add(alloc, &mut rows, &BEFORE_SPLIT)?;
    add(alloc, &mut rows, &SPLIT)?;
    add(alloc, &mut rows, &BEFORE_FORK)?;
    add(alloc, &mut rows, &UNSAFE_FORK)?;
    add(alloc, &mut rows, &BEHIND_FORK)?;
    Ok(Table::of_rows(rows))
}
