ghost use Rattle.std.specs.Prelude.{◌≡◌, slice_get, option_copied};
ghost use Rattle.posix_table.specs.Table.{row_named, place_named, IsTable};

use crate::Row;
use std::marker::Model;

/// Rows of functions, sorted by the bytes of their names, which differ: at most 100,000, each a row of the profile
/// (perhaps with another mark of safety) or one that has no effect and at most eight plain letters. A contract sees the
/// list of the rows.
#[derive(Debug, Drop)]
pub struct Table {
    rows: Vec<Row>,
}

impl Model for Table {
    ghost use Rattle.std.specs.Prelude.{List};
    ghost use Rattle.posix_table.specs.declared.row.Row.{Row as TheRow};
    ghost use Rattle.posix_table.specs.Table.{IsTable};

    ghost Value = { List TheRow };

    ghost view = { λ t. t.rows.items };

    ghost invariant = { λ t. IsTable t.rows.items };
}

impl Table {
    /// The table of these rows.
    pub(crate) fn of_rows(rows: Vec<Row>) -> Self
        requires { IsTable rows.items }
        ensures value { result ≡ rows.items }
        ensures table { IsTable result }
    {
        Table { rows }
    }

    /// The row of the function of this name; None exactly where no row has it. The time grows with the logarithm of the
    /// number of rows, and no memory is taken.
    pub fn row(&self, name: &str) -> Option<&Row>
        ensures value { option_copied result ≡ row_named self.now name.now }
        ensures table { IsTable self.now }
    {
        match self
            .rows
            .binary_search_by(|row| row.name.as_str().cmp(name))
        {
            Ok(k) => Some(&self.rows[k]),
            Err(_) => None,
        }
    }

    /// The place of the function of this name in the order of the names, counted from 0; None exactly where no row has the
    /// name. The time grows with the logarithm of the number of rows, and no memory is taken.
    pub fn place(&self, name: &str) -> Option<usize>
        ensures value { result ≡ place_named self.now name.now }
        ensures table { IsTable self.now }
    {
        match self
            .rows
            .binary_search_by(|row| row.name.as_str().cmp(name))
        {
            Ok(k) => Some(k),
            Err(_) => None,
        }
    }

    /// The row at this place in the order of the names, counted from 0; None exactly from the number of rows on. No
    /// memory is taken.
    pub fn at(&self, k: usize) -> Option<&Row>
        ensures value { option_copied result ≡ slice_get self.now k }
        ensures table { IsTable self.now }
    {
        self.rows.get(k)
    }

    /// The rows.
    pub(crate) fn as_slice(&self) -> &[Row]
        ensures { result.now ≡ self.now }
    {
        self.rows.as_slice()
    }
}
