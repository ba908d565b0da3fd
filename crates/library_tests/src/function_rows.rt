use posix_table::{Table, profile, profile_later, table_text};
use std::test::Fail;

/// Whether the rows of these names stand in the table, with these marks of safety and places.
fn stands(table: &Table, name: &str, place: usize, safe: bool) -> bool {
    let Some(row) = table.row(name) else {
        return false;
    };
    let Some(at) = table.at(place) else {
        return false;
    };
    row.safe == safe && at.name.as_str() == name && table.place(name) == Some(place)
}

/// Whether a table has none of these names.
fn lacks(table: &Table, names: &[&str]) -> bool {
    for name in names {
        if table.row(name).is_some() || table.place(name).is_some() {
            return false;
        }
    }
    true
}

/// The profile has 118 safe and 43 unsafe rows, counted by hand.
fn is_usual(table: &Table) -> bool {
    stands(table, "WEXITSTATUS", 0, true)
        && stands(table, "fork", 38, true)
        && stands(table, "write", 160, true)
        && table.at(161).is_none()
        && lacks(
            table,
            &["", "A", "rea", "readx", "vfork", "zzz", "Read", "_Fork"],
        )
}

fn is_later(table: &Table) -> bool {
    stands(table, "_Exit", 4, true)
        && stands(table, "_Fork", 5, true)
        && stands(table, "_exit", 6, true)
        && stands(table, "fork", 39, false)
        && stands(table, "write", 161, true)
        && table.at(162).is_none()
}

/// How many lines a text has, and whether it begins with these.
fn is_text(text: &str, lines: usize, front: &str) -> bool {
    text.bytes().filter(|b| *b == b'\n').count() == lines && text.starts_with(front)
}

#[test]
fn text(rt: HostRuntime) -> Result<(), Fail> {
    let usual = table_text(rt.alloc(), &profile(rt.alloc())?)?;
    let later = table_text(rt.alloc(), &profile_later(rt.alloc())?)?;
    let front = "WEXITSTATUS safe (i) i pure\n";
    assert!(rt; is_text(usual.as_str(), 161, front) && is_text(later.as_str(), 162, front));
    Ok(())
}

#[test]
fn profiles(rt: HostRuntime) -> Result<(), Fail> {
    let usual = profile(rt.alloc())?;
    let later = profile_later(rt.alloc())?;
    assert!(rt; is_usual(&usual) && is_later(&later));
    Ok(())
}
