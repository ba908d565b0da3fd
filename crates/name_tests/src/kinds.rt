use c_kinds::{CType, Types, Word};
use std::alloc::{AllocError, Global};
use std::mem;
use std::test::Fail;

/// Takes one step of a description: a base type is pushed, `*` and `[` make a pointer to the last and an array of it, and `f` a
/// function that gives the last and takes those before it.
fn describe(alloc: Global, types: &mut Vec<CType>, step: u8) -> Result<(), AllocError> {
    let base = match step {
        b'v' => CType::Void,
        b'c' => CType::Int(8, true),
        b'i' => CType::Int(32, true),
        b'u' => CType::Int(64, false),
        b'1' => CType::Struct(1),
        b'2' => CType::Struct(2),
        b's' => CType::Set,
        b'k' => CType::Kernel,
        _ => return modify(alloc, types, step),
    };
    types.push(base)?;
    Ok(())
}

fn modify(alloc: Global, types: &mut Vec<CType>, step: u8) -> Result<(), AllocError> {
    let Some(last) = types.pop() else {
        return Ok(());
    };
    let made = match step {
        b'*' => CType::pointer(alloc, last)?,
        b'[' => CType::array(alloc, last)?,
        _ => {
            let takes = mem::replace(types, Vec::new(alloc));
            CType::function(alloc, Types::new(alloc, takes)?, last)?
        }
    };
    types.push(made)?;
    Ok(())
}

/// The types that these descriptions make.
fn described(alloc: Global, texts: &[&[u8]]) -> Result<Vec<CType>, AllocError> {
    let mut all = Vec::new(alloc);
    for text in texts {
        let mut types = Vec::new(alloc);
        for step in *text {
            describe(alloc, &mut types, *step)?;
        }
        all.append(&mut types)?;
    }
    Ok(all)
}

#[derive(Clone, Copy)]
enum Relation {
    Matches,
    Agrees,
}

impl Relation {
    fn holds(self, one: &CType, other: &CType) -> bool {
        match self {
            Relation::Matches => one.matches(other),
            Relation::Agrees => one.agrees(other),
        }
    }
}

/// Where the relation first differs from the rows, in which `1` says that the row's type stands in it to the column's.
fn difference(types: &[CType], rows: &[&[u8]], relation: Relation) -> Option<(usize, usize)> {
    for (r, row) in rows.iter().enumerate() {
        for (c, due) in row.iter().enumerate() {
            match (types.get(r), types.get(c)) {
                (Some(one), Some(other)) => {
                    if relation.holds(one, other) != (*due == b'1') {
                        return Some((r, c));
                    }
                }
                _ => return Some((r, c)),
            }
        }
    }
    None
}

/// `void`, `char`, `int`, `unsigned long`; `int *`, `void *`, `char **`, `FILE *`; `int [2]`, `int [2][3]`; two structures,
/// `sigset_t`, `FILE`; pointers to `void (int)`, `void (char)`, `int (int)`, `void (void)`, `void (int, void *)` and
/// `void (int, char **)`.
const TABLE: [&[u8]; 20] = [
    b"v", b"c", b"i", b"u", b"i*", b"v*", b"c**", b"k*", b"i[", b"i[[", b"1", b"2", b"s", b"k",
    b"ivf", b"cvf", b"iif", b"vf", b"iv*vf", b"ic**vf",
];

/// Which type of the table, by its row, matches which, by its column.
const MATCHES: [&[u8]; 20] = [
    b"00000000000000000000",
    b"01110000000000000000",
    b"01110000000000000000",
    b"01110000000000000000",
    b"00001111000000000000",
    b"00001111000000000000",
    b"00001111000000000000",
    b"00001111000000000000",
    b"00001111000000000000",
    b"00001111000000000000",
    b"00000000001000000000",
    b"00000000000100000000",
    b"00000000000010000000",
    b"00000000000000000000",
    b"00000000000000110000",
    b"00000000000000110000",
    b"00000000000000001000",
    b"00000000000000000100",
    b"00000000000000000011",
    b"00000000000000000011",
];

/// Which two of the table agree as the types of two declarations of one object.
const AGREES: [&[u8]; 20] = [
    b"00000000000000000000",
    b"01110000000000000000",
    b"01110000000000000000",
    b"01110000000000000000",
    b"00001111110000000000",
    b"00001111110000000000",
    b"00001111110000000000",
    b"00001111110000000000",
    b"00001111100000000000",
    b"00001111010000000000",
    b"00000000001000000000",
    b"00000000000100000000",
    b"00000000000010000000",
    b"00000000000001000000",
    b"00000000000000110000",
    b"00000000000000110000",
    b"00000000000000001000",
    b"00000000000000000100",
    b"00000000000000000011",
    b"00000000000000000011",
];

#[test]
fn a_table_of_pairs(rt: HostRuntime) -> Result<(), Fail> {
    let types = described(rt.alloc(), &TABLE)?;
    assert_eq!(rt;
        difference(types.as_slice(), &MATCHES, Relation::Matches),
        None
    );
    assert_eq!(rt;
        difference(types.as_slice(), &AGREES, Relation::Agrees),
        None
    );
    Ok(())
}

/// How many are pointers to a function that takes an int and gives nothing, as a signal's handler is.
fn handlers(types: &[CType]) -> usize {
    types
        .iter()
        .filter(|one| one.has_signature(&[Word::Int], Word::Void))
        .count()
}

/// Whether an array of arrays of int, a copy of it and its value's type are read as they are to be.
fn is_read(whole: &CType, copy: &CType, value: &CType) -> bool {
    let inner = whole.innermost().word();
    let row = whole.target().is_some_and(|row| row.word().is(Word::Array));
    row && inner.is(Word::Int)
        && inner.is_scalar()
        && copy.word().has_values()
        && !copy.word().is_pointer()
        && value.word().is_pointer()
        && value.word().is(whole.word().decayed())
}

#[test]
fn a_type_is_read(rt: HostRuntime) -> Result<(), Fail> {
    let whole = tower(rt.alloc(), 2, false)?;
    let copy = whole.share()?;
    let value = whole.decayed()?;
    assert!(rt; is_read(&whole, &copy, &value));
    Ok(())
}

#[test]
fn a_handler_has_its_signature(rt: HostRuntime) -> Result<(), Fail> {
    let types = described(
        rt.alloc(),
        &[b"ivf", b"uvf", b"iivf", b"v*vf", b"iif", b"vf", b"i"],
    )?;
    assert_eq!(rt; handlers(types.as_slice()), 2);
    Ok(())
}

/// A type with this many stars, or dimensions, over an int.
fn tower(alloc: Global, height: u32, stars: bool) -> Result<CType, AllocError> {
    let mut top = CType::Int(32, true);
    for _ in 0..height {
        top = if stars {
            CType::pointer(alloc, top)?
        } else {
            CType::array(alloc, top)?
        };
    }
    Ok(top)
}

/// Whether these, of any number of stars and of dimensions, are compared as they are to be.
fn are_compared(stars: &CType, array: &CType) -> bool {
    stars.matches(stars)
        && stars.agrees(stars)
        && array.agrees(array)
        && array.target().is_some_and(|row| !array.agrees(row))
        && array.innermost().word().is(Word::Int)
}

#[test]
fn stars_and_dimensions_without_end(rt: HostRuntime) -> Result<(), Fail> {
    let stars = tower(rt.alloc(), 500_000, true)?;
    let array = tower(rt.alloc(), 500_000, false)?;
    assert!(rt; are_compared(&stars, &array));
    Ok(())
}

/// A function that takes two of a function that takes two of a function .., this many deep; the innermost takes an int.
fn doubling(alloc: Global, levels: u32) -> Result<CType, AllocError> {
    let mut inner = CType::Int(32, true);
    for _ in 0..levels {
        let mut takes = Vec::new(alloc);
        takes.push(inner.share()?)?;
        takes.push(inner)?;
        inner = CType::function(alloc, Types::new(alloc, takes)?, CType::Void)?;
    }
    Ok(inner)
}

/// Whether the parameters of a function of `doubling` are the two.
fn takes_two(one: &CType) -> bool {
    match one {
        CType::FnPtr(takes, _) => {
            takes.len() == 2 && takes.at(1).is_some() && takes.at(2).is_none()
        }
        _ => false,
    }
}

#[test]
fn a_chain_of_thirty_functions(rt: HostRuntime) -> Result<(), Fail> {
    let one = doubling(rt.alloc(), 30)?;
    let other = doubling(rt.alloc(), 30)?;
    assert!(rt; one.matches(&other) && one.agrees(&other) && takes_two(&one));
    Ok(())
}

/// A function that takes a function that takes a function .., this many deep; the innermost takes an int.
fn nested(alloc: Global, levels: u32) -> Result<CType, AllocError> {
    let mut inner = CType::Int(32, true);
    for _ in 0..levels {
        let mut takes = Vec::new(alloc);
        takes.push(inner)?;
        inner = CType::function(alloc, Types::new(alloc, takes)?, CType::Void)?;
    }
    Ok(inner)
}

#[test]
fn functions_that_take_functions_without_end(rt: HostRuntime) -> Result<(), Fail> {
    let one = nested(rt.alloc(), 200_000)?;
    let other = nested(rt.alloc(), 200_000)?;
    assert!(rt; one.matches(&other));
    Ok(())
}
