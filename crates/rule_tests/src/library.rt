//! Calls of library functions.

use crate::described::{is_wanted, operands};
use posix_table::{Row, Table, profile};
use std::alloc::{AllocError, Global};
use std::test::Fail;

struct LibraryCase {
    name: &'static str,
    on: &'static [u8],
    gives: &'static [u8],
}

/// Calls of library functions.
#[rattlefmt::skip]
const LIBRARY_CALLS: [LibraryCase; 63] = [
    LibraryCase { name: "getpid", on: b"", gives: b"l" },
    LibraryCase { name: "getpid", on: b".i", gives: b"!4" },
    LibraryCase { name: "abort", on: b"", gives: b"v" },
    LibraryCase { name: "exit", on: b".i", gives: b"v" },
    LibraryCase { name: "exit", on: b"", gives: b"!4" },
    LibraryCase { name: "srand", on: b"pi", gives: b"v" },
    LibraryCase { name: "write", on: b".i Tc[ .i", gives: b"l" },
    LibraryCase { name: "write", on: b".i Tc[", gives: b"!4" },
    LibraryCase { name: "write", on: b".i Tc[ .i .i", gives: b"!4" },
    LibraryCase { name: "write", on: b".i .i .i", gives: b"!5" },
    LibraryCase { name: "write", on: b".i 0i .i", gives: b"l" },
    LibraryCase { name: "write", on: b".i Ni .i", gives: b"l" },
    LibraryCase { name: "write", on: b".i fivf .i", gives: b"!5" },
    LibraryCase { name: "write", on: b".i l .i", gives: b"?" },
    LibraryCase { name: "write", on: b".i l pi*", gives: b"!5" },
    LibraryCase { name: "write", on: b"l", gives: b"!4" },
    LibraryCase { name: "write", on: b".i w .i", gives: b"?" },
    LibraryCase { name: "open", on: b"Tc[ .i", gives: b"l" },
    LibraryCase { name: "open", on: b"Tc[ .i .i", gives: b"l" },
    LibraryCase { name: "open", on: b"Tc[", gives: b"!4" },
    LibraryCase { name: "open", on: b"Tc[ .i .i .i", gives: b"!4" },
    LibraryCase { name: "printf", on: b"Tc[", gives: b"l" },
    LibraryCase { name: "printf", on: b"Tc[ .i p1", gives: b"!5" },
    LibraryCase { name: "printf", on: b"Tc[ .i .i .i pi* Tc[", gives: b"l" },
    LibraryCase { name: "printf", on: b"Tc[ fivf", gives: b"!5" },
    LibraryCase { name: "printf", on: b"", gives: b"!4" },
    LibraryCase { name: "fcntl", on: b".i .i", gives: b"l" },
    LibraryCase { name: "fcntl", on: b".i .i pi*", gives: b"l" },
    LibraryCase { name: "fcntl", on: b".i .i .i", gives: b"l" },
    LibraryCase { name: "fcntl", on: b".i .i p1", gives: b"!5" },
    LibraryCase { name: "signal", on: b".i fivf", gives: b"ivf" },
    LibraryCase { name: "signal", on: b".i 0i", gives: b"ivf" },
    LibraryCase { name: "signal", on: b".i Ni", gives: b"ivf" },
    LibraryCase { name: "signal", on: b".i Divf", gives: b"ivf" },
    LibraryCase { name: "signal", on: b".i fvf", gives: b"!5" },
    LibraryCase { name: "signal", on: b".i fiif", gives: b"!5" },
    LibraryCase { name: "signal", on: b".i pi", gives: b"!5" },
    LibraryCase { name: "sigaction", on: b".i pa* 0i", gives: b"l" },
    LibraryCase { name: "sigaction", on: b".i pa 0i", gives: b"!5" },
    LibraryCase { name: "sigprocmask", on: b".i ps* 0i", gives: b"l" },
    LibraryCase { name: "sigprocmask", on: b".i ps* 0i .i", gives: b"!4" },
    LibraryCase { name: "sigfillset", on: b"fv*v*f", gives: b"!5" },
    LibraryCase { name: "pthread_create", on: b"pu* 0i fv*v*f 0i", gives: b"l" },
    LibraryCase { name: "pthread_create", on: b"pu* 0i fv*v*f pi", gives: b"!5" },
    LibraryCase { name: "pthread_create", on: b"pu* 0i 0i 0i", gives: b"!5" },
    LibraryCase { name: "pthread_create", on: b"pu* Ni Ni Ni", gives: b"!5" },
    LibraryCase { name: "pthread_create", on: b"pu* 0i fivf 0i", gives: b"!5" },
    LibraryCase { name: "pthread_create", on: b"pu 0i fv*v*f 0i", gives: b"!5" },
    LibraryCase { name: "pthread_atfork", on: b"fvf 0i Ni", gives: b"l" },
    LibraryCase { name: "pthread_atfork", on: b"fivf 0i 0i", gives: b"!5" },
    LibraryCase { name: "pthread_atfork", on: b"Divf fvf fvf", gives: b"l" },
    LibraryCase { name: "pthread_join", on: b"pu 0i", gives: b"l" },
    LibraryCase { name: "pthread_join", on: b"pu Ni", gives: b"l" },
    LibraryCase { name: "pthread_join", on: b"pu pv*", gives: b"!5" },
    LibraryCase { name: "malloc", on: b".i", gives: b"v*" },
    LibraryCase { name: "memset", on: b"pa* .i .u", gives: b"v*" },
    LibraryCase { name: "memcpy", on: b"pi* pi[ .i", gives: b"v*" },
    LibraryCase { name: "strchr", on: b"Tc[ .i", gives: b"c*" },
    LibraryCase { name: "strdup", on: b"Tc[", gives: b"c*" },
    LibraryCase { name: "localtime", on: b"pl*", gives: b"t*" },
    LibraryCase { name: "fopen", on: b"Tc[ Tc[", gives: b"k*" },
    LibraryCase { name: "getenv", on: b"Tc[", gives: b"c*" },
    LibraryCase { name: "sem_post", on: b"pk*", gives: b"l" },
];

/// Whether the call of a case is judged as wanted.
fn is_judged(alloc: Global, row: &Row, case: &LibraryCase) -> Result<bool, AllocError> {
    let xs = operands(alloc, case.on)?;
    let verdict = c_rules::library_call(alloc, row, xs.as_slice())?;
    is_wanted(alloc, &verdict, case.gives)
}

fn first_wrong_call(
    alloc: Global,
    table: &Table,
    cases: &[LibraryCase],
) -> Result<Option<usize>, AllocError> {
    for (k, case) in cases.iter().enumerate() {
        match table.row(case.name) {
            Some(row) => {
                if !is_judged(alloc, row, case)? {
                    return Ok(Some(k));
                }
            }
            None => return Ok(Some(k)),
        }
    }
    Ok(None)
}

fn known(alloc: Global) -> Result<Table, AllocError> {
    match profile(alloc) {
        Ok(table) => Ok(table),
        Err(_) => Err(AllocError),
    }
}

#[test]
fn calls_of_library_functions(rt: HostRuntime) -> Result<(), Fail> {
    let alloc = rt.alloc();
    let table = known(alloc)?;
    assert_eq!(rt; first_wrong_call(alloc, &table, &LIBRARY_CALLS)?, None);
    Ok(())
}
