//! What the names of a program stand for, and the values of its cases and enumerators (C11 6.2.1, 6.7.2.2, 6.8.4.2).

use crate::told::program;
use base_core::{FnId, VarId};
use c_bindings::{Binding, Told};
use c_environment::Variable;
use c_judged::{Judged, judge};
use posix_table::{Table, profile};
use std::alloc::{AllocError, Global};

/// Each name of a program that stands for something, in preorder, and each value, behind a `#`: a variable by its number behind a `v`, a
/// function of the unit by its number behind an `f`, a library function by its name, an object of the library behind an `s`, a constant
/// behind a `=`.
#[rattlefmt::skip]
const NAMES: [(&str, &str); 11] = [
    ("int g;static int s;int f(int a){return a+g;}int main(void){int x=f(s);return x;}",
     " v0 v1 f0 v2 v2 v0 f1 v3 f0 v1 v3"),
    ("enum{A,B=5,C};int main(void){return C;}", " #0 #5 #6 f0 =6"),
    ("int main(void){switch(1){case 2:case 3+1:break;}return 0;}", " f0 #2 #4"),
    ("int main(void){return getpid();}", " f0 getpid"),
    ("int main(void){signal(SIGINT,SIG_IGN);signal(SIGINT,SIG_DFL);errno=0;return signal(SIGINT,SIG_IGN)==SIG_ERR;}",
     " f0 signal =9 ignore signal =9 default errno signal =9 ignore failure"),
    ("int f(int a);int main(void){return f(1);}int f(int b){return b;}", " f1 f0 f1 f1 v0 v0"),
    ("typedef int T;T x;int main(void){x=sizeof(T);return 0;}", " v0 f0 v0"),
    ("int a;void f(int a){{int a;a=1;}a=2;}int main(void){a=3;return 0;}", " v0 f0 v1 v2 v2 v1 f1 v0"),
    ("int main(void){fputs(\"x\",stderr);return 0;}", " f0 fputs s2"),
    ("pthread_mutex_t m=PTHREAD_MUTEX_INITIALIZER;int main(void){pthread_mutex_lock(&m);return 0;}",
     " v0 kernel f0 pthread_mutex_lock v0"),
    ("int main(void){char*p=NULL;return open(p,O_RDONLY);}", " f0 v0 =0 open v0 opaque"),
];

/// The variables of a program: the number of each, the function in which it is declared, and whether it has static storage duration.
const VARIABLES: [(&str, &str); 3] = [
    (
        "int g;static int s;int f(int a){return a;}int main(void){int x;static int y;return f(0);}",
        " 0:lasting 1:lasting 2:f0 3:f1 4:f1:lasting",
    ),
    (
        "int main(void){extern int x;return x;}int x;",
        " 0:f0:lasting",
    ),
    ("int f(int a);int main(void){return 0;}", ""),
];

fn row_name(table: &Table, place: u32) -> &str {
    match table.at(place as usize) {
        Some(row) => row.name.as_str(),
        None => "no row",
    }
}

fn binding_text(alloc: Global, table: &Table, one: Binding) -> Result<String, AllocError> {
    match one {
        Binding::Variable(VarId(k)) => format!(in alloc; "v{k}"),
        Binding::Function(FnId(k)) => format!(in alloc; "f{k}"),
        Binding::Library(place) => {
            let name = row_name(table, place);
            format!(in alloc; "{name}")
        }
        Binding::LibraryObject(k) => format!(in alloc; "s{k}"),
        Binding::Value(z) => format!(in alloc; "={z}"),
        Binding::Default => format!(in alloc; "default"),
        Binding::Ignore => format!(in alloc; "ignore"),
        Binding::Failure => format!(in alloc; "failure"),
        Binding::Kernel => format!(in alloc; "kernel"),
        Binding::Opaque => format!(in alloc; "opaque"),
        Binding::Errno => format!(in alloc; "errno"),
    }
}

/// What is told of a node, behind what was told before.
fn told_text(
    alloc: Global,
    table: &Table,
    before: String,
    one: &Told,
) -> Result<String, AllocError> {
    match (one.binding, one.value) {
        (Some(binding), _) => {
            let text = binding_text(alloc, table, binding)?;
            format!(in alloc; "{before} {text}")
        }
        (None, Some(value)) => format!(in alloc; "{before} #{value}"),
        (None, None) => Ok(before),
    }
}

fn names_text(alloc: Global, table: &Table, judged: &Judged) -> Result<String, AllocError> {
    let mut text = String::new(alloc);
    for one in judged.all.as_slice() {
        text = told_text(alloc, table, text, one)?;
    }
    Ok(text)
}

fn variable_text(alloc: Global, before: String, one: &Variable) -> Result<String, AllocError> {
    let k = one.number;
    let text = match one.owner {
        Some(f) => format!(in alloc; "{before} {k}:f{f}")?,
        None => format!(in alloc; "{before} {k}")?,
    };
    if one.lasting {
        format!(in alloc; "{text}:lasting")
    } else {
        Ok(text)
    }
}

fn variables_text(alloc: Global, judged: &Judged) -> Result<String, AllocError> {
    let mut text = String::new(alloc);
    for one in judged.variables.as_slice() {
        text = variable_text(alloc, text, one)?;
    }
    Ok(text)
}

/// What is told of the names or of the variables of a text.
fn text_of(alloc: Global, table: &Table, text: &str, of_names: bool) -> Result<String, AllocError> {
    let Some(program) = program(alloc, text.as_bytes()) else {
        return format!(in alloc; "no program");
    };
    let judged = judge(alloc, table, program.items().as_slice())?;
    if of_names {
        names_text(alloc, table, &judged)
    } else {
        variables_text(alloc, &judged)
    }
}

/// The first text of which something else is told than what stands beside it, and what is told.
fn first_wrong(
    alloc: Global,
    rows: &[(&str, &str)],
    of_names: bool,
) -> Result<Option<String>, AllocError> {
    let Ok(table) = profile(alloc) else {
        return Err(AllocError);
    };
    for (text, want) in rows {
        let out = text_of(alloc, &table, text, of_names)?;
        if out.as_str() != *want {
            return Ok(Some(out));
        }
    }
    Ok(None)
}

#[test]
fn names_stand_for_what_they_do(rt: HostRuntime) -> Result<(), AllocError> {
    assert_eq!(rt; first_wrong(rt.alloc(), &NAMES, true)?, None);
    Ok(())
}

#[test]
fn variables_are_told(rt: HostRuntime) -> Result<(), AllocError> {
    assert_eq!(rt; first_wrong(rt.alloc(), &VARIABLES, false)?, None);
    Ok(())
}
