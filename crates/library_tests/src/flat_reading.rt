use base_core::Sig;
use c_lexer::scan;
use flat_programs::{FlatFault, FlatProgram, LibraryFunction, Statement, read_flat};
use std::alloc::Global;
use std::process::Abort;
use std::test::Fail;

/// The answer for the tokens of a text.
fn parsed(
    rt: &impl Abort,
    alloc: Global,
    text: &[u8],
) -> Result<Result<FlatProgram, FlatFault>, Fail> {
    assert!(rt; text.len() <= 1048576);
    let tokens = scan(alloc, text)?;
    Ok(read_flat(alloc, &tokens))
}

#[test]
fn reads_each_call(rt: HostRuntime) -> Result<(), Fail> {
    let text = b"int main(void) { abort(); getpid(); pause(); rand(); return 0; }";
    let program = parsed(&rt, rt.alloc(), text)??;
    let expected = [
        Statement::Call(LibraryFunction::Abort),
        Statement::Call(LibraryFunction::Getpid),
        Statement::Call(LibraryFunction::Pause),
        Statement::Call(LibraryFunction::Rand),
    ];
    assert_eq!(rt; program.handlers().len(), 0);
    assert_eq!(rt; program.statements(), expected.as_slice());
    Ok(())
}

#[test]
fn reads_handlers_and_installs(rt: HostRuntime) -> Result<(), Fail> {
    let text =
        b"void a(int z) {}\nvoid z(int a) { getpid(); abort(); }\nint main(void) { signal(SIGXFSZ, z); pause(); signal(SIGABRT, a); return 0; }";
    let program = parsed(&rt, rt.alloc(), text)??;
    let last = Sig::new(28).ok_or("no signal")?;
    let first = Sig::new(1).ok_or("no signal")?;
    let statements = [
        Statement::Install {
            signal: last,
            handler: b'z',
        },
        Statement::Call(LibraryFunction::Pause),
        Statement::Install {
            signal: first,
            handler: b'a',
        },
    ];
    assert_eq!(rt; program.statements(), statements.as_slice());
    assert_eq!(rt; program.handlers().len(), 2);
    let a = &program.handlers()[0];
    let z = &program.handlers()[1];
    assert_eq!(rt; a.name(), b'a');
    assert_eq!(rt; a.calls(), [].as_slice());
    assert_eq!(rt; z.name(), b'z');
    assert_eq!(rt;
        z.calls(),
        [LibraryFunction::Getpid, LibraryFunction::Abort].as_slice()
    );
    Ok(())
}

#[test]
fn answers_exactly_the_flat_programs(rt: HostRuntime) -> Result<(), Fail> {
    for (text, is_flat) in [
        ("int main(void){return 0;}", true),
        ("void h(int h){}int main(void){return 0;}", true),
        (
            "void h(int s){rand();}int main(void){signal(SIGKILL,h);signal(SIGKILL,h);return 0;}",
            true,
        ),
        ("", false),
        // a token behind main, a handler behind main
        ("int main(void){return 0;};", false),
        ("int main(void){return 0;}void h(int s){}", false),
        // a call without its semicolon, with an argument, behind the return
        ("int main(void){pause()return 0;}", false),
        ("int main(void){pause(0);return 0;}", false),
        ("int main(void){return 0;pause();}", false),
        // a function that is none of the library's, a signal that is none
        ("int main(void){wait();return 0;}", false),
        (
            "void h(int s){}int main(void){signal(SIGCLD,h);return 0;}",
            false,
        ),
        // names that are no lower-case letter
        ("void H(int s){}int main(void){return 0;}", false),
        ("void hh(int s){}int main(void){return 0;}", false),
        ("void h(int S){}int main(void){return 0;}", false),
        // two handlers of one name, an install of no handler
        (
            "void h(int s){}void h(int t){}int main(void){return 0;}",
            false,
        ),
        (
            "void h(int s){}int main(void){signal(SIGINT,s);return 0;}",
            false,
        ),
        // an install in a handler, a handler without its parameter
        (
            "void h(int s){signal(SIGINT,h);}int main(void){return 0;}",
            false,
        ),
        ("void h(void){}int main(void){return 0;}", false),
        // a main without its void, without its return
        ("int main(){return 0;}", false),
        ("int main(void){pause();}", false),
    ] {
        match parsed(&rt, rt.alloc(), text.as_bytes())? {
            Ok(_) => assert!(rt; is_flat, "{text}"),
            Err(fault) => {
                assert_eq!(rt; fault, FlatFault::NotFlat, "{text}");
                assert!(rt; !is_flat, "{text}");
            }
        }
    }
    Ok(())
}

#[test]
fn reads_a_hundred_calls_and_no_more(rt: HostRuntime) -> Result<(), Fail> {
    for (calls, is_flat) in [(99, true), (100, false)] {
        let mut text = String::new(rt.alloc());
        text.push_str("void h(int s){")?;
        for _ in 0..calls {
            text.push_str("rand();")?;
        }
        text.push_str("}int main(void){signal(SIGINT,h);return 0;}")?;
        let answer = parsed(&rt, rt.alloc(), text.as_bytes())?;
        assert_eq!(rt; answer.is_ok(), is_flat, "{calls}");
    }
    Ok(())
}
