use base_core::Sig;
use flat_programs::{FlatProgram, Handler, LibraryFunction, Statement};
use std::test::Fail;

#[test]
fn a_flat_program_keeps_its_parts(rt: HostRuntime) -> Result<(), Fail> {
    let alloc = rt.alloc();
    let signal = Sig::new(9).ok_or("no signal")?;
    let calls = vec![in alloc; LibraryFunction::Getpid, LibraryFunction::Abort]?;
    let handlers = vec![in alloc; Handler::new(b'h', b's', calls)]?;
    let statements = vec![in alloc;
        Statement::Install {
            signal,
            handler: b'h'
        },
        Statement::Call(LibraryFunction::Pause),
    ]?;
    let program = FlatProgram::new(handlers, statements);
    assert_eq!(rt; program.handlers().len(), 1);
    let handler = &program.handlers()[0];
    assert_eq!(rt; handler.name(), b'h');
    assert_eq!(rt;
        handler.calls(),
        [LibraryFunction::Getpid, LibraryFunction::Abort].as_slice()
    );
    let expected = [
        Statement::Install {
            signal,
            handler: b'h',
        },
        Statement::Call(LibraryFunction::Pause),
    ];
    assert_eq!(rt; program.statements(), expected.as_slice());
    Ok(())
}
