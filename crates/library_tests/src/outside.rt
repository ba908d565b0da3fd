use base_core::{
    Failed, FileShelf, Lexeme, MemShelf, MemSink, ReadError, Shelf, Sig, Sink, WriteError,
};
use std::test::Fail;

/// The signals of `<signal.h>` in alphabetical order.
const NAMES: [&str; 28] = [
    "SIGABRT",
    "SIGALRM",
    "SIGBUS",
    "SIGCHLD",
    "SIGCONT",
    "SIGFPE",
    "SIGHUP",
    "SIGILL",
    "SIGINT",
    "SIGKILL",
    "SIGPIPE",
    "SIGPOLL",
    "SIGPROF",
    "SIGQUIT",
    "SIGSEGV",
    "SIGSTOP",
    "SIGSYS",
    "SIGTERM",
    "SIGTRAP",
    "SIGTSTP",
    "SIGTTIN",
    "SIGTTOU",
    "SIGURG",
    "SIGUSR1",
    "SIGUSR2",
    "SIGVTALRM",
    "SIGXCPU",
    "SIGXFSZ",
];

/// Whether the signal of this number has this name, and whether it alone is found by it.
fn is_named(number: u8, name: &[u8]) -> bool {
    match Sig::new(number) {
        Some(signal) => {
            signal.name().as_bytes() == name
                && signal.number() == number
                && matches!(Sig::named(name), Some(found) if found == signal)
        }
        None => false,
    }
}

#[test]
fn each_signal_has_its_name(rt: HostRuntime) {
    let mut number = 0;
    for name in NAMES {
        number = u8::saturating_add(number, 1);
        assert!(rt; is_named(number, name.as_bytes()), "{number}");
    }
    assert_eq!(rt; number, 28);
    assert!(rt; Sig::new(0).is_none());
    assert!(rt; Sig::new(29).is_none());
    for name in ["", "SIG", "sigint", "SIGINT2", "SIGABR"] {
        assert!(rt; Sig::named(name.as_bytes()).is_none(), "{name}");
    }
}

#[test]
fn two_signals_cannot_be_caught(rt: HostRuntime) -> Result<(), Fail> {
    for (name, is_caught) in [
        ("SIGABRT", true),
        ("SIGKILL", false),
        ("SIGSEGV", true),
        ("SIGSTOP", false),
        ("SIGSYS", true),
    ] {
        let signal = Sig::named(name.as_bytes()).ok_or("no signal")?;
        assert_eq!(rt; signal.can_be_caught(), is_caught, "{name}");
    }
    Ok(())
}

#[test]
fn a_lexeme_keeps_its_bytes(rt: HostRuntime) -> Result<(), Fail> {
    let mut text = [0; 300];
    for (index, byte) in text.iter_mut().enumerate() {
        *byte = (index % 251) as u8;
    }
    for length in [0, 1, 14, 15, 300] {
        let bytes = text.get(..length).ok_or("no such part")?;
        let lexeme = Lexeme::new(rt.alloc(), bytes)?;
        assert_eq!(rt; lexeme.as_bytes(), bytes, "{length}");
    }
    Ok(())
}

#[test]
fn a_shelf_reads_what_it_holds(rt: HostRuntime) -> Result<(), Fail> {
    let alloc = rt.alloc();
    let mut shelf = MemShelf::new(alloc);
    shelf.set("a.c", b"int")?;
    assert_eq!(rt; shelf.read(alloc, "a.c", 3)?.as_slice(), b"int".as_slice());
    assert!(rt; matches!(shelf.read(alloc, "a.c", 2), Err(ReadError::TooLong)));
    assert!(rt; matches!(shelf.read(alloc, "b.c", 3), Err(ReadError::Failed)));
    shelf.write(alloc, "b.c", b"void")?;
    assert_eq!(rt; shelf.contents("b.c"), Some(b"void".as_slice()));
    assert_eq!(rt; shelf.contents("a.c"), Some(b"int".as_slice()));
    assert_eq!(rt; shelf.contents("c.c"), None);
    assert_eq!(rt; shelf.failed_reads(), 0);
    assert_eq!(rt; shelf.failed_writes(), 0);
    Ok(())
}

#[test]
fn a_shelf_fails_as_planned(rt: HostRuntime) -> Result<(), Fail> {
    let alloc = rt.alloc();
    let mut shelf = MemShelf::new(alloc);

    // The second call fails and leaves two bytes.
    shelf.fail(2, 2)?;
    shelf.write(alloc, "a.c", b"one")?;
    assert_eq!(rt;
        shelf.write(alloc, "a.c", b"three"),
        Err(WriteError::Failed)
    );
    assert_eq!(rt; shelf.contents("a.c"), Some(b"th".as_slice()));
    assert_eq!(rt; shelf.failed_writes(), 1);

    // Of two plans for one call the last one counts, and a short text is kept whole.
    shelf.fail(1, 0)?;
    shelf.fail(1, 4)?;
    assert_eq!(rt; shelf.write(alloc, "a.c", b"six"), Err(WriteError::Failed));
    assert_eq!(rt; shelf.contents("a.c"), Some(b"six".as_slice()));

    shelf.fail(1, 0)?;
    assert!(rt; matches!(shelf.read(alloc, "a.c", 9), Err(ReadError::Failed)));
    assert_eq!(rt; shelf.read(alloc, "a.c", 9)?.as_slice(), b"six".as_slice());
    assert_eq!(rt; shelf.failed_reads(), 1);
    assert_eq!(rt; shelf.failed_writes(), 2);
    Ok(())
}

#[test]
fn a_sink_takes_what_it_may(rt: HostRuntime) -> Result<(), Fail> {
    let mut sink = MemSink::new(rt.alloc(), 3, 2)?;
    assert_eq!(rt; sink.put(b"abcd"), Ok(2));
    assert_eq!(rt; sink.put(b"cd"), Ok(1));
    assert_eq!(rt; sink.put(b""), Ok(0));
    assert_eq!(rt; sink.faults(), 0);
    assert_eq!(rt; sink.put(b"d"), Err(Failed));
    assert_eq!(rt; sink.taken(), b"abc".as_slice());
    assert_eq!(rt; sink.faults(), 1);

    let mut idle = MemSink::new(rt.alloc(), 3, 0)?;
    assert_eq!(rt; idle.put(b"a"), Ok(0));
    assert_eq!(rt; idle.taken(), b"".as_slice());
    assert_eq!(rt; idle.faults(), 1);
    Ok(())
}

#[test]
fn a_sink_fails_as_planned(rt: HostRuntime) -> Result<(), Fail> {
    let mut sink = MemSink::new(rt.alloc(), 8, 8)?;
    sink.fail(2)?;
    assert_eq!(rt; sink.put(b"a"), Ok(1));

    // A put of nothing is no call that is counted.
    assert_eq!(rt; sink.put(b""), Ok(0));
    assert_eq!(rt; sink.put(b"b"), Err(Failed));
    assert_eq!(rt; sink.put(b"c"), Ok(1));
    assert_eq!(rt; sink.taken(), b"ac".as_slice());
    assert_eq!(rt; sink.faults(), 1);
    Ok(())
}

#[test]
fn the_shelf_of_files_tells_its_failures(rt: HostRuntime) -> Result<(), Fail> {
    let alloc = rt.alloc();
    let mut shelf = FileShelf::new(&rt);
    shelf.write(alloc, "/dev/null", b"int")?;
    assert_eq!(rt;
        shelf.read(alloc, "/dev/null", 0)?.as_slice(),
        b"".as_slice()
    );
    assert!(rt; matches!(shelf.read(alloc, "/dev/zero", 9), Err(ReadError::TooLong)));
    assert!(rt; matches!(shelf.read(alloc, "/absent/a.c", 9), Err(ReadError::Failed)));
    assert_eq!(rt;
        shelf.write(alloc, "/absent/a.c", b""),
        Err(WriteError::Failed)
    );
    Ok(())
}
