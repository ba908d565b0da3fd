use crate::{Status, run};
use base_core::{MemShelf, MemSink};
use std::alloc::{AllocError, Global};
use std::test::Fail;

const FINDINGS: &str = "findings: 0\n";

const ABORTS: &str =
    "void h(int s) { abort(); } int main(void) { signal(SIGINT, h); pause(); return 0; }";

fn certify(alloc: Global, file: &str) -> Result<Vec<String>, AllocError> {
    let mut words = Vec::new(alloc);
    words.push("certify".to_string(alloc)?)?;
    words.push(file.to_string(alloc)?)?;
    Ok(words)
}

/// The status of a text, what was put, and what the shelf holds then.
fn decided(alloc: Global, text: &str) -> Result<(Status, Vec<u8>, Vec<u8>), Fail> {
    let words = certify(alloc, "a.c")?;
    let mut shelf = MemShelf::new(alloc);
    shelf.set("a.c", text.as_bytes())?;
    let mut out = MemSink::new(alloc, 100, 100)?;
    let status = run(alloc, &words, &mut shelf, &mut out);
    let held = match shelf.contents("a.c") {
        Some(held) => held.to_vec(alloc)?,
        None => Vec::new(alloc),
    };
    Ok((status, out.taken().to_vec(alloc)?, held))
}

#[test]
fn texts_are_decided(rt: HostRuntime) -> Result<(), Fail> {
    // Worked out by hand.
    let texts = [
        (ABORTS, Status::Yes),
        (
            "void h(int s) { rand(); } int main(void) { signal(SIGINT, h); pause(); return 0; }",
            Status::Refused,
        ),
        (
            "void h(int s) { getpid(); } int main(void) { signal(SIGINT, h); pause(); return 0; }",
            Status::Refused,
        ),
        (
            "void h(int s) { rand(); } int main(void) { signal(SIGKILL, h); pause(); return 0; }",
            Status::Yes,
        ),
        (
            "void h(int s) { rand(); } int main(void) { abort(); signal(SIGINT, h); pause(); return 0; }",
            Status::Yes,
        ),
        (
            "void h(int s) { } int main(void) { signal(SIGHUP, h); rand(); return 0; }",
            Status::Yes,
        ),
        ("", Status::NotYet),
        // The smallest program, with and without line breaks.
        ("int main(void){return 0;}", Status::Yes),
        ("int\nmain\n(\nvoid\n)\n{\nreturn\n0\n;\n}\n", Status::Yes),
        // A call behind an abort isn't reached, one before it is.
        (
            "void h(int s) { abort(); rand(); } int main(void) { signal(SIGINT, h); return 0; }",
            Status::Yes,
        ),
        (
            "void h(int s) { pause(); rand(); abort(); } int main(void) { signal(SIGINT, h); return 0; }",
            Status::Refused,
        ),
        (
            "void h(int s) { getpid(); pause(); abort(); } int main(void) { signal(SIGINT, h); return 0; }",
            Status::Yes,
        ),
        // A handler that is never installed may do anything, and each that is installed counts.
        (
            "void h(int s) { rand(); } void k(int s) { } int main(void) { signal(SIGINT, k); return 0; }",
            Status::Yes,
        ),
        (
            "void h(int s) { rand(); } void k(int s) { } int main(void) { signal(SIGINT, k); signal(SIGTERM, h); return 0; }",
            Status::Refused,
        ),
        (
            "void h(int s) { rand(); } int main(void) { signal(SIGSTOP, h); return 0; }",
            Status::Yes,
        ),
        // Near misses.
        ("int main(void){return 1;}", Status::NotYet),
        ("int main(void){return 00;}", Status::NotYet),
        // Blanks, comments, `#include` lines and line markers between the tokens.
        ("int main(void){\treturn 0;}", Status::Yes),
        ("int/**/main(void)//\n{return 0;}", Status::Yes),
        (
            "#include <signal.h>\r\nint main(void){return 0;}",
            Status::Yes,
        ),
        ("# 7 \"b.c\" 1\nint main(void){return 0;}", Status::Yes),
        // Programs that are not flat.
        (
            "static int x; int main(void){x = 1;return 0;}",
            Status::NotYet,
        ),
        ("int main(void){return 0x0;}", Status::NotYet),
        ("int main(void){return 'a';}", Status::NotYet),
        (
            "int main(void){signal(SIGINT, h);return 0;}",
            Status::NotYet,
        ),
        (
            "void h(int s) { } void h(int s) { } int main(void){return 0;}",
            Status::NotYet,
        ),
        (
            "void H(int s) { } int main(void){return 0;}",
            Status::NotYet,
        ),
    ];
    for (text, status) in texts {
        let (ended, taken, held) = decided(rt.alloc(), text)?;
        assert_eq!(rt; ended, status, "{text}");
        let printed = if status == Status::Yes { FINDINGS } else { "" };
        assert_eq!(rt; taken.as_slice(), printed.as_bytes(), "{text}");
        assert_eq!(rt; held.as_slice(), text.as_bytes(), "{text}");
    }
    Ok(())
}

#[test]
fn faults_of_the_lexis_are_told(rt: HostRuntime) -> Result<(), Fail> {
    // Worked out by hand: a text, and the line that tells its first fault.
    let texts = [
        ("@", "a.c:1:1: not in the subset: BadByte\n"),
        (
            "int main(void)\n{ return 0; } /* ",
            "a.c:2:15: not in the subset: OpenComment\n",
        ),
        (
            "int main(void){return 'a;}",
            "a.c:1:23: not in the subset: OpenLiteral\n",
        ),
        (
            "int main(void){return 18446744073709551616;}",
            "a.c:1:23: not in the subset: NumberTooLarge\n",
        ),
        ("\n#define X 0\n", "a.c:2:1: not in the subset: Directive\n"),
        ("# 7 \"b.c\"\n  @", "b.c:7:3: not in the subset: BadByte\n"),
    ];
    for (text, line) in texts {
        let (ended, taken, held) = decided(rt.alloc(), text)?;
        assert_eq!(rt; ended, Status::Text, "{text}");
        assert_eq!(rt; taken.as_slice(), line.as_bytes(), "{text}");
        assert_eq!(rt; held.as_slice(), text.as_bytes(), "{text}");
    }
    Ok(())
}

/// A text that returns 0 in this many brackets.
fn bracketed(alloc: Global, count: usize) -> Result<String, AllocError> {
    let mut text = "int main(void){return ".to_string(alloc)?;
    for _ in 0..count {
        text.push('(')?;
    }
    text.push('0')?;
    for _ in 0..count {
        text.push(')')?;
    }
    text.push_str(";}")?;
    Ok(text)
}

#[test]
fn tokens_that_do_not_fit_are_told(rt: HostRuntime) -> Result<(), Fail> {
    let alloc = rt.alloc();
    let nested = bracketed(alloc, 100)?;
    // Worked out by hand: a text, and the line that tells its first token that doesn't fit.
    let texts = [
        (
            "int main(void){return 0}",
            "a.c:1:24: not in the subset: Syntax\n",
        ),
        (
            "intmain(void){return 0;}",
            "a.c:1:1: not in the subset: Syntax\n",
        ),
        // The end of the text.
        (
            "int main(void){return 0;} int",
            "a.c:1:30: not in the subset: Syntax\n",
        ),
        (
            "int x;\n# 7 \"b.c\"\n int 0;",
            "b.c:7:6: not in the subset: Syntax\n",
        ),
        (nested.as_str(), "a.c:1:122: not in the subset: Nested\n"),
    ];
    for (text, line) in texts {
        let (ended, taken, held) = decided(alloc, text)?;
        assert_eq!(rt; ended, Status::Text, "{text}");
        assert_eq!(rt; taken.as_slice(), line.as_bytes(), "{text}");
        assert_eq!(rt; held.as_slice(), text.as_bytes(), "{text}");
    }
    assert_eq!(rt;
        decided(alloc, bracketed(alloc, 99)?.as_str())?.0,
        Status::NotYet
    );
    Ok(())
}

/// The status and what was put, over a shelf that holds the text and fails at some calls, and a sink with this much room
/// that takes this much at once and fails at some puts; and whether the shelf holds the text still.
fn faults(
    alloc: Global,
    text: &str,
    failing_call: u64,
    room: usize,
    most: usize,
    failing_put: u64,
) -> Result<(Status, Vec<u8>, bool), Fail> {
    let words = certify(alloc, "a.c")?;
    let mut shelf = MemShelf::new(alloc);
    shelf.set("a.c", text.as_bytes())?;
    shelf.fail(failing_call, 0)?;
    let mut out = MemSink::new(alloc, room, most)?;
    out.fail(failing_put)?;
    let status = run(alloc, &words, &mut shelf, &mut out);
    let unchanged = match shelf.contents("a.c") {
        Some(held) => held == text.as_bytes(),
        None => false,
    };
    Ok((status, out.taken().to_vec(alloc)?, unchanged))
}

#[test]
fn devices_fail(rt: HostRuntime) -> Result<(), Fail> {
    let alloc = rt.alloc();
    let syntax = "int main(void){return 0}";
    let cases: [(&str, u64, usize, usize, u64, Status, &str); 12] = [
        (ABORTS, 0, 100, 100, 0, Status::Yes, FINDINGS),
        (ABORTS, 2, 100, 100, 2, Status::Yes, FINDINGS),
        (ABORTS, 0, 12, 1, 0, Status::Yes, FINDINGS),
        (
            ABORTS,
            1,
            100,
            100,
            0,
            Status::ReadFault,
            "cannot read a.c\n",
        ),
        (ABORTS, 0, 100, 100, 1, Status::WriteFault, ""),
        (ABORTS, 0, 100, 1, 2, Status::WriteFault, "f"),
        (ABORTS, 0, 100, 0, 0, Status::WriteFault, ""),
        (ABORTS, 0, 0, 100, 0, Status::WriteFault, ""),
        (ABORTS, 0, 11, 4, 0, Status::WriteFault, "findings: 0"),
        (syntax, 0, 100, 100, 1, Status::WriteFault, ""),
        (syntax, 0, 100, 4, 2, Status::WriteFault, "a.c:"),
        (
            syntax,
            0,
            35,
            100,
            0,
            Status::WriteFault,
            "a.c:1:24: not in the subset: Syntax",
        ),
    ];
    for (text, failing_call, room, most, failing_put, status, put) in cases {
        let (ended, taken, unchanged) = faults(alloc, text, failing_call, room, most, failing_put)?;
        assert_eq!(rt;
            ended,
            status,
            "{text} {failing_call} {room} {most} {failing_put}"
        );
        assert!(rt;
            unchanged,
            "{text} {failing_call} {room} {most} {failing_put}"
        );
        assert_eq!(rt;
            taken.as_slice(),
            put.as_bytes(),
            "{text} {failing_call} {room} {most} {failing_put}"
        );
    }
    Ok(())
}

const USAGE: &str =
    "usage: asafe certify FILE [--rules R] [--depth D] [--cert OUT] [--json] | check FILE CERT [--rules R] | show FILE | table | gen N\n";

/// Whether the words, which blanks part, are answered this status over a shelf that holds a text under a.c, and print this.
fn answers(alloc: Global, line: &str, status: Status, printed: &str) -> Result<bool, Fail> {
    let mut words = Vec::new(alloc);
    for word in line.split(' ') {
        words.push(word.to_string(alloc)?)?;
    }
    let mut shelf = MemShelf::new(alloc);
    shelf.set("a.c", ABORTS.as_bytes())?;
    let mut out = MemSink::new(alloc, 200, 100)?;
    let ended = run(alloc, &words, &mut shelf, &mut out);
    Ok(ended == status && out.taken() == printed.as_bytes() && shelf.failed_reads() == 0)
}

#[test]
fn words_of_jobs(rt: HostRuntime) -> Result<(), Fail> {
    // Of each job, and of each option in both its forms.
    let lines = [
        ("certify a.c", Status::Yes, FINDINGS),
        ("certify a.c --rules strict", Status::Yes, FINDINGS),
        ("--depth=1 certify a.c --rules=later", Status::Yes, FINDINGS),
        (
            "certify a.c --json",
            Status::Yes,
            "{\"count\":0,\"findings\":[]}\n",
        ),
        ("certify -- a.c", Status::Yes, FINDINGS),
        ("certify b.c", Status::ReadFault, "cannot read b.c\n"),
        ("certify ", Status::ReadFault, "cannot read \n"),
        ("certify a.c --cert c.cert", Status::NotYet, ""),
        ("certify b.c --cert c.cert", Status::NotYet, ""),
        ("check a.c c.cert", Status::NotYet, ""),
        ("show a.c", Status::NotYet, ""),
        ("gen 0", Status::NotYet, ""),
        ("gen 2000", Status::NotYet, ""),
    ];
    for (line, status, printed) in lines {
        assert!(rt; answers(rt.alloc(), line, status, printed)?, "{line}");
    }
    Ok(())
}

#[test]
fn words_of_no_job(rt: HostRuntime) -> Result<(), Fail> {
    let lines = [
        "",
        "certify",
        "certify --",
        "certify a.c b.c",
        "certify a.c b.c c.c",
        "check a.c",
        "lint a.c",
        "table a.c",
        "show a.c --json",
        "show a.c --rules usual",
        "gen 1 --depth 1",
        "check a.c c.cert --json",
        "certify a.c --json --json",
        "certify a.c --depth 1 --depth 1",
        "certify a.c --depth",
        "certify a.c --depth 3",
        "certify a.c --rules lax",
        "certify a.c --rules ",
        "certify a.c --json=1",
        "certify a.c --jsn",
        "certify a.c -j",
        "gen",
        "gen 2001",
        "gen 01",
        "gen -1",
        "gen +1",
        "gen 123456789012345678901234567890",
        "--help",
        "-h",
        "--version",
        "help",
        "--",
    ];
    for line in lines {
        assert!(rt; answers(rt.alloc(), line, Status::Usage, USAGE)?, "{line}");
    }
    Ok(())
}

#[test]
fn table_is_listed(rt: HostRuntime) -> Result<(), Fail> {
    let mut words = Vec::new(rt.alloc());
    words.push("table".to_string(rt.alloc())?)?;
    let mut shelf = MemShelf::new(rt.alloc());
    let mut out = MemSink::new(rt.alloc(), 100_000, 1_000)?;
    assert_eq!(rt; run(rt.alloc(), &words, &mut shelf, &mut out), Status::Yes);
    assert!(rt; out.taken().starts_with(b"WEXITSTATUS safe (i) i pure\n"));
    Ok(())
}

/// The status of the smallest program with blanks behind it, so that it has this many bytes, and what a sink takes that has
/// this much room.
fn sized(alloc: Global, size: usize, room: usize) -> Result<(Status, Vec<u8>), Fail> {
    let words = certify(alloc, "a.c")?;
    let mut text = b"int main(void){return 0;}".to_vec(alloc)?;
    text.resize(size, b' ')?;
    let mut shelf = MemShelf::new(alloc);
    shelf.set("a.c", &text)?;
    let mut out = MemSink::new(alloc, room, 100)?;
    let status = run(alloc, &words, &mut shelf, &mut out);
    Ok((status, out.taken().to_vec(alloc)?))
}

#[test]
fn sizes_are_limited(rt: HostRuntime) -> Result<(), Fail> {
    let (status, taken) = sized(rt.alloc(), 1_048_576, 100)?;
    assert_eq!(rt; status, Status::Yes);
    assert_eq!(rt; taken.as_slice(), FINDINGS.as_bytes());
    let (status, taken) = sized(rt.alloc(), 1_048_577, 100)?;
    assert_eq!(rt; status, Status::TooLarge);
    assert_eq!(rt; taken.as_slice(), "a.c: too large\n".as_bytes());
    let (status, taken) = sized(rt.alloc(), 1_048_577, 8)?;
    assert_eq!(rt; status, Status::WriteFault);
    assert_eq!(rt; taken.as_slice(), "a.c: too".as_bytes());
    Ok(())
}
