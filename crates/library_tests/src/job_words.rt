use base_core::Rules;
use command_words::{Depth, Job, asked};
use std::alloc::Global;
use std::test::Fail;

/// Whether the words, with blanks between them, ask for this job.
fn asks(alloc: Global, line: &str, wanted: Option<Job<'_>>) -> Result<bool, Fail> {
    let mut words = Vec::new(alloc);
    for word in line.split(' ') {
        words.push(word.to_string(alloc)?)?;
    }
    match asked(alloc, &words) {
        Ok(job) => Ok(job == wanted),
        Err(_) => Ok(false),
    }
}

fn certify<'a>(
    rules: Rules,
    depth: Depth,
    certificate: Option<&'a str>,
    json: bool,
) -> Option<Job<'a>> {
    Some(Job::Certify {
        file: "a.c",
        rules,
        depth,
        certificate,
        json,
    })
}

#[test]
fn words_ask_for_jobs(rt: HostRuntime) -> Result<(), Fail> {
    let alloc = rt.alloc();
    let plain = certify(Rules::Usual, Depth::Two, None, false);
    let cases = [
        ("certify a.c", plain),
        ("certify a.c --rules usual --depth 2", plain),
        ("--depth=2 certify --rules=usual a.c", plain),
        (
            "certify a.c --rules later --depth 1 --cert c.cert --json",
            certify(Rules::Later, Depth::One, Some("c.cert"), true),
        ),
        (
            "check a.c --rules strict c.cert",
            Some(Job::Check {
                file: "a.c",
                certificate: "c.cert",
                rules: Rules::Strict,
            }),
        ),
        ("show -- -x", Some(Job::Show { file: "-x" })),
        ("table", Some(Job::Table)),
        ("gen 2000", Some(Job::Generate { n: 2000 })),
        ("gen 0", Some(Job::Generate { n: 0 })),
        ("gen 2001", None),
        ("gen 01", None),
        ("gen -1", None),
        ("gen +1", None),
        ("gen 1x", None),
        ("table a.c", None),
        ("certify a.c --json --json", None),
        ("certify a.c b.c", None),
        ("lint a.c", None),
        ("show a.c --json", None),
        ("check a.c c.cert --depth 1", None),
        ("certify a.c --depth 3", None),
        ("certify a.c --rules lax", None),
        ("certify a.c --cert", None),
        ("--help", None),
        ("", None),
    ];
    for (line, wanted) in cases {
        assert!(rt; asks(alloc, line, wanted)?, "{line}");
    }
    Ok(())
}
