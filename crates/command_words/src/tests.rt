//! What lines of words ask.

use super::*;
use std::alloc::Global;
use std::test::Fail;

fn split(alloc: Global, line: &str) -> Result<Vec<String>, Fail> {
    let mut words = Vec::new(alloc);
    for word in line.split(' ') {
        words.push(String::from_str(alloc, word)?)?;
    }
    Ok(words)
}

// The command with all that it is given.
fn told(alloc: Global, line: &str) -> Result<String, Fail> {
    let words = split(alloc, line)?;
    match understand(&words) {
        None => Ok(String::from_str(alloc, "usage")?),
        Some(Command::Run(directory)) => Ok(format!(in alloc; "run {directory}")?),
        Some(Command::Check(directory)) => Ok(format!(in alloc; "check {directory}")?),
        Some(Command::Init(init)) => told_init(alloc, &init),
    }
}

fn told_init(alloc: Global, init: &Init<'_>) -> Result<String, Fail> {
    let (directory, save_at, merge_at) = (init.directory, init.save_at, init.merge_at);
    let mut told = format!(in alloc; "init {directory} {save_at} {merge_at}")?;
    for range in init.ranges.as_slice() {
        let (name, kind) = (range.name, range.kind);
        told.push_str(&format!(in alloc; " {name} {kind:?}")?)?;
    }
    Ok(told)
}

#[test]
fn lines_ask_what_they_say(rt: HostRuntime) -> Result<(), Fail> {
    let rows = [
        ("init d", "init d 10000 8"),
        (
            "init d --save-at=5 --range a:b:decimal",
            "init d 5 8 a:b Decimal",
        ),
        (
            "init --merge-at 64 d --save-at 1000000",
            "init d 1000000 64",
        ),
        (
            "init d --range a:string --range=-a:decimal",
            "init d 10000 8 a Text -a Decimal",
        ),
        ("init -- -d", "init -d 10000 8"),
        ("init --save-at 1 -- --", "init -- 1 8"),
        ("run d", "run d"),
        ("run d --", "run d"),
        ("check -- -", "check -"),
        ("init d --save-at 05", "usage"),
        ("init d --save-at +5", "usage"),
        ("init d --save-at 0", "usage"),
        ("init d --save-at 1000001", "usage"),
        ("init d --save-at=", "usage"),
        ("init d --save-at --", "usage"),
        ("init d --save-at", "usage"),
        ("init d --save 5", "usage"),
        ("init d --merge-at 1", "usage"),
        ("init d --merge-at 2 --merge-at 3", "usage"),
        ("init d --range :decimal", "usage"),
        ("init d --range a:b", "usage"),
        ("init d --range decimal", "usage"),
        ("init d --range a:string --range a:string", "usage"),
        ("init --save-at 5", "usage"),
        ("init d -x", "usage"),
        ("init d e", "usage"),
        ("run -d", "usage"),
        ("run d c c", "usage"),
        ("run d --save-at 5", "usage"),
        ("check", "usage"),
        ("check -", "usage"),
        ("checks d", "usage"),
        ("", "usage"),
    ];
    for (line, asked) in rows {
        assert_eq!(rt; told(rt.alloc(), line)?.as_str(), asked, "at {line}");
    }
    Ok(())
}
