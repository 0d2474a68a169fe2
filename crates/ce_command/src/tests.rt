// Words are written here as a line, in which single spaces separate them.
use crate::WordsError::Usage;
use crate::{Command, read_words};
use ce_angle::AngleError::{NotAFraction, NotBelowOne, ZeroDenominator};
use ce_angle::{Angle, AngleError};
use std::alloc::Global;
use std::test::Fail;

// The words of a line; an empty line has none.
fn words_of(alloc: Global, line: &str) -> Result<Vec<String>, Fail> {
    let mut words = Vec::new(alloc);
    if line.is_empty() {
        return Ok(words);
    }
    for word in line.split(' ') {
        words.push(String::from_str(alloc, word)?)?;
    }
    Ok(words)
}

// The command `angle` for 1/4.
fn quarter(rounds: u32, turns: u32, workers: u32, scale: u32) -> Command {
    Command::Angle {
        angle: Angle::new(1, 4),
        rounds,
        turns,
        workers,
        scale,
    }
}

// The command `angle` for what is no angle, at the scale 2^32.
fn flawed(flaw: AngleError, rounds: u32) -> Command {
    Command::Angle {
        angle: Err(flaw),
        rounds,
        turns: 400,
        workers: 2,
        scale: 32,
    }
}

#[test]
fn angles_are_read_with_their_options(rt: HostRuntime) -> Result<(), Fail> {
    let table = [
        ("angle 1/4", quarter(36, 400, 2, 32)),
        ("angle 2/8", quarter(36, 400, 2, 32)),
        ("angle 1/4 --rounds 0", quarter(0, 400, 2, 32)),
        ("angle 1/4 --rounds=2 --turns 0", quarter(2, 0, 2, 32)),
        ("angle 1/4 --turns 100000", quarter(36, 100000, 2, 32)),
        ("angle 1/4 --workers 16", quarter(36, 400, 16, 32)),
        ("angle 1/4 --workers=1 --turns 3", quarter(36, 3, 1, 32)),
        ("angle --rounds 2 1/4", quarter(2, 400, 2, 32)),
        ("angle --rounds 2 -- 1/4", quarter(2, 400, 2, 32)),
        ("angle 1/4 --scale=48", quarter(36, 400, 2, 48)),
        ("angle 1/4 --scale 32", quarter(36, 400, 2, 32)),
        (
            "angle 1/4 --scale 48 --workers 3 --rounds 2 --turns 0",
            quarter(2, 0, 3, 48),
        ),
        ("angle -", flawed(NotAFraction, 36)),
        ("angle -- -1/4", flawed(NotAFraction, 36)),
        ("angle ", flawed(NotAFraction, 36)),
        ("angle 5/4 --rounds 3", flawed(NotBelowOne, 3)),
    ];
    for (line, want) in table {
        let words = words_of(rt.alloc(), line)?;
        assert_eq!(rt; read_words(rt.alloc(), &words), Ok(want), "{line}");
    }
    Ok(())
}

// The command `degree` by two workers at the scale 2^32.
fn degree(degree: u32, angle: Result<Angle, AngleError>, rounds: u32, turns: u32) -> Command {
    Command::Degree {
        degree,
        angle,
        rounds,
        turns,
        workers: 2,
        scale: 32,
    }
}

// The command `show`.
fn shown(angle: Result<Angle, AngleError>) -> Command {
    Command::Show { angle }
}

// The command `replay`.
fn replay(angle: Result<Angle, AngleError>, rounds: u32, scale: u32) -> Command {
    Command::Replay {
        angle,
        rounds,
        scale,
    }
}

// The command `desk`.
fn desk(rounds: u32, workers: u32, scale: u32) -> Command {
    Command::Desk {
        rounds,
        workers,
        scale,
    }
}

// The command `watch` for 1/4 with the usual options but these.
fn watch(sessions: u32, reads: u32) -> Command {
    Command::Watch {
        angle: Angle::new(1, 4),
        rounds: 36,
        turns: 400,
        workers: 2,
        sessions,
        reads,
        scale: 32,
    }
}

#[test]
fn other_commands_are_read_with_their_numbers(rt: HostRuntime) -> Result<(), Fail> {
    let probe = Command::Probe {
        start: 1_000_000_000,
        count: 10_000,
        rounds: 36,
        scale: 48,
    };
    let map = Command::Map {
        order: 128,
        rounds: 36,
        turns: 0,
        workers: 2,
        scale: 32,
    };
    let part = Command::Part {
        order: 128,
        from: 0,
        to: 4_294_967_295,
        rounds: 36,
        turns: 0,
        workers: 2,
        scale: 32,
    };
    let compare = Command::Compare {
        first: Angle::new(1, 4),
        second: Err(NotBelowOne),
        rounds: 0,
        scale: 32,
    };
    let atlas = Command::Atlas {
        order: 128,
        rounds: 36,
        scale: 48,
    };
    let table = [
        ("show 1/4", shown(Angle::new(1, 4))),
        ("show -- 1/4", shown(Angle::new(1, 4))),
        ("show ", shown(Err(NotAFraction))),
        (
            "replay 1/4 --rounds 0 --scale 48",
            replay(Angle::new(1, 4), 0, 48),
        ),
        ("replay --scale=48 -- 1/4", replay(Angle::new(1, 4), 36, 48)),
        ("replay 1/0 --rounds 2", replay(Err(ZeroDenominator), 2, 32)),
        ("degree 3 1/4", degree(3, Angle::new(1, 4), 36, 400)),
        (
            "degree 16 --turns 0 1/4 --rounds=2",
            degree(16, Angle::new(1, 4), 2, 0),
        ),
        ("degree 2 5/4", degree(2, Err(NotBelowOne), 36, 400)),
        ("watch 1/4", watch(1, 10)),
        ("watch 1/4 --reads 1000 --sessions=8", watch(8, 1000)),
        ("check", Command::Check),
        ("upgrade", Command::Upgrade),
        ("probe 1000000000 10000 --scale 48", probe),
        ("map 128 --turns=0", map),
        ("part 128 0 4294967295 --turns 0", part),
        ("merge", Command::Merge),
        ("compare 1/4 5/4 --rounds 0", compare),
        ("atlas 128 --scale 48", atlas),
        ("desk", desk(36, 2, 32)),
        ("desk --workers 16 --scale=48 --rounds 0", desk(0, 16, 48)),
    ];
    for (line, want) in table {
        let words = words_of(rt.alloc(), line)?;
        assert_eq!(rt; read_words(rt.alloc(), &words), Ok(want), "{line}");
    }
    Ok(())
}

#[test]
fn words_without_a_command_are_usage(rt: HostRuntime) -> Result<(), Fail> {
    let table = [
        "",
        "angel 1/4",
        "angle",
        "help",
        "--help",
        "-h",
        "--version",
        "angle --help",
        "angle -h",
        "angle 1/4 --help",
        "show --help",
        "angle -1/4",
        "angle 1/4 1/5",
        "show 1/4 --rounds 1",
        "angle 1/4 --rounds 37",
        "angle 1/4 --rounds 05",
        "angle 1/4 --rounds -1",
        "angle 1/4 --rounds",
        "angle 1/4 --round 2",
        "angle 1/4 --scale 40",
        "angle 1/4 --turns 100001",
        "angle 1/4 --turns 0 --turns 0",
        "angle 1/4 --workers 0",
        "angle 1/4 --workers 17",
        "show 1/4 --workers 1",
        "angle 1/4 --rounds 00000000002",
        "angle 1/4 --rounds 4294967298",
        "angle 1/4 --rounds=",
        "angle 5/4 --rounds 37",
        "replay",
        "replay 1/4 --scale 40",
        "replay 1/4 --rounds 37",
        "replay 1/4 --turns 0",
        "degree 3",
        "degree 1/4 3",
        "degree 1 1/4",
        "degree 17 1/4",
        "degree 17 5/4",
        "check x",
        "upgrade --scale 32",
        "part 4 0",
        "part 129 0 1",
        "part 4 0 4294967296",
        "merge x",
        "compare 1/4",
        "compare 1/4 1/5 --turns 0",
        "atlas 0",
        "atlas 3 --turns 0",
        "probe 1",
        "probe 1 0",
        "probe 01 1",
        "probe 1000000001 1",
        "probe 1 10001",
        "map",
        "map 0",
        "map 129",
        "map 04",
        "map 4 4",
        "map 2 --sessions 1",
        "watch",
        "watch 1/4 1/5",
        "watch 1/4 --reads 0",
        "watch 1/4 --reads 1001",
        "watch 1/4 --sessions 0",
        "watch 1/4 --sessions 9",
        "desk 1/4",
        "desk --turns 0",
        "desk --workers 17",
    ];
    for line in table {
        let words = words_of(rt.alloc(), line)?;
        assert_eq!(rt; read_words(rt.alloc(), &words), Err(Usage), "{line}");
    }
    Ok(())
}
