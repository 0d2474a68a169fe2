// What lines ask, over a source in memory.
ghost use Rattle.std.specs.Prelude.{◌≤◌};

use crate::asked::Asked;
use crate::byte_reader::Stop;
use crate::line_reader::LineReader;
use ce_angle::{Angle, AngleError};
use ce_port::MemSource;
use std::process::Abort;
use std::test::Fail;

// What the only line of an input asks, given in pieces of so many bytes, and that nothing follows
// it.
fn expect_asked(
    rt: &(impl Abort + AllocGlobal),
    piece: usize,
    input: &[u8],
    want: Option<Asked>,
) -> Result<(), Fail>
    requires { 1 ≤ piece }
{
    let bytes = Vec::from_slice(rt.alloc(), input)?;
    let source = MemSource::new(bytes, piece, Vec::new(rt.alloc()));
    let mut reader = LineReader::new(source);
    assert_eq!(rt; reader.next_asked(), Ok(want));
    assert_eq!(rt; reader.next_asked(), Err(Stop::End));
    Ok(())
}

// A line that opens 1/4 with so many turns.
fn expect_opened(
    rt: &(impl Abort + AllocGlobal),
    piece: usize,
    input: &[u8],
    turns: u32,
) -> Result<(), Fail>
    requires { 1 ≤ piece }
{
    let angle = Angle::new(1, 4);
    expect_asked(rt, piece, input, Some(Asked::Open { angle, turns }))
}

#[test]
fn lines_ask_what_they_spell(rt: HostRuntime) -> Result<(), Fail> {
    expect_asked(&rt, 1, b"quit\n", Some(Asked::Quit))?;
    expect_asked(&rt, 512, b"quit\n", Some(Asked::Quit))?;
    expect_asked(&rt, 7, b"read 0\n", Some(Asked::Read { slot: 0 }))?;
    expect_asked(
        &rt,
        7,
        b"read 4294967296\n",
        Some(Asked::Read { slot: 4294967295 }),
    )?;
    expect_opened(&rt, 1, b"open 1/4 0\n", 0)?;
    expect_opened(&rt, 7, b"open 1/4 100000\n", 100_000)?;
    let angle = Err(AngleError::NotAFraction);
    expect_asked(&rt, 7, b"open x 1\n", Some(Asked::Open { angle, turns: 1 }))
}

#[test]
fn other_lines_ask_nothing(rt: HostRuntime) -> Result<(), Fail> {
    let table = [
        "\n",
        " \n",
        "quit",
        "quit \n",
        "Quit\n",
        "quit\r\n",
        "read\n",
        "read \n",
        "read 01\n",
        "read 1 \n",
        "read -1\n",
        "open\n",
        "open 1/4\n",
        "open 1/4 \n",
        "open  1\n",
        "open 1/4 01\n",
        "open 1/4 100001\n",
        "open 1/4 2 3\n",
        "open 1/4 2",
    ];
    for line in table {
        expect_asked(&rt, 1, line.as_bytes(), None)?;
        expect_asked(&rt, 512, line.as_bytes(), None)?;
    }
    Ok(())
}

#[test]
fn a_line_has_at_most_64_bytes(rt: HostRuntime) -> Result<(), Fail> {
    let longest = "read 1000000000000000000000000000000000000000000000000000000000\n";
    let longer = "read 10000000000000000000000000000000000000000000000000000000000\n";
    let most = Some(Asked::Read { slot: 4294967295 });
    expect_asked(&rt, 7, longest.as_bytes(), most)?;
    expect_asked(&rt, 7, longer.as_bytes(), None)
}
