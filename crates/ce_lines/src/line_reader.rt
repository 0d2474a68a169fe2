// A source, a line at a time.
ghost use Rattle.std.specs.Prelude.{◌≡◌, ◌≤◌, ◌<◌, ◌+◌, ◌^◌, ℕ, List, [], take, length, min};
ghost use Rattle.std.specs.Prelude.{slice_set, Option, IfOk, Ok, Err, Some, None};
ghost use Rattle.std.specs.Result.{IfErr};
ghost use Rattle.std.specs.Io.KnownBytes.{Consumes, IsAtEnd};
ghost use Rattle.ce_port.specs.Sink.{Rose};
ghost use Rattle.ce_lines.specs.Bytes.{IsReader, ahead, unread, room_left, WasGiven};
ghost use Rattle.ce_lines.specs.Asks.{IsAsked};
ghost use Rattle.ce_lines.specs.Lines.{TookLine, TookFormless, TookOne, TookPart};

use crate::asked::{Asked, asked_of};
use crate::byte_reader::{ByteReader, Stop};
use ce_port::Source;

// The greatest length of a line without its line feed.
const MOST: usize = 63;

// Puts a byte behind so many, where there is room, and says how many there are; 64 stands for all
// greater lengths.
fn put(line: &mut [u8], len: usize, byte: u8) -> usize
    requires room { length line.old ≡ 63 }
    requires few { len ≤ 64 }
    ensures count { result ≡ min (len + 1) 64 }
    ensures short { len < 63 → line.new ≡ slice_set line.old len byte }
    ensures long { 63 ≤ len → line.new ≡ line.old }
{
    if len < MOST {
        line[len] = byte;
    }
    (len + 1).min(MOST + 1)
}

/// Gives the lines of a source one after the other.
#[derive(Drop)]
pub struct LineReader<S> {
    bytes: ByteReader<S>,
    line: [u8; 63],
}

impl<S: Source> LineReader<S> {
    ghost use Rattle.ce_lines.specs.Bytes.{IsNew};

    /// No line was read yet.
    pub fn new(source: S) -> LineReader<S>
        ensures new { IsNew source result.bytes }
    {
        LineReader {
            bytes: ByteReader::new(source),
            line: [0; 63],
        }
    }

    /// The length of the next line, which then stands at the front of `line`; nothing where it has
    /// more than 64 bytes with its line feed, or where it has no line feed.
    pub fn next_line(&mut self) -> Result<Option<usize>, Stop>
        requires reader { IsReader self.old.bytes }
        ensures reader { IsReader self.new.bytes }
        ensures line { (len : ℕ) → result ≡ Ok (Some len) → (len ≤ 63)
            × TookLine (unread S.left self.old.bytes) (unread S.left self.new.bytes)
            (take len self.new.line) }
        ensures formless { result ≡ Ok None
            → TookFormless (unread S.left self.old.bytes) (unread S.left self.new.bytes) }
        ensures part { IfErr result
            (λ _. TookPart (unread S.left self.old.bytes) (unread S.left self.new.bytes)) }
        ensures end { result ≡ Err Stop.End → IsAtEnd (unread S.left self.new.bytes)
            × Consumes (unread S.left self.old.bytes) (unread S.left self.new.bytes) [] }
        ensures drained { result ≡ Err Stop.Failed → ahead self.new.bytes ≡ [] }
        ensures room { IfOk result (λ _. room_left self.new.bytes < room_left self.old.bytes) }
        ensures most { room_left self.new.bytes ≤ room_left self.old.bytes }
        ensures failed { result ≡ Err Stop.Failed
            → Rose (S.faults self.old.bytes.source) (S.faults self.new.bytes.source) }
        ensures counted { S.faults self.old.bytes.source ≤ S.faults self.new.bytes.source }
        ensures gave { WasGiven S.left self.old.bytes self.new.bytes }
        ensures long { result ≡ Err Stop.TooLong → self.new.bytes.given ≡ 2 ^ 20 + 1 }
        ensures short { (result ≡ Err Stop.TooLong → ⊥) → self.new.bytes.given ≤ 2 ^ 20 }
    {
        // How many bytes were taken; 64 stands for all greater lengths.
        let mut len = 0;
        loop {
            match self.bytes.next() {
                Ok(b'\n') if len <= MOST => return Ok(Some(len)),
                Ok(b'\n') => return Ok(None),
                Ok(byte) => len = put(&mut self.line, len, byte),
                Err(Stop::End) if 0 < len => return Ok(None),
                Err(stop) => return Err(stop),
            }
        }
    }

    /// What the next line asks, nothing where it asks none of the three.
    pub fn next_asked(&mut self) -> Result<Option<Asked>, Stop>
        requires reader { IsReader self.old.bytes }
        ensures reader { IsReader self.new.bytes }
        ensures asked { IfOk result (λ asked. (line : Option (List ℕ)) × IsAsked line asked
            × TookOne (unread S.left self.old.bytes) (unread S.left self.new.bytes) line) }
        ensures part { IfErr result
            (λ _. TookPart (unread S.left self.old.bytes) (unread S.left self.new.bytes)) }
        ensures end { result ≡ Err Stop.End → IsAtEnd (unread S.left self.new.bytes)
            × Consumes (unread S.left self.old.bytes) (unread S.left self.new.bytes) [] }
        ensures drained { result ≡ Err Stop.Failed → ahead self.new.bytes ≡ [] }
        ensures room { IfOk result (λ _. room_left self.new.bytes < room_left self.old.bytes) }
        ensures most { room_left self.new.bytes ≤ room_left self.old.bytes }
        ensures failed { result ≡ Err Stop.Failed
            → Rose (S.faults self.old.bytes.source) (S.faults self.new.bytes.source) }
        ensures counted { S.faults self.old.bytes.source ≤ S.faults self.new.bytes.source }
        ensures gave { WasGiven S.left self.old.bytes self.new.bytes }
        ensures long { result ≡ Err Stop.TooLong → self.new.bytes.given ≡ 2 ^ 20 + 1 }
        ensures short { (result ≡ Err Stop.TooLong → ⊥) → self.new.bytes.given ≤ 2 ^ 20 }
    {
        let Some(len) = self.next_line()? else {
            return Ok(None);
        };
        Ok(asked_of(&self.line[..len]))
    }

    /// Hands back the source. What it gave and nobody took is lost.
    pub fn into_source(self) -> S
        ensures { result ≡ self.bytes.source }
    {
        self.bytes.into_source()
    }
}
