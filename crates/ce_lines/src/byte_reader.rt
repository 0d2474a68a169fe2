// A source, a byte at a time.
ghost use Rattle.std.specs.Prelude.{◌≡◌, ◌≤◌, ◌<◌, ◌+◌, ◌^◌, [], ◌∷◌, length, IfOk, Ok, Err};
ghost use Rattle.std.specs.Result.{IfErr};
ghost use Rattle.std.specs.Io.KnownBytes.{Consumes, IsAtEnd};
ghost use Rattle.ce_port.specs.Sink.{Rose};
ghost use Rattle.ce_port.specs.Source.{given_by, GivesWithin};

use ce_port::{ReadStep, Source};

// The greatest length of an input.
const LIMIT: usize = 1048576;

const PIECE: usize = 512;

/// Why no byte comes.
#[derive(Clone, Copy, Debug, PartialEq, Eq, Drop)]
pub enum Stop {
    /// The source is at its end.
    End,
    /// The source gave a byte more than the limit.
    TooLong,
    /// A read failed.
    Failed,
}

// Reads at most so many bytes to the front of a buffer.
fn read_front<S: Source>(source: &mut S, buffer: &mut [u8], room: usize) -> ReadStep
    requires some { 0 < room }
    requires room { room ≤ length buffer.old }
    ensures within { GivesWithin result room }
    ensures bytes { Consumes (S.left source.old) (S.left source.new) (given_by result buffer.new) }
    ensures len { length buffer.new ≡ length buffer.old }
    ensures end { result ≡ ReadStep.End → IsAtEnd (S.left source.new) }
    ensures counted { S.faults source.old ≤ S.faults source.new }
    ensures failed { result ≡ ReadStep.Failed → Rose (S.faults source.old) (S.faults source.new) }
{
    source.read(&mut buffer[..room])
}

/// Gives the bytes of a source one at a time, and no byte that stands after the limit.
#[derive(Drop)]
pub struct ByteReader<S> {
    source: S,
    buffer: [u8; 512],
    from: usize,
    to: usize,
    given: usize,
}

impl<S: Source> ByteReader<S> {
    ghost use Rattle.ce_lines.specs.Bytes.{IsReader, ahead, unread, room_left, IsNew, WasGiven};

    /// No byte was read yet.
    pub fn new(source: S) -> ByteReader<S>
        ensures new { IsNew source result }
    {
        ByteReader {
            source,
            buffer: [0; 512],
            from: 0,
            to: 0,
            given: 0,
        }
    }

    // Fills the buffer, which is empty. At the limit one byte is asked for, which tells whether
    // there are more.
    fn fill(&mut self) -> Result<(), Stop>
        requires reader { IsReader self.old }
        requires within { self.old.given ≤ 2 ^ 20 }
        requires empty { self.old.from ≡ self.old.to }
        ensures reader { IsReader self.new }
        ensures keeps { Consumes (unread S.left self.old) (unread S.left self.new) [] }
        ensures gave { WasGiven S.left self.old self.new }
        ensures some { IfOk result
            (λ _. (self.new.from < self.new.to) × (self.new.given ≤ 2 ^ 20)) }
        ensures room { room_left self.new ≤ room_left self.old }
        ensures end { result ≡ Err Stop.End → IsAtEnd (unread S.left self.new) }
        ensures drained { result ≡ Err Stop.Failed → ahead self.new ≡ [] }
        ensures long { result ≡ Err Stop.TooLong → self.new.given ≡ 2 ^ 20 + 1 }
        ensures short { (result ≡ Err Stop.TooLong → ⊥) → self.new.given ≤ 2 ^ 20 }
        ensures failed { result ≡ Err Stop.Failed
            → Rose (S.faults self.old.source) (S.faults self.new.source) }
        ensures counted { S.faults self.old.source ≤ S.faults self.new.source }
    {
        let room = (LIMIT - self.given).max(1).min(PIECE);
        match read_front(&mut self.source, &mut self.buffer, room) {
            ReadStep::Bytes(count) => {
                self.from = 0;
                self.to = count;
                self.given += count;
                if self.given > LIMIT {
                    Err(Stop::TooLong)
                } else {
                    Ok(())
                }
            }
            ReadStep::End => Err(Stop::End),
            ReadStep::Failed => Err(Stop::Failed),
        }
    }

    // The first byte ahead.
    fn take(&mut self) -> u8
        requires reader { IsReader self.old }
        requires within { self.old.given ≤ 2 ^ 20 }
        requires some { self.old.from < self.old.to }
        ensures byte { Consumes (unread S.left self.old) (unread S.left self.new) (result ∷ []) }
        ensures source { self.new.source ≡ self.old.source }
        ensures given { self.new.given ≡ self.old.given }
        ensures reader { IsReader self.new }
        ensures room { room_left self.new < room_left self.old }
    {
        let byte = self.buffer[self.from];
        self.from += 1;
        byte
    }

    /// The next byte. Once there were too many, no byte comes.
    pub fn next(&mut self) -> Result<u8, Stop>
        requires reader { IsReader self.old }
        ensures reader { IsReader self.new }
        ensures byte { IfOk result
            (λ x. Consumes (unread S.left self.old) (unread S.left self.new) (x ∷ [])) }
        ensures keeps { IfErr result (λ _. Consumes (unread S.left self.old) (unread S.left self.new) []) }
        ensures gave { WasGiven S.left self.old self.new }
        ensures less { IfOk result (λ _. room_left self.new < room_left self.old) }
        ensures room { room_left self.new ≤ room_left self.old }
        ensures end { result ≡ Err Stop.End → IsAtEnd (unread S.left self.new) }
        ensures drained { result ≡ Err Stop.Failed → ahead self.new ≡ [] }
        ensures long { result ≡ Err Stop.TooLong → self.new.given ≡ 2 ^ 20 + 1 }
        ensures short { (result ≡ Err Stop.TooLong → ⊥) → self.new.given ≤ 2 ^ 20 }
        ensures failed { result ≡ Err Stop.Failed
            → Rose (S.faults self.old.source) (S.faults self.new.source) }
        ensures counted { S.faults self.old.source ≤ S.faults self.new.source }
    {
        if self.given > LIMIT {
            return Err(Stop::TooLong);
        }
        if self.from < self.to {
            return Ok(self.take());
        }
        self.fill()?;
        Ok(self.take())
    }

    /// Hands back the source. What it gave and nobody took is lost.
    pub(crate) fn into_source(self) -> S
        ensures { result ≡ self.source }
    {
        let ByteReader {
            source,
            buffer: _,
            from: _,
            to: _,
            given: _,
        } = self;
        source
    }
}
