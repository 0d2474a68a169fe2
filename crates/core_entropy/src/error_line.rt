// The error line of a status, made without taking memory.
ghost use Rattle.std.specs.Prelude.{◌≡◌, ◌≤◌, ◌+◌, ◌++◌, length, take};
ghost use Rattle.core_entropy.specs.Status.{error_line};
ghost use Rattle.core_entropy.specs.ErrorLineInside.{line_len, shown};

use crate::status::Status;
use ce_angle::AngleError;
use itoa::Buffer;

const ROOM: usize = 64;

/// The bytes of an error line, on the stack.
#[derive(Drop)]
pub struct ErrorLine {
    bytes: [u8; ROOM],
    len: usize,
}

impl ErrorLine {
    /// The line of a status; where a whole text was written it is empty.
    pub fn of(status: Status) -> ErrorLine
        ensures text { shown result ≡ error_line status }
        ensures room { line_len result ≤ 64 }
    {
        let mut line = ErrorLine {
            bytes: [0; ROOM],
            len: 0,
        };
        match status {
            Status::Done | Status::Refused => {}
            Status::Usage => line.put(b"error: usage\n"),
            Status::Angle(AngleError::NotAFraction) => line.put(b"error: NotAFraction\n"),
            Status::Angle(AngleError::ZeroDenominator) => line.put(b"error: ZeroDenominator\n"),
            Status::Angle(AngleError::NotBelowOne) => line.put(b"error: NotBelowOne\n"),
            Status::Angle(AngleError::DenominatorTooLarge) => {
                line.put(b"error: DenominatorTooLarge\n")
            }
            Status::OrbitTooLong => line.put(b"error: OrbitTooLong\n"),
            Status::BadEvent { line: number } => {
                line.put(b"error: BadEvent line ");
                let mut buffer = Buffer::new();
                line.put(buffer.format(number).as_bytes());
                line.put(b"\n");
            }
            Status::InputTooLong => line.put(b"error: InputTooLong\n"),
            Status::ReadFault => line.put(b"error: read fault\n"),
            Status::WriteFault => line.put(b"error: write fault\n"),
            Status::NoMemory => line.put(b"error: no memory\n"),
        }
        line
    }

    /// The bytes of the line.
    pub fn as_slice(&self) -> &[u8]
        requires { line_len self.now ≤ 64 }
        ensures { result.now ≡ shown self.now }
    {
        &self.bytes[..self.len]
    }

    // Adds a piece at the end.
    fn put(&mut self, piece: &[u8])
        requires { self.old.len + length piece.now ≤ 64 }
        ensures bytes { take self.new.len self.new.bytes
            ≡ take self.old.len self.old.bytes ++ piece.now }
        ensures len { self.new.len ≡ self.old.len + length piece.now }
    {
        let end = self.len + piece.len();
        self.bytes[self.len..end].copy_from_slice(piece);
        self.len = end;
    }
}
