// The lines of a source, one after the other, from at most 2^20 bytes, and what each asks of a
// desk.
#![tactic(auto)]

mod asked;
mod byte_reader;
mod line_reader;
#[cfg(test)]
mod tests;

pub use asked::Asked;
pub use byte_reader::{ByteReader, Stop};
pub use line_reader::LineReader;
