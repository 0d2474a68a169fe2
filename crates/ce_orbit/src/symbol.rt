// The symbols of the kneading sequence.
use std::fmt;

/// Where an angle of the orbit lies: in the first closed half-circle alone, in the second alone, or
/// in both, as an end of the critical diameter does. They are written `1`, `0` and `*`.
#[derive(Clone, Copy, Debug, PartialEq, Eq, PartialOrd, Ord)]
pub enum Symbol {
    One,
    Zero,
    Star,
}

impl fmt::Display for Symbol {
    ghost use Rattle.std.specs.Prelude.{Some};
    ghost use Rattle.ce_orbit.specs.Symbols.{symbol_text};

    ghost output = { λ symbol. Some (symbol_text symbol) };

    fn fmt<W: fmt::Write>(&self, f: &mut fmt::Formatter<W>) -> fmt::Result {
        match self {
            Symbol::One => write!(f, "1"),
            Symbol::Zero => write!(f, "0"),
            Symbol::Star => write!(f, "*"),
        }
    }
}
