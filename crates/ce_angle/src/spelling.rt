// How an angle is spelled.
use crate::Angle;
use std::fmt;

impl fmt::Display for Angle {
    ghost use Rattle.std.specs.Prelude.{Some};
    ghost use Rattle.ce_angle.specs.Spelled.{fraction_text};

    ghost output = { λ angle. Some (fraction_text angle) };

    fn fmt<W: fmt::Write>(&self, f: &mut fmt::Formatter<W>) -> fmt::Result {
        let num = self.num();
        let den = self.den();
        write!(f, "{num}/{den}")
    }
}
