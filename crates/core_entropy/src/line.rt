// How the line of an angle is spelled.
ghost use Rattle.std.specs.Prelude.{◌≡◌, ◌++◌, OnOk, string_bytes};
ghost use Rattle.core_entropy.specs.Angle.{line_of};

use ce_angle::Angle;
use ce_rows::{Interval, NoMemory, Scale};

/// Appends the line of an angle with its interval: `angle P/Q low L high H`, and at the scale 2^48
/// `angle P/Q scale 48 low L high H`.
pub fn append_line(
    text: &mut String,
    angle: Angle,
    scale: Scale,
    interval: Interval,
) -> Result<(), NoMemory>
    ensures { OnOk result
        (string_bytes text.new ≡ string_bytes text.old ++ line_of angle scale interval) }
{
    let exponent = scale.exponent();
    if exponent == 32 {
        write!(text, "angle {angle} {interval}\n")?;
    } else {
        write!(text, "angle {angle} scale {exponent} {interval}\n")?;
    }
    Ok(())
}
