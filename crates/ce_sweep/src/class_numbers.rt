// Classes of angles with one kneading sequence.
ghost use Rattle.std.specs.Prelude.{◌≡◌, ◌<◌, ◌^◌, length, IfOk, OnOk, All};
ghost use Rattle.std.specs.List.{Any};
ghost use Rattle.ce_orbit.specs.Orbit.{HasOrbitAbove, HasOrbitWithin};
ghost use Rattle.ce_sweep.specs.Classes.{AreClasses};
ghost use Rattle.ce_orbit.specs.Iterates.{most_places};

use crate::Classes;
use crate::kneading_keys::keys_of;
use crate::numbering::number_keys;
use ce_angle::Angle;
use ce_solve::SolveError;
use std::alloc::Global;

/// The classes of a list of angles.
pub fn classes(alloc: Global, angles: &[Angle]) -> Result<Classes, SolveError>
    requires { length angles.now < 2 ^ 32 }
    ensures classes { IfOk result (λ c. AreClasses angles.now c.of.items c.first.items) }
    ensures long { result ≡ Err SolveError.OrbitTooLong → Any (HasOrbitAbove most_places) angles.now }
    ensures short { OnOk result (All (HasOrbitWithin most_places) angles.now) }
{
    let keys = keys_of(alloc, angles)?;
    match number_keys(alloc, &keys) {
        Ok(classes) => Ok(classes),
        Err(_) => Err(SolveError::NoMemory),
    }
}
