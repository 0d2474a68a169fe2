// What is true of every orbit under multiplication by a degree. Each law stands on a function that
// does nothing.
ghost use Rattle.std.specs.Prelude.{◌≡◌, ◌≤◌, ◌<◌, ◌↔◌, ◌⊎◌, ℕ, All, Contains, length};
ghost use Rattle.std.specs.List.{AllPairs};
ghost use Rattle.ce_angle.specs.Fraction.{Fraction, IsAngle};
ghost use Rattle.ce_orbit.specs.Halves.{is_separated};
ghost use Rattle.ce_orbit.specs.Orbit.{ForwardOrbit, IsForwardOrbit};
ghost use Rattle.ce_rows.specs.Rows.{AreRows};
ghost use Rattle.ce_thurston.specs.Indices.{rows_of_orbit};
ghost use Rattle.ce_thurston.specs.Pairs.{pair_walks};
ghost use Rattle.ce_thurston.specs.Portrait.{pairs_on, walks_on, AreDifferent, IsPairOn, HasPairsForImagesOn};
ghost use Rattle.ce_thurston.specs.PortraitRows.{rows_on};
ghost use Rattle.ce_degree.specs.Degree.{is_apart, IsDegree};
ghost use Rattle.ce_degree.specs.DegreeOrbit.{portrait_of, OrbitOfDegree, IsOrbitOfDegree};
ghost use Rattle.ce_degree.specs.DegreeOrbit.{HasOrbitAbove, HasOrbitWithin};
ghost use Rattle.ce_orbit.specs.Iterates.{most_places};

/// Each image of a pair of an orbit is a pair of it.
pub fn degree_images_are_pairs()
    ensures { (o : OrbitOfDegree) → IsOrbitOfDegree o → HasPairsForImagesOn (portrait_of o) }
{}

/// The list of the pairs of an orbit has its pairs alone, each of them in one order or the other,
/// and none twice.
pub fn degree_pairs_are_listed()
    ensures pairs { (o : OrbitOfDegree) → IsOrbitOfDegree o
        → All (IsPairOn (portrait_of o)) (pairs_on (portrait_of o)) }
    ensures listed { (o : OrbitOfDegree) (x y : ℕ) → IsOrbitOfDegree o → IsPairOn (portrait_of o) (x, y)
        → Contains (pairs_on (portrait_of o)) (x, y) ⊎ Contains (pairs_on (portrait_of o)) (y, x) }
    ensures once { (o : OrbitOfDegree) → IsOrbitOfDegree o → AllPairs AreDifferent (pairs_on (portrait_of o)) }
{}

/// The rows of an orbit of at most 128 angles are rows in range.
pub fn degree_rows_are_in_range()
    ensures { (o : OrbitOfDegree) → IsOrbitOfDegree o → length o.places ≤ most_places
        → AreRows (rows_on (portrait_of o)) }
{}

/// An angle has an orbit under multiplication by a degree, with at most as many angles as its
/// denominator says; and whatever the number, it has at most so many angles, or more.
pub fn degree_orbits_exist()
    ensures exist { (d : ℕ) (angle : Fraction) → IsDegree d → IsAngle angle → HasOrbitWithin angle.den d angle }
    ensures either { (d count : ℕ) (angle : Fraction) → IsDegree d → IsAngle angle
        → HasOrbitWithin count d angle ⊎ HasOrbitAbove count d angle }
{}

/// An angle has at most one orbit under multiplication by a degree, and it has more than so many
/// places exactly where as many numerators and one more are all different.
pub fn degree_orbits_are_unique()
    ensures unique { (o r : OrbitOfDegree) → IsOrbitOfDegree o → IsOrbitOfDegree r
        → o.degree ≡ r.degree → o.angle ≡ r.angle → o ≡ r }
    ensures long { (o : OrbitOfDegree) (n : ℕ) → IsOrbitOfDegree o
        → HasOrbitAbove n o.degree o.angle ↔ (n < length o.places) }
{}

/// Degree 2 is angle doubling: the two preimages of the angle are the ends of its critical
/// diameter, and pairs, walks and rows are those of the forward orbit.
pub fn degree_two_is_doubling()
    ensures separated { (angle : Fraction) (x y : ℕ) → IsAngle angle → x < angle.den → y < angle.den
        → is_apart 2 angle x y ≡ is_separated angle x y }
    ensures rows { (o : OrbitOfDegree) (r : ForwardOrbit) → IsOrbitOfDegree o → IsForwardOrbit r
        → o.degree ≡ 2 → o.angle ≡ r.angle → rows_on (portrait_of o) ≡ rows_of_orbit r }
    ensures walks { (o : OrbitOfDegree) (r : ForwardOrbit) (n : ℕ) → IsOrbitOfDegree o → IsForwardOrbit r
        → o.degree ≡ 2 → o.angle ≡ r.angle → walks_on (portrait_of o) n ≡ pair_walks r n }
{}
