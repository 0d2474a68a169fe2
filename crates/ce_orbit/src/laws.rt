// What is true of every orbit. Each law stands on a function that does nothing.
ghost use Rattle.std.specs.Prelude.{◌≡◌, ◌<◌, ◌≤◌, ◌+◌, ◌⊎◌, ◌↔◌, ℕ, length, slice_index_or, false, IsTrue};
ghost use Rattle.ce_angle.specs.Fraction.{Fraction, IsAngle};
ghost use Rattle.ce_orbit.specs.Iterates.{iterate, AreDistinctIterates, HasOrbitOf};
ghost use Rattle.ce_orbit.specs.Orbit.{ForwardOrbit, IsForwardOrbit, HasOrbitAbove, HasOrbitWithin};
ghost use Rattle.ce_orbit.specs.Orbit.{period_of};
ghost use Rattle.ce_orbit.specs.Halves.{IsEnd, is_separated};
ghost use Rattle.std.specs.declared.cmp.Ordering.TheVariants.{Equal};
ghost use Rattle.ce_orbit.specs.Kneading.{kneading_of, symbol_at, symbols_of, IsKeyOf};
ghost use Rattle.ce_orbit.specs.KeyOrder.{key_order};
ghost use Rattle.ce_orbit.specs.declared.key.KneadKey.{KneadKey};
ghost use Rattle.ce_orbit.specs.Symbols.{symbol_of, AreOpposite};
ghost use Rattle.ce_orbit.specs.declared.symbol.Symbol.TheVariants.{Zero};

/// An angle has at most one orbit.
pub fn orbits_are_unique()
    ensures { (o r : ForwardOrbit) → IsForwardOrbit o → IsForwardOrbit r → o.angle ≡ r.angle → o ≡ r }
{}

/// An orbit has more than so many places exactly where as many numerators and one more are all
/// different.
pub fn long_orbits_are_long()
    ensures { (o : ForwardOrbit) (n : ℕ) → IsForwardOrbit o
        → HasOrbitAbove n o.angle ↔ (n < length o.places) }
{}

/// Under any map the first numbers repeat within so many, or one more are all different; and they
/// repeat within any bound that they stay below.
pub fn orbits_of_maps_exist()
    ensures either { (f : ℕ → ℕ) (x count : ℕ) → HasOrbitOf f x count ⊎ AreDistinctIterates f x (count + 1) }
    ensures bounded { (f : ℕ → ℕ) (x bound : ℕ) → ((k : ℕ) → iterate f x k < bound) → HasOrbitOf f x bound }
{}

/// Each angle has an orbit: its numerators repeat within as many places as its denominator says.
pub fn orbits_exist()
    ensures { (angle : Fraction) → IsAngle angle → HasOrbitWithin angle.den angle }
{}

/// Whatever the number, the orbit of an angle has at most so many angles, or it has more.
pub fn orbits_are_short_or_long()
    ensures { (angle : Fraction) (n : ℕ) → IsAngle angle → HasOrbitWithin n angle ⊎ HasOrbitAbove n angle }
{}

/// At most one end of the critical diameter is a fraction over the angle's denominator, since an
/// angle is in lowest terms; so at most one end is in an orbit.
pub fn at_most_one_end()
    ensures { (angle : Fraction) (x y : ℕ) → IsAngle angle → IsEnd angle x → IsEnd angle y → x ≡ y }
{}

/// An end of the critical diameter is separated from no other angle.
pub fn ends_are_in_both_halves()
    ensures { (angle : Fraction) (x y : ℕ) → IsEnd angle x → is_separated angle x y ≡ false }
{}

/// Two numerators are separated exactly where their symbols are One and Zero, in either order.
pub fn separated_symbols_are_opposite()
    ensures { (angle : Fraction) (x y : ℕ)
        → IsTrue (is_separated angle x y) ↔ AreOpposite (symbol_of angle x) (symbol_of angle y) }
{}

/// Two keys are equal exactly where they hold one kneading sequence: the same symbols with the same
/// preperiod and period.
pub fn keys_are_kneading_sequences()
    ensures { (o r : ForwardOrbit) (k l : KneadKey) → IsForwardOrbit o → IsForwardOrbit r
        → IsKeyOf o k → IsKeyOf r l → (k ≡ l) ↔ (kneading_of o ≡ kneading_of r) }
{}

/// The kneading sequence begins with the symbols of the places and goes on as the cycle does: from
/// the preperiod on, it repeats itself after each period. So it is determined by these symbols, the
/// preperiod and the period.
pub fn kneading_sequences_go_round()
    ensures begins { (o : ForwardOrbit) (k : ℕ) → IsForwardOrbit o → k < length o.places
        → slice_index_or (symbols_of o) k Zero ≡ symbol_at o.angle k }
    ensures repeats { (o : ForwardOrbit) (k : ℕ) → IsForwardOrbit o → o.preperiod ≤ k
        → symbol_at o.angle (k + period_of o) ≡ symbol_at o.angle k }
    ensures determined { (o r : ForwardOrbit) (k : ℕ) → IsForwardOrbit o → IsForwardOrbit r
        → kneading_of o ≡ kneading_of r → symbol_at o.angle k ≡ symbol_at r.angle k }
{}

/// The order of keys, by which they can be sorted and looked up, tells all keys apart.
pub fn key_order_tells_keys_apart()
    ensures { (k l : KneadKey) → (key_order k l ≡ Equal) ↔ (k ≡ l) }
{}

/// The angle 0 alone has an orbit of one place.
pub fn alone_is_the_angle_zero()
    ensures { (o : ForwardOrbit) → IsForwardOrbit o → (length o.places ≡ 1) ↔ (o.angle.den ≡ 1) }
{}
