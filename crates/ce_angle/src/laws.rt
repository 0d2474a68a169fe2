// What is true of every angle. Each law stands on a function that does nothing.
ghost use Rattle.std.specs.Prelude.{◌≡◌, List, ℕ, Ok};
ghost use Rattle.ce_angle.specs.Fraction.{Fraction, IsAngle, IsSameNumber};
ghost use Rattle.ce_angle.specs.Farey.{AreAnglesUpTo};
ghost use Rattle.ce_angle.specs.Spelled.{fraction_text};
ghost use Rattle.ce_angle.specs.Typed.{angle_of, angle_of_text};

/// A number has one form in lowest terms: two angles that are the same number have the same parts.
pub fn lowest_terms_are_unique()
    ensures { (f g : Fraction) → IsAngle f → IsAngle g → IsSameNumber f g → f ≡ g }
{}

/// What is read as an angle is one, and it is the number that was given.
pub fn angles_are_the_given_numbers()
    ensures angle { (num den : ℕ) (f : Fraction) → angle_of num den ≡ Ok f → IsAngle f }
    ensures same { (num den : ℕ) (f : Fraction) → angle_of num den ≡ Ok f
        → IsSameNumber f (record { num = num; den = den }) }
    ensures typed { (text : List ℕ) (f : Fraction) → angle_of_text text ≡ Ok f → IsAngle f }
{}

/// An angle that is spelled reads back as it.
pub fn spelled_angles_read_back()
    ensures { (f : Fraction) → IsAngle f → angle_of_text (fraction_text f) ≡ Ok f }
{}

/// The angles up to an order are one list, whatever makes it.
pub fn angles_up_to_an_order_are_one_list()
    ensures { (order : ℕ) (xs ys : List Fraction) → AreAnglesUpTo order xs → AreAnglesUpTo order ys → xs ≡ ys }
{}
