// What is true of each text of a desk. The law stands on a function that does nothing.
ghost use Rattle.std.specs.Prelude.{ℕ, All, List, Option};
ghost use Rattle.ce_rows.specs.Scale.{IsExponent};
ghost use Rattle.ce_desk.specs.Desk.{Slot, Desk, empty_desk};
ghost use Rattle.ce_desk.specs.DeskText.{AreReplies, Closes};
ghost use Rattle.ce_desk.specs.Sound.{IsTrueOf, IsSound};
ghost use Rattle.ce_desk.specs.declared.closing.Closing.{Closing};

/// Each interval that a desk tells of a slot, when it is opened, read or closed, encloses the
/// growth rate of the rows of its angle's orbit, and lies inside the initial enclosure: at the
/// scales 2^32 and 2^48.
pub fn desks_tell_truly()
    ensures replies { (rounds exponent : ℕ) (lines : List (Option (List ℕ))) (desk : Desk)
        (text : List ℕ) → IsExponent exponent → AreReplies rounds exponent 1 empty_desk lines desk text
        → All (IsSound rounds exponent) desk.slots }
    ensures closings { (rounds exponent : ℕ) (slot : Slot) (closing : Closing) → IsExponent exponent
        → IsSound rounds exponent slot → Closes slot closing → IsTrueOf slot.run closing.interval }
{}
