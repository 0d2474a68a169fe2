// What is true of every text that may be a map. Each law stands on a function that does nothing.
ghost use Rattle.std.specs.Prelude.{◌≡◌, ℕ, List, All, Option};
ghost use Rattle.ce_check.specs.Flaws.{IsFirstFlawOf};
ghost use Rattle.ce_check.specs.GoodMap.{IsGoodMap, EnclosesItem};
ghost use Rattle.ce_check.specs.Verdicts.{IsItemVerdict, IsVerdict};
ghost use Rattle.ce_check.specs.declared.item.ItemFlaw.{ItemFlaw};
ghost use Rattle.ce_check.specs.declared.verdict.Cause.{Cause};
ghost use Rattle.ce_check.specs.declared.verdict.Verdict.{Verdict};
ghost use Rattle.ce_map.specs.Grammar.{Header, Item};

/// The interval of each item of a good map encloses the growth rate of the walks on the pairs of
/// its angle's orbit, at the scale of the map.
pub fn good_maps_enclose()
    ensures { (bytes : List ℕ) (h : Header) (items : List Item) → IsGoodMap bytes h items
        → All (EnclosesItem h.exponent) items }
{}

/// A text has one verdict: what is said of it is a function of its bytes.
pub fn maps_have_one_verdict()
    ensures { (bytes : List ℕ) (v u : Verdict) → IsVerdict bytes v → IsVerdict bytes u → v ≡ u }
{}

/// What is said of an item at a scale is a function of the item; so `check_item` answers none
/// exactly where the item is certified.
pub fn items_have_one_verdict()
    ensures { (exponent : ℕ) (item : Item) (r s : Option ItemFlaw)
        → IsItemVerdict exponent item r → IsItemVerdict exponent item s → r ≡ s }
{}

/// A good map has no flaw; so `check_map` accepts exactly the good maps.
pub fn good_maps_have_no_flaw()
    ensures { (bytes : List ℕ) (h : Header) (items : List Item) (line : ℕ) (cause : Cause)
        → IsGoodMap bytes h items → IsFirstFlawOf bytes line cause → ⊥ }
{}

/// Each text has a verdict.
pub fn each_text_has_a_verdict()
    ensures { (bytes : List ℕ) → (v : Verdict) × IsVerdict bytes v }
{}
