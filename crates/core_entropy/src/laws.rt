// What is true of all words, and of the bounds that all rankings give. Each law stands on a
// function that does nothing.
ghost use Rattle.std.specs.Prelude.{◌≡◌, ◌≤◌, ◌*◌, ◌^◌, ℕ, List, IfSome, length};
ghost use Rattle.ce_orbit.specs.Orbit.{ForwardOrbit, IsForwardOrbit};
ghost use Rattle.ce_rows.specs.Blocks.{IsRanking};
ghost use Rattle.ce_rows.specs.Growth.{Encloses};
ghost use Rattle.ce_rows.specs.Scale.{IsExponent};
ghost use Rattle.ce_rows.specs.Rows.{ScaledRows, AreScaledRows};
ghost use Rattle.ce_rows.specs.Limits.{greatest_order};
ghost use Rattle.ce_vector.specs.PowerIteration.{power_vector};
ghost use Rattle.ce_cert.specs.Quotients.{low_of, high_of};
ghost use Rattle.ce_angle.specs.Fraction.{Fraction};
ghost use Rattle.ce_check.specs.GoodMap.{IsGoodMap};
ghost use Rattle.ce_map.specs.Grammar.{Header, Item, map_text};
ghost use Rattle.core_entropy.specs.Angle.{IsAngleText};
ghost use Rattle.core_entropy.specs.Atlas.{IsAtlasText};
ghost use Rattle.core_entropy.specs.Calls.{CallsFor};
ghost use Rattle.core_entropy.specs.Checked.{upgraded};
ghost use Rattle.core_entropy.specs.Compare.{IsCompareText};
ghost use Rattle.core_entropy.specs.Map.{IsMapText, header_of};
ghost use Rattle.core_entropy.specs.Merge.{merge_task};
ghost use Rattle.ce_thurston.specs.Indices.{rows_at};
ghost use Rattle.ce_thurston.specs.Pairs.{pair_walks};
ghost use Rattle.core_entropy.specs.Headline.{ClaimsTruly, IsInsideInitial, IsTrueClaim};
ghost use Rattle.core_entropy.specs.Probe.{IsProbeText};
ghost use Rattle.core_entropy.specs.Replay.{IsReplayText};
ghost use Rattle.core_entropy.specs.Show.{IsShowText};
ghost use Rattle.core_entropy.specs.Table.{task_asked};
ghost use Rattle.core_entropy.specs.Task.{Claim};
ghost use Rattle.core_entropy.specs.declared.status.Status.{Status};

use ce_atlas::tables_are_determined;

/// Words with an input call for exactly one status.
pub fn one_status_is_called_for()
    ensures some { (words : List (List ℕ)) (input : List ℕ)
        → (s : Status) × CallsFor (task_asked words) input s }
    ensures one { (words : List (List ℕ)) (input : List ℕ) (s t : Status)
        → CallsFor (task_asked words) input s → CallsFor (task_asked words) input t → s ≡ t }
{}

/// Each interval in a text of a command is true.
pub fn texts_claim_truly()
    ensures { (words : List (List ℕ)) (input text : List ℕ) → (task_asked words).Writes input text
        → ClaimsTruly (task_asked words) input text }
{}

/// In degree 2 a true claim speaks of the pairs of the angle's forward orbit under angle doubling.
pub fn claims_of_degree_two_are_of_doubling()
    ensures encloses { (claim : Claim) (o : ForwardOrbit) → IsTrueClaim claim
        → claim.degree ≡ 2 → IsForwardOrbit o
        → o.angle ≡ claim.angle
        → Encloses claim.exponent (pair_walks o) claim.interval.low claim.interval.high }
    ensures inside { (claim : Claim) (o : ForwardOrbit) → IsTrueClaim claim
        → claim.degree ≡ 2 → IsForwardOrbit o
        → o.angle ≡ claim.angle
        → IfSome claim.rounds (IsInsideInitial (rows_at o claim.exponent) claim.interval) }
{}

/// The commands in which no turn is taken, or all turns by one worker, have one text for an input;
/// so have those that only read.
pub fn texts_are_unique()
    ensures angle { (angle : Fraction) (rounds workers exponent : ℕ) (text other : List ℕ)
        → IsExponent exponent
        → IsAngleText angle rounds 0 workers exponent text
        → IsAngleText angle rounds 0 workers exponent other
        → text ≡ other }
    ensures one_worker { (angle : Fraction) (rounds turns exponent : ℕ) (text other : List ℕ)
        → IsExponent exponent
        → IsAngleText angle rounds turns 1 exponent text
        → IsAngleText angle rounds turns 1 exponent other
        → text ≡ other }
    ensures one_worker_map { (order rounds turns exponent : ℕ) (text other : List ℕ)
        → IsExponent exponent
        → IsMapText order rounds turns 1 exponent text
        → IsMapText order rounds turns 1 exponent other
        → text ≡ other }
    ensures show { (angle : Fraction) (text other : List ℕ)
        → IsShowText angle text → IsShowText angle other → text ≡ other }
    ensures replay { (angle : Fraction) (rounds exponent : ℕ) (script text other : List ℕ)
        → IsReplayText angle rounds exponent script text
        → IsReplayText angle rounds exponent script other
        → text ≡ other }
    ensures probe { (start count rounds exponent : ℕ) (text other : List ℕ)
        → IsProbeText start count rounds exponent text
        → IsProbeText start count rounds exponent other
        → text ≡ other }
    ensures merge { (bytes text other : List ℕ)
        → merge_task.Writes bytes text → merge_task.Writes bytes other → text ≡ other }
    ensures atlas { (order rounds exponent : ℕ) (text other : List ℕ)
        → IsAtlasText order rounds exponent text → IsAtlasText order rounds exponent other
        → text ≡ other }
    ensures compare { (a b : Fraction) (rounds exponent : ℕ) (text other : List ℕ)
        → IsCompareText a b rounds exponent text → IsCompareText a b rounds exponent other
        → text ≡ other }
{
    tables_are_determined();
}

/// A text of `map` is a good map, and so is the answer of `upgrade` to a good map.
pub fn written_maps_are_good()
    ensures map { (order rounds turns workers exponent : ℕ) (text : List ℕ)
        → 1 ≤ order → order ≤ greatest_order
        → IsExponent exponent → (h : IsMapText order rounds turns workers exponent text)
        → IsGoodMap text (header_of order exponent) h.items }
    ensures upgrade { (bytes : List ℕ) (h : Header) (items : List Item) → IsGoodMap bytes h items
        → IsGoodMap (map_text (upgraded h) items (length items)) (upgraded h) items }
{}

/// The bounds that a vector of power iteration gives lie from one to two at the scale of the rows,
/// whatever ranking cuts the blocks and however many rounds made the vector.
pub fn initial_enclosures_lie_between_one_and_two()
    ensures low { (rows : ScaledRows) → AreScaledRows rows
        → (ranks : List ℕ) → IsRanking rows.list ranks
        → (rounds : ℕ)
        → 2 ^ rows.exponent ≤ low_of rows ranks (power_vector rows.list ranks rounds) }
    ensures high { (rows : ScaledRows) → AreScaledRows rows
        → (ranks : List ℕ) → IsRanking rows.list ranks
        → (rounds : ℕ)
        → high_of rows ranks (power_vector rows.list ranks rounds) ≤ 2 * 2 ^ rows.exponent }
{}
