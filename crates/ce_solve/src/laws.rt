// What is true of all runs, and what of a run is determined. The laws stand on functions that do
// nothing.
ghost use Rattle.std.specs.Prelude.{◌≡◌, ℕ, List, [], ◌∷◌, length};
ghost use Rattle.ce_comp.specs.Numbering.{IsNumbering};
ghost use Rattle.ce_rows.specs.Rows.{ScaledRows, AreRows, AreScaledRows, EnclosesRows};
ghost use Rattle.ce_rows.specs.declared.interval.Interval.{Interval};
ghost use Rattle.ce_solve.specs.ChaoticRun.{IsRun, HasKnownEnds};
ghost use Rattle.ce_solve.specs.ClosingVectors.{IsClosingLow, IsClosingHigh};
ghost use Rattle.ce_solve.specs.SolvedRows.{AreInitialBounds, Closing, IsRunOf, IsSolved};
ghost use Rattle.ce_words.specs.Logs.{Each};
ghost use Rattle.ce_words.specs.Steps.{LiesInside};
ghost use Rattle.ce_words.specs.declared.view.Place.{Place};
ghost use Rattle.ce_words.specs.declared.view.Run.{Run};

/// With no turns a run ends where it began: at the initial enclosure, with its vector. So its
/// certificate is determined by rows and rounds, whatever the number of workers.
pub fn no_turns_change_nothing()
    ensures low { (run : Run) (places : List Place) (low high : ℕ) → IsRun run 0 places low high
        → low ≡ run.initial.low }
    ensures high { (run : Run) (places : List Place) (low high : ℕ) → IsRun run 0 places low high
        → high ≡ run.initial.high }
    ensures low_vector { (run : Run) (places : List Place) (low high : ℕ) (beginning vector : List ℕ)
        → IsRun run 0 places low high → IsClosingLow run run.initial.low beginning places low vector
        → vector ≡ beginning }
    ensures high_vector { (run : Run) (places : List Place) (low high : ℕ) (beginning vector : List ℕ)
        → IsRun run 0 places low high → IsClosingHigh run run.initial.high beginning places high vector
        → vector ≡ beginning }
    ensures certificate { (rows : ScaledRows) (rounds workers others : ℕ) (closing other : Closing)
        → AreRows rows.list → IsSolved rows rounds 0 workers closing → IsSolved rows rounds 0 others other
        → closing.evidence ≡ other.evidence }
{}

/// What a run hands out encloses the growth rate of its rows, and lies inside their initial
/// enclosure, which is the bounds of the vector of power iteration. So does each reading.
pub fn solved_runs_enclose()
    ensures encloses { (rows : ScaledRows) (rounds turns workers : ℕ) (closing : Closing) → AreScaledRows rows
        → IsSolved rows rounds turns workers closing
        → EnclosesRows rows closing.evidence.low closing.evidence.high }
    ensures inside { (rows : ScaledRows) (rounds turns workers : ℕ) (ranks : List ℕ) (initial : Interval)
        (closing : Closing) → AreRows rows.list → IsNumbering rows.list ranks
        → AreInitialBounds rows ranks rounds initial → IsSolved rows rounds turns workers closing
        → LiesInside initial.low initial.high closing.evidence.low closing.evidence.high }
    ensures readings { (rows : ScaledRows) (rounds turns workers : ℕ) (closing : Closing) → AreScaledRows rows
        → IsSolved rows rounds turns workers closing
        → Each (λ r. EnclosesRows rows r.interval.low r.interval.high) closing.readings }
    ensures readings_inside { (rows : ScaledRows) (rounds turns workers : ℕ) (ranks : List ℕ) (initial : Interval)
        (closing : Closing) → AreRows rows.list → IsNumbering rows.list ranks
        → AreInitialBounds rows ranks rounds initial → IsSolved rows rounds turns workers closing
        → Each (λ r. LiesInside initial.low initial.high r.interval.low r.interval.high) closing.readings }
{}

/// Whatever old values the workers of a run met, its bounds enclose the growth rate of its rows:
/// those of the initial enclosure, the closing ones, and all that were certified on the way.
pub fn runs_enclose()
    ensures initial { (rows : ScaledRows) (rounds : ℕ) (run : Run) → AreScaledRows rows → IsRunOf rows rounds run
        → EnclosesRows rows run.initial.low run.initial.high }
    ensures closing { (rows : ScaledRows) (rounds turns : ℕ) (run : Run) (places : List Place) (low high : ℕ)
        → AreScaledRows rows → IsRunOf rows rounds run → IsRun run turns places low high
        → EnclosesRows rows low high }
    ensures certified { (rows : ScaledRows) (rounds turns : ℕ) (run : Run) (places : List Place)
        (low high from to : ℕ) → AreScaledRows rows → IsRunOf rows rounds run → IsRun run turns places low high
        → HasKnownEnds run places from to → EnclosesRows rows from to }
{}

/// A run with one worker is determined: its log, step by step, the interval, the vectors, and with
/// them the certificate that is handed out.
pub fn one_worker_has_one_run()
    ensures log { (run : Run) (turns : ℕ) (place other : Place) (low high least most : ℕ)
        → IsRun run turns (place ∷ []) low high → IsRun run turns (other ∷ []) least most
        → place.log ≡ other.log }
    ensures low { (run : Run) (turns : ℕ) (places others : List Place) (low high least most : ℕ)
        → length places ≡ 1 → length others ≡ 1
        → IsRun run turns places low high → IsRun run turns others least most → low ≡ least }
    ensures high { (run : Run) (turns : ℕ) (places others : List Place) (low high least most : ℕ)
        → length places ≡ 1 → length others ≡ 1
        → IsRun run turns places low high → IsRun run turns others least most → high ≡ most }
    ensures low_vector { (run : Run) (turns : ℕ) (places others : List Place) (low high least most : ℕ)
        (beginning vector other : List ℕ) → length places ≡ 1 → length others ≡ 1
        → IsRun run turns places low high → IsClosingLow run run.initial.low beginning places low vector
        → IsRun run turns others least most → IsClosingLow run run.initial.low beginning others least other
        → vector ≡ other }
    ensures high_vector { (run : Run) (turns : ℕ) (places others : List Place) (low high least most : ℕ)
        (beginning vector other : List ℕ) → length places ≡ 1 → length others ≡ 1
        → IsRun run turns places low high → IsClosingHigh run run.initial.high beginning places high vector
        → IsRun run turns others least most → IsClosingHigh run run.initial.high beginning others most other
        → vector ≡ other }
    ensures certificate { (rows : ScaledRows) (rounds turns : ℕ) (closing other : Closing) → AreScaledRows rows
        → IsSolved rows rounds turns 1 closing → IsSolved rows rounds turns 1 other
        → closing.evidence ≡ other.evidence }
{}
