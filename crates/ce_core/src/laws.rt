// What is true of every run of the machine. The law stands on a function that does nothing.
ghost use Rattle.std.specs.Prelude.{ℕ, List, ◌≡◌, ◌++◌};
ghost use Rattle.ce_rows.specs.Rows.{ScaledRows, EnclosesRows};
ghost use Rattle.ce_rows.specs.declared.event.Event.{Event};
ghost use Rattle.ce_cert.specs.Vectors.{IsVectorOf};
ghost use Rattle.ce_cert.specs.Start.{IsStart};
ghost use Rattle.ce_core.specs.Runs.{AreBy, LiesWithin, shared_after};

/// After every list of events by any number of actors the interval encloses the growth rate, and
/// lies inside the initial enclosure and inside the interval after each prefix of the list; every
/// entry stays from 1 to 2^60. Where the stop word is set, the bounds are equal.
pub fn events_keep_the_enclosure()
    ensures encloses { (rows : ScaledRows) (ranks start : List ℕ) (low high count : ℕ) (events : List Event)
        → IsStart rows ranks start low high → AreBy count events
        → let s = shared_after rows ranks count start low high events in EnclosesRows rows s.low s.high }
    ensures within_initial { (rows : ScaledRows) (ranks start : List ℕ) (low high count : ℕ) (events : List Event)
        → IsStart rows ranks start low high → AreBy count events
        → LiesWithin low high (shared_after rows ranks count start low high events) }
    ensures narrows { (rows : ScaledRows) (ranks start : List ℕ) (low high count : ℕ) (earlier later : List Event)
        → IsStart rows ranks start low high → AreBy count (earlier ++ later)
        → let s = shared_after rows ranks count start low high earlier in
        LiesWithin s.low s.high (shared_after rows ranks count start low high (earlier ++ later)) }
    ensures entries { (rows : ScaledRows) (ranks start : List ℕ) (low high count : ℕ) (events : List Event)
        → IsStart rows ranks start low high → AreBy count events
        → IsVectorOf rows (shared_after rows ranks count start low high events).entries }
    ensures stopped { (rows : ScaledRows) (ranks start : List ℕ) (low high count : ℕ) (events : List Event)
        → IsStart rows ranks start low high → AreBy count events
        → let s = shared_after rows ranks count start low high events in s.stop ≡ 1 → s.low ≡ s.high }
{}
