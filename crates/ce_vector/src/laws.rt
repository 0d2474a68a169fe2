// What is true of the start of a run. The law stands on a function that does nothing.
ghost use Rattle.std.specs.Prelude.{◌<◌, ◌≤◌, ◌+◌, ◌^◌, ℕ, List, length, All};
ghost use Rattle.ce_vector.specs.Start.{doublings, HasRoomFor};

/// The entries of a vector can be doubled so often, and no more often, below 2^58.
pub fn doublings_are_the_most()
    ensures fits { (v : List ℕ) → All (λ x. x < 2 ^ 58) v → HasRoomFor v (doublings v) }
    ensures greatest { (v : List ℕ) → 0 < length v → All (λ x. 1 ≤ x) v → All (λ x. x < 2 ^ 58) v
        → HasRoomFor v (doublings v + 1) → ⊥ }
{}
