// The Collatz-Wielandt bounds of a vector.
ghost use Rattle.std.specs.Prelude.{◌≡◌, ◌*◌, ◌<◌, ◌≤◌, ℕ, length, All, Contains, slice_index};
ghost use Rattle.ce_rows.specs.Blocks.{IsRanking};
ghost use Rattle.ce_rows.specs.Rows.{AreScaledRows, IsLowerBoundOf, IsUpperBoundOf};
ghost use Rattle.ce_cert.specs.Certificate.{IsCertificate, IsLowVector};
ghost use Rattle.ce_cert.specs.PassesInside.{IsBestUpTo, IsGreatestUpTo, IsLeastUpTo};
ghost use Rattle.ce_cert.specs.Quotients.{low_of, low_rank_of, high_of};
ghost use Rattle.ce_cert.specs.Vectors.{IsVectorOf};
ghost use Rattle.ce_rows.specs.Limits.{number_limit};

use crate::Bounds;
use crate::quotient::{CUT, greater_quotient, lesser_quotient};
use ce_rows::{Rows, block_sum};

// One pass over the rows for both ends: leaves for each rank the least quotient of its vertices, or
// the cut where it has none, and answers the greatest quotient of all vertices, cut to 2^62.
fn quotients(rows: &Rows, ranks: &[u32], v: &[u64], least: &mut [u64]) -> u64
    requires ranking { IsRanking rows.now.list ranks.now }
    requires vector { IsVectorOf rows.now v.now }
    requires numbers { length least.old ≡ length rows.now.list }
    ensures rows { AreScaledRows rows.now }
    ensures least { (rank : ℕ) → rank < length rows.now.list
        → IsLeastUpTo rows.now ranks.now v.now (length rows.now.list) rank (slice_index least.new rank) }
    ensures cut { result ≤ number_limit }
    ensures greatest { IsGreatestUpTo rows.now ranks.now v.now (length rows.now.list) result }
{
    let one = rows.scale().one();
    let mut greatest = 0;
    least.fill(CUT);
    for i in 0..rows.len() {
        let sum = block_sum(rows, ranks, v, i);
        let rank = ranks[i as usize] as usize;
        let value = v[i as usize];
        least[rank] = lesser_quotient(least[rank], one, sum, value);
        greatest = greater_quotient(greatest, one, sum, value);
    }
    greatest
}

// The least rank with the greatest number, and that number.
fn best_rank(ranks: &[u32], numbers: &[u64]) -> (u32, u64)
    requires some { 0 < length ranks.now }
    requires within { All (λ rank. rank < length numbers.now) ranks.now }
    ensures { IsBestUpTo ranks.now numbers.now (length ranks.now) result.0 result.1 }
{
    let mut rank = ranks[0];
    let mut low = numbers[rank as usize];
    for other in ranks {
        let number = numbers[*other as usize];
        if low < number || (low == number && *other < rank) {
            rank = *other;
            low = number;
        }
    }
    (rank, low)
}

/// The Collatz-Wielandt bounds of a vector within the blocks of a ranking, in units of 1/S: the low
/// end from the rank whose least quotient is greatest, rounded down, the high end from the greatest
/// quotient of all, rounded up and cut to 2^62. They bound the growth rate of the rows' walks,
/// whatever the vector is. What `scratch` holds afterwards is left open.
pub fn bounds(rows: &Rows, ranks: &[u32], v: &[u64], scratch: &mut [u64]) -> Bounds
    requires ranking { IsRanking rows.now.list ranks.now }
    requires vector { IsVectorOf rows.now v.now }
    requires scratch { length scratch.old ≡ length rows.now.list }
    ensures low { result.low ≡ low_of rows.now ranks.now v.now }
    ensures low_rank { result.low_rank ≡ low_rank_of rows.now ranks.now v.now }
    ensures high { result.high ≡ high_of rows.now ranks.now v.now }
    ensures below { IsLowerBoundOf rows.now result.low }
    ensures above { IsUpperBoundOf rows.now result.high }

    // The rank occurs, and the vector shows the low end; below the cut it shows the high end too.
    ensures occurs { Contains ranks.now result.low_rank }
    ensures shown { IsLowVector rows.now ranks.now result.low_rank v.now result.low }
    ensures certificate { result.high < number_limit → IsCertificate rows.now (record {
      ranks = ranks.now;
      low_rank = result.low_rank;
      low_vector = v.now;
      high_vector = v.now;
      low = result.low;
      high = result.high;
    }) }
{
    let high = quotients(rows, ranks, v, scratch);
    let (low_rank, low) = best_rank(ranks, scratch);
    Bounds {
        low,
        low_rank,
        high,
    }
}
