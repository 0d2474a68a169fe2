// What a run begins with: the strongly connected components, the vector of power iteration, and its
// bounds, which are the initial enclosure.
ghost use Rattle.std.specs.Prelude.{◌≡◌, ◌≤◌, IfOk, length};
ghost use Rattle.ce_cert.specs.Vectors.{IsVectorOf};
ghost use Rattle.ce_rows.specs.Blocks.{IsRanking};
ghost use Rattle.ce_rows.specs.Rows.{IsLowerBoundOf, IsUpperBoundOf};
ghost use Rattle.ce_rows.specs.Limits.{most_rounds};
ghost use Rattle.ce_vector.specs.PowerIteration.{power_vector};
ghost use Rattle.ce_solve.specs.Prepared.{IsPrepared, MayBegin};
ghost use Rattle.ce_cert.specs.Certificate.{AreBoundsIn};

use ce_cert::{Bounds, bounds};
use ce_comp::{Ranks, components};
use ce_rows::{NoMemory, Rows};
use ce_vector::lazy_rounds;
use std::alloc::Global;

/// Ranks and a vector with an entry for each row, and the vector's bounds.
#[derive(Drop)]
pub struct Prepared {
    pub ranks: Ranks,
    pub vector: Vec<u64>,
    pub bounds: Bounds,
}

// The vector after so many rounds of power iteration.
fn iterated(alloc: Global, rows: &Rows, ranks: &[u32], rounds: u32) -> Result<Vec<u64>, NoMemory>
    requires ranks { length ranks.now ≡ length rows.now.list }
    requires rounds { rounds ≤ most_rounds }
    ensures { IfOk result (λ v. v.items ≡ power_vector rows.now.list ranks.now rounds) }
{
    let len = rows.len() as usize;
    let mut vector: Vec<u64> = vec![in alloc; 1; len]?;
    let mut spare: Vec<u64> = vec![in alloc; 1; len]?;
    lazy_rounds(rows, ranks, rounds, &mut vector, &mut spare);
    Ok(vector)
}

// The bounds of a vector.
fn bounds_of(alloc: Global, rows: &Rows, ranks: &[u32], v: &[u64]) -> Result<Bounds, NoMemory>
    requires ranking { IsRanking rows.now.list ranks.now }
    requires vector { IsVectorOf rows.now v.now }
    ensures bounds { IfOk result (AreBoundsIn rows.now ranks.now v.now) }
    ensures below { IfOk result (λ b. IsLowerBoundOf rows.now b.low) }
    ensures above { IfOk result (λ b. IsUpperBoundOf rows.now b.high) }
{
    let mut scratch: Vec<u64> = vec![in alloc; 0; v.len()]?;
    Ok(bounds(rows, ranks, v, &mut scratch))
}

/// The numbers of the components, the vector after so many rounds of power iteration, and its
/// Collatz-Wielandt bounds, in units of the rows' scale.
pub fn prepare(alloc: Global, rows: &Rows, rounds: u32) -> Result<Prepared, NoMemory>
    requires { rounds ≤ most_rounds }
    ensures prepared { IfOk result (IsPrepared rows.now rounds) }
    ensures begins { IfOk result (MayBegin rows.now) }
{
    let _len = rows.len();
    let ranks = components(alloc, rows)?;
    let vector = iterated(alloc, rows, ranks.as_slice(), rounds)?;
    let bounds = bounds_of(alloc, rows, ranks.as_slice(), &vector)?;
    Ok(Prepared {
        ranks,
        vector,
        bounds,
    })
}
