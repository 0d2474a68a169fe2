// What an actor keeps for itself.
use ce_cert::bounds;
use ce_rows::{Act, Rows, block_sum};
use ce_vector::{relax, shift};

/// A copy of the vector, and what the actor last saw: the bounds, and the greatest number of
/// rescalings that was asked for.
#[derive(Drop)]
pub(crate) struct Actor {
    pub copy: Vec<u64>,
    pub low: u64,
    pub high: u64,
    pub shift: u64,
}

impl Actor {
    ghost use Rattle.std.specs.Prelude.{◌≡◌, ◌<◌, ◌-◌, ◌^◌, length};
    ghost use Rattle.ce_rows.specs.Blocks.{IsRanking};
    ghost use Rattle.ce_rows.specs.Events.{IsOnEntryBelow};
    ghost use Rattle.ce_rows.specs.declared.act.Act.TheVariants.{Asks, Relaxes};
    ghost use Rattle.ce_cert.specs.Vectors.{IsVectorOf};
    ghost use Rattle.ce_rows.specs.Actors.{after_answer};
    ghost use Rattle.ce_core.specs.Machine.{carried};
    ghost use Rattle.ce_core.specs.FieldsInside.{kept_of, HasBoundsInRange};

    // The relaxed value of an entry, by the actor's copy and the bounds that it saw.
    fn relaxed(&self, rows: &Rows, ranks: &[u32], i: u32) -> u64
        requires ranking { IsRanking rows.now.list ranks.now }
        requires vector { IsVectorOf rows.now self.now.copy.items }
        requires bounds { HasBoundsInRange rows.now.exponent self.now }
        requires entry { i < length rows.now.list }
        ensures { result ≡ carried rows.now ranks.now (kept_of self.now) (Relaxes i) }
    {
        let sum = block_sum(rows, ranks, &self.copy, i);
        relax(
            self.copy[i as usize],
            sum,
            self.low,
            self.high,
            rows.scale(),
        )
    }

    // The number that an act carries, by what the actor keeps.
    pub fn carried(&self, rows: &Rows, ranks: &[u32], scratch: &mut [u64], act: Act) -> u64
        requires ranking { IsRanking rows.now.list ranks.now }
        requires vector { IsVectorOf rows.now self.now.copy.items }
        requires bounds { HasBoundsInRange rows.now.exponent self.now }
        requires scratch { length scratch.old ≡ length rows.now.list }
        requires entry { IsOnEntryBelow (length rows.now.list) act }
        requires asked { act ≡ Asks → self.now.shift < 2 ^ 64 - 1 }
        ensures { result ≡ carried rows.now ranks.now (kept_of self.now) act }
    {
        match act {
            Act::Relaxes(i) => self.relaxed(rows, ranks, i),
            Act::Shrinks(i) => shift(self.copy[i as usize]),
            Act::Raises => bounds(rows, ranks, &self.copy, scratch).low,
            Act::Lowers => bounds(rows, ranks, &self.copy, scratch).high,
            Act::Asks => self.shift + 1,
            Act::Stops if self.low == self.high => 1,
            _ => 0,
        }
    }

    // Keeps what an act answered.
    pub fn note(&mut self, act: Act, answer: u64)
        requires { IsOnEntryBelow (length self.old.copy.items) act }
        ensures { kept_of self.new ≡ after_answer (kept_of self.old) act answer }
    {
        match act {
            Act::Loads(i) | Act::Relaxes(i) | Act::Shrinks(i) => self.copy[i as usize] = answer,
            Act::LoadsLow | Act::Raises => self.low = answer,
            Act::LoadsHigh | Act::Lowers => self.high = answer,
            Act::LoadsShift => self.shift = answer,
            Act::Asks | Act::LoadsStop | Act::Stops => {}
        }
    }
}
