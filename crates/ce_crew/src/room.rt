// The room of a worker: its private copy, its scratch and its best vectors.
ghost use Rattle.std.specs.Prelude.{◌≡◌, ◌<◌, ◌≤◌, IfOk, length};
ghost use Rattle.ce_crew.specs.Rooms.{AreBoundsOf, IsNewRoom, IsRoomOf};
ghost use Rattle.ce_words.specs.declared.view.Run.{Run};

use ce_cert::Bounds;
use ce_rows::NoMemory;
use std::alloc::Global;
use std::mem;

/// All memory that a worker needs: its private copy of the vector, which may be torn, room to find
/// bounds, and the best vectors with their bounds.
#[derive(Drop)]
pub struct WorkRoom {
    pub(crate) copy: Vec<u64>,
    pub(crate) scratch: Vec<u64>,
    low_vector: Vec<u64>,
    low: Bounds,
    high_vector: Vec<u64>,
    high: Bounds,
}

/// The best vectors of a worker, with the bounds of each.
#[derive(Drop)]
pub struct WorkEnd {
    pub low_vector: Vec<u64>,
    pub low: Bounds,
    pub high_vector: Vec<u64>,
    pub high: Bounds,
}

impl WorkRoom {
    /// Takes memory for four vectors. The best vectors begin as the one that is handed in, with its
    /// bounds.
    pub fn new(alloc: Global, vector: &[u64], first: Bounds) -> Result<WorkRoom, NoMemory>
        ensures { IfOk result (IsNewRoom vector.now first) }
    {
        Ok(WorkRoom {
            copy: Vec::from_slice(alloc, vector)?,
            scratch: Vec::from_slice(alloc, vector)?,
            low_vector: Vec::from_slice(alloc, vector)?,
            low: first,
            high_vector: Vec::from_slice(alloc, vector)?,
            high: first,
        })
    }

    // Keeps the copy, whose bounds were found, as best vector for each end that is strictly better.
    pub(crate) fn keep(&mut self, found: Bounds)
        requires high_vector { length self.old.high_vector.items ≡ length self.old.low_vector.items }
        requires copy { length self.old.copy.items ≡ length self.old.low_vector.items }
        ensures low_new { self.old.low.low < found.low
            → (self.new.low ≡ found) × (self.new.low_vector.items ≡ self.old.copy.items) }
        ensures low_same { found.low ≤ self.old.low.low
            → (self.new.low ≡ self.old.low) × (self.new.low_vector.items ≡ self.old.low_vector.items) }
        ensures high_new { found.high < self.old.high.high
            → (self.new.high ≡ found) × (self.new.high_vector.items ≡ self.old.copy.items) }
        ensures high_same { self.old.high.high ≤ found.high
            → (self.new.high ≡ self.old.high) × (self.new.high_vector.items ≡ self.old.high_vector.items) }
        ensures room { (run : Run) → IsRoomOf run self.old → AreBoundsOf run self.old.copy.items found
            → IsRoomOf run self.new }
    {
        match (found.low > self.low.low, found.high < self.high.high) {
            (true, true) => self.keep_both(found),
            (true, false) => {
                self.low = found;
                mem::swap(&mut self.copy, &mut self.low_vector);
            }
            (false, true) => {
                self.high = found;
                mem::swap(&mut self.copy, &mut self.high_vector);
            }
            (false, false) => {}
        }
    }

    /// The best vectors, with the bounds of each.
    pub fn finish(self) -> WorkEnd
        ensures low { (result.low ≡ self.low) × (result.low_vector.items ≡ self.low_vector.items) }
        ensures high { (result.high ≡ self.high) × (result.high_vector.items ≡ self.high_vector.items) }
    {
        WorkEnd {
            low_vector: self.low_vector,
            low: self.low,
            high_vector: self.high_vector,
            high: self.high,
        }
    }

    // One copy for both ends: the only time that a vector is copied and not swapped.
    fn keep_both(&mut self, found: Bounds)
        requires high_vector { length self.old.high_vector.items ≡ length self.old.low_vector.items }
        requires copy { length self.old.copy.items ≡ length self.old.low_vector.items }
        ensures low { (self.new.low ≡ found) × (self.new.low_vector.items ≡ self.old.copy.items) }
        ensures high { (self.new.high ≡ found) × (self.new.high_vector.items ≡ self.old.copy.items) }
        ensures copy { self.new.copy.items ≡ self.old.low_vector.items }
        ensures scratch { self.new.scratch.items ≡ self.old.scratch.items }
    {
        self.low = found;
        self.high = found;
        self.high_vector.copy_from_slice(&self.copy);
        mem::swap(&mut self.copy, &mut self.low_vector);
    }
}
