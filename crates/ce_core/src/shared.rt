// The state that actors share.
use ce_rows::Act;

/// The entries of the vector, the bounds of the growth rate, the greatest number of rescalings that
/// was asked for, and the stop word, which is 0 or 1.
#[derive(Drop)]
pub(crate) struct Shared {
    pub entries: Vec<u64>,
    pub low: u64,
    pub high: u64,
    pub shift: u64,
    pub stop: u64,
}

impl Shared {
    ghost use Rattle.std.specs.Prelude.{◌≡◌, length};
    ghost use Rattle.ce_rows.specs.Events.{after_act, answer_of, IsOnEntryBelow};
    ghost use Rattle.ce_core.specs.FieldsInside.{shared_of};

    // An act's step on the shared state, with the number that it carries.
    pub fn apply(&mut self, act: Act, number: u64) -> u64
        requires { IsOnEntryBelow (length self.old.entries.items) act }
        ensures shared { shared_of self.new ≡ after_act (shared_of self.old) act number }
        ensures answer { result ≡ answer_of (shared_of self.old) act number }
    {
        match act {
            Act::Loads(i) => self.entries[i as usize],
            Act::LoadsLow => self.low,
            Act::LoadsHigh => self.high,
            Act::LoadsShift => self.shift,
            Act::LoadsStop => self.stop,
            Act::Relaxes(i) | Act::Shrinks(i) => {
                self.entries[i as usize] = number;
                number
            }
            Act::Raises => {
                self.low = self.low.max(number);
                self.low
            }
            Act::Lowers => {
                self.high = self.high.min(number);
                self.high
            }
            Act::Asks => {
                self.shift = self.shift.max(number);
                self.shift
            }
            Act::Stops => {
                self.stop = self.stop.max(number);
                self.stop
            }
        }
    }
}
