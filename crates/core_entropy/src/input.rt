// What a command reads.
ghost use Rattle.std.specs.Prelude.{◌≤◌, length, IfOk, IfErr, Some};
ghost use Rattle.core_entropy.specs.Calls.{IsInput};
ghost use Rattle.core_entropy.specs.Input.{IsReadStatus};
ghost use Rattle.core_entropy.specs.Output.{HasRead};
ghost use Rattle.core_entropy.specs.declared.status.Status.{Status};

use crate::status::Status;
use ce_port::{ReadEnd, Source, read_all};
use std::alloc::Global;

/// The whole input of a command that reads at most so much.
pub fn read_input<S: Source>(alloc: Global, source: &mut S, limit: usize) -> Result<Vec<u8>, Status>
    ensures input { IfOk result (λ input. IsInput (Some limit) (S.left source.old) input.items) }
    ensures fits { IfOk result (λ input. length input.items ≤ limit) }
    ensures read { IfOk result
        (λ input. HasRead S.left S.faults (Some limit) Status.Done source.old source.new) }
    ensures none { IfErr result IsReadStatus }
    ensures unread { IfErr result
        (λ s. HasRead S.left S.faults (Some limit) s source.old source.new) }
{
    match read_all(alloc, source, limit) {
        ReadEnd::All(input) => Ok(input),
        ReadEnd::TooLong => Err(Status::InputTooLong),
        ReadEnd::Failed => Err(Status::ReadFault),
        ReadEnd::NoMemory => Err(Status::NoMemory),
    }
}
