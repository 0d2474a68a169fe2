// How the lines of a desk are spelled.
ghost use Rattle.std.specs.Prelude.{◌≡◌, IfOk, string_bytes};
ghost use Rattle.ce_desk.specs.DeskText.{opened_text, read_text, refused_text, closed_text};

use crate::cause::Cause;
use crate::closing::Closing;
use ce_angle::Angle;
use ce_rows::{Interval, NoMemory};
use std::alloc::Global;

// The reply to an opened angle.
pub(crate) fn opened_line(
    alloc: Global,
    slot: u32,
    angle: Angle,
    initial: Interval,
) -> Result<String, NoMemory>
    ensures { IfOk result (λ line. string_bytes line ≡ opened_text slot angle initial) }
{
    Ok(format!(in alloc; "opened {slot} angle {angle} {initial}\n")?)
}

// The reply to a slot that was read.
pub(crate) fn read_line(alloc: Global, slot: u32, interval: Interval) -> Result<String, NoMemory>
    ensures { IfOk result (λ line. string_bytes line ≡ read_text slot interval) }
{
    Ok(format!(in alloc; "read {slot} {interval}\n")?)
}

// The reply to a line that is refused.
pub(crate) fn refused_line(alloc: Global, line: u32, cause: Cause) -> Result<String, NoMemory>
    ensures { IfOk result (λ text. string_bytes text ≡ refused_text line cause) }
{
    let mut text = format!(in alloc; "refused line {line} ")?;
    text.push_str(cause.name())?;
    text.push_str("\n")?;
    Ok(text)
}

// The closing line of a slot.
pub(crate) fn closed_line(alloc: Global, slot: u32, closing: Closing) -> Result<String, NoMemory>
    ensures { IfOk result (λ line. string_bytes line ≡ closed_text slot closing) }
{
    let Closing { interval, turns } = closing;
    Ok(format!(in alloc; "closed {slot} turns {turns} {interval}\n")?)
}
