// The header of a part of a map. Its items and its end are read by the view of a map.
ghost use Rattle.std.specs.Prelude.{◌≤◌, IfSome, IfNone, length, drop};
ghost use Rattle.ce_map.specs.PartGrammar.{IsPartAt, LacksPart};

use crate::digits::rest_of;
use crate::lines::part_line;
use ce_rows::Scale;

/// What the header of a part says, and the place of the byte after it.
#[derive(Clone, Copy, Debug, PartialEq, Eq)]
pub struct PartHeader {
    pub order: u32,
    pub scale: Scale,
    pub end: usize,
}

/// The header of a part at a place of the bytes, if one stands there. `MapView::items` walks from
/// its end on over the items, of version 2, and to the end of the part.
pub fn part_header(bytes: &[u8], from: usize) -> Option<PartHeader>
    requires { from ≤ length bytes.now }
    ensures found { IfSome result (λ h. IsPartAt bytes.now from
        (record { version = 2; order = h.order; exponent = h.scale }) h.end) }
    ensures none { IfNone result (LacksPart (drop from bytes.now)) }
{
    let Some((header, rest)) = part_line(rest_of(bytes, from)) else {
        return None;
    };
    Some(PartHeader {
        order: header.order,
        scale: header.scale,
        end: bytes.len() - rest.len(),
    })
}
