// Map files: their text, written and read.
//
// In come angles with certificates, whose text of version 2 is appended item by item; or the bytes
// of a file of version 1 or 2, which a view goes over part after part and gives as slices, without
// memory. The grammar is no reader: it says how parts are spelled (`Grammar.antt`), and a text is
// read as what it spells. Main facts: `MapView::next` answers exactly what stands next, or the
// first line that does not fit; no text has two readings (`maps_have_one_spelling`).
#![tactic(auto)]

mod append;
mod append_read;
mod digits;
mod fields;
mod laws;
mod lines;
mod numbers;
mod part;
mod pieces;
mod record_view;
#[cfg(test)]
mod tests;
mod view;

pub use append::{append_end, append_header, append_item, append_part_header};
pub use append_read::append_view;
pub use laws::{
    each_text_has_a_next_part, ends_have_one_spelling, headers_have_one_spelling,
    items_have_one_spelling, maps_have_one_spelling, part_headers_have_one_spelling,
    walks_join_to_their_bytes,
};
pub use numbers::Numbers;
pub use part::{PartHeader, part_header};
pub use record_view::RecordView;
pub use view::{MapView, Step};
