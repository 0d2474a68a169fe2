// The text of an item that is read from a map, as one of version 2.
ghost use Rattle.std.specs.Prelude.{◌≡◌, ◌++◌, ℕ, List, OnOk, OnErr};
ghost use Rattle.ce_map.specs.AppendInside.{Extends};
ghost use Rattle.ce_map.specs.Digits.{numbers_text};
ghost use Rattle.ce_map.specs.Grammar.{Item, high_line, item_text, low_line, ranks_line};
ghost use Rattle.ce_map.specs.Lists.{IsListOf, IsSomeList};
ghost use Rattle.ce_map.specs.Views.{IsShown, Shows};

use crate::append::put_angle_line;
use crate::pieces::{put, put_entry, put_field, put_rank, whole};
use crate::{Numbers, RecordView};
use ce_rows::NoMemory;

// The numbers of a list, in decimal.
fn put_all_ranks(text: &mut Vec<u8>, numbers: Numbers<'_>) -> Result<(), NoMemory>
    ensures extends { Extends text.old.items text.new.items }
    ensures ok { (base : ℕ) (list : List ℕ) → IsListOf base list numbers.entry
        → OnOk result (text.new.items ≡ text.old.items ++ numbers_text 10 list) }
{
    let count = numbers.count();
    let mut left = numbers;
    for i in 0..count {
        let Some(rank) = left.next() else {
            return Ok(());
        };
        put_rank(text, rank)?;
    }
    Ok(())
}

// The numbers of a list, in hexadecimal.
fn put_all_entries(text: &mut Vec<u8>, numbers: Numbers<'_>) -> Result<(), NoMemory>
    requires { IsSomeList numbers }
    ensures extends { Extends text.old.items text.new.items }
    ensures ok { (base : ℕ) (list : List ℕ) → IsListOf base list numbers.entry
        → OnOk result (text.new.items ≡ text.old.items ++ numbers_text 16 list) }
{
    let count = numbers.count();
    let mut left = numbers;
    for i in 0..count {
        let Some(entry) = left.next() else {
            return Ok(());
        };
        put_entry(text, entry)?;
    }
    Ok(())
}

// The second line of an item.
fn put_shown_ranks(text: &mut Vec<u8>, item: &RecordView<'_>) -> Result<(), NoMemory>
    ensures extends { Extends text.old.items text.new.items }
    ensures ok { (version : ℕ) (shown : Item) → Shows version shown item.now
        → OnOk result (text.new.items ≡ text.old.items ++ ranks_line shown) }
{
    put(text, b"ranks")?;
    put_all_ranks(text, item.ranks)?;
    put(text, b"\n")
}

// The third line of an item.
fn put_shown_low(text: &mut Vec<u8>, item: &RecordView<'_>) -> Result<(), NoMemory>
    requires { IsShown item.now }
    ensures extends { Extends text.old.items text.new.items }
    ensures ok { (version : ℕ) (shown : Item) → Shows version shown item.now
        → OnOk result (text.new.items ≡ text.old.items ++ low_line 2 shown) }
{
    put_field(text, b"low ", item.low_rank)?;
    put_all_entries(text, item.low_vector)?;
    put(text, b"\n")
}

// The fourth line of an item.
fn put_shown_high(text: &mut Vec<u8>, item: &RecordView<'_>) -> Result<(), NoMemory>
    requires { IsShown item.now }
    ensures extends { Extends text.old.items text.new.items }
    ensures ok { (version : ℕ) (shown : Item) → Shows version shown item.now
        → OnOk result (text.new.items ≡ text.old.items ++ high_line 2 shown) }
{
    put(text, b"high")?;
    put_all_entries(text, item.high_vector)?;
    put(text, b"\n")
}

// All lines of an item.
fn put_shown(text: &mut Vec<u8>, item: &RecordView<'_>) -> Result<(), NoMemory>
    requires { IsShown item.now }
    ensures extends { Extends text.old.items text.new.items }
    ensures ok { (version : ℕ) (shown : Item) → Shows version shown item.now
        → OnOk result (text.new.items ≡ text.old.items ++ item_text 2 shown) }
{
    put_angle_line(text, item.num, item.den, item.low, item.high)?;
    put_shown_ranks(text, item)?;
    put_shown_low(text, item)?;
    put_shown_high(text, item)
}

/// Appends an item that is read from a map, of either version, as one of version 2, or leaves the
/// text as it was.
pub fn append_view(text: &mut Vec<u8>, item: &RecordView<'_>) -> Result<(), NoMemory>
    requires { IsShown item.now }
    ensures ok { (version : ℕ) (shown : Item) → Shows version shown item.now
        → OnOk result (text.new.items ≡ text.old.items ++ item_text 2 shown) }
    ensures err { OnErr result (text.new.items ≡ text.old.items) }
{
    let len = text.len();
    let put = put_shown(text, item);
    whole(text, len, put)
}
