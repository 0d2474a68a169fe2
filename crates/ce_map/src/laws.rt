// What is true of every map file. Each law stands on a function that does nothing.
ghost use Rattle.std.specs.Prelude.{◌≡◌, ◌≢◌, ◌⊎◌, ◌++◌, ℕ, List, drop, length, take};
ghost use Rattle.std.specs.List.{flat_map};
ghost use Rattle.ce_map.specs.Digits.{IsNumber};
ghost use Rattle.ce_map.specs.Fits.{HasEnd, HasHeader, HasItem, IsUnfit, LacksHeader};
ghost use Rattle.ce_map.specs.Grammar.{Header, IsHeader, header_line, Item, IsItem, item_text};
ghost use Rattle.ce_map.specs.Grammar.{end_line, IsMapOf};
ghost use Rattle.ce_map.specs.PartGrammar.{IsPartHeader, part_line};
ghost use Rattle.ce_map.specs.Walk.{IsItemStep, IsWholeWalk, Walk, left_of};
ghost use Rattle.ce_map.specs.declared.record_view.RecordView.{RecordView};

/// No spelling of a header begins another one, and each is the spelling of one header.
pub fn headers_have_one_spelling()
    ensures header { (h g : Header) (x y : List ℕ) → IsHeader h → IsHeader g
        → header_line h ++ x ≡ header_line g ++ y → h ≡ g }
    ensures rest { (h g : Header) (x y : List ℕ) → IsHeader h → IsHeader g
        → header_line h ++ x ≡ header_line g ++ y → x ≡ y }
{}

/// No spelling of an item begins another one of its version, and each is the spelling of one item.
pub fn items_have_one_spelling()
    ensures item { (version : ℕ) (i j : Item) (x y : List ℕ) → IsItem i → IsItem j
        → item_text version i ++ x ≡ item_text version j ++ y → i ≡ j }
    ensures rest { (version : ℕ) (i j : Item) (x y : List ℕ) → IsItem i → IsItem j
        → item_text version i ++ x ≡ item_text version j ++ y → x ≡ y }
{}

/// No spelling of an end begins another one or an item, and each is the spelling of one number.
pub fn ends_have_one_spelling()
    ensures count { (m n : ℕ) (x y : List ℕ) → IsNumber m → IsNumber n
        → end_line m ++ x ≡ end_line n ++ y → m ≡ n }
    ensures rest { (m n : ℕ) (x y : List ℕ) → IsNumber m → IsNumber n
        → end_line m ++ x ≡ end_line n ++ y → x ≡ y }
    ensures no_item { (version count : ℕ) (item : Item) (x y : List ℕ)
        → item_text version item ++ x ≢ end_line count ++ y }
{}

/// The bytes of a map give back its header, its items and its end.
pub fn maps_have_one_spelling()
    ensures header { (bytes : List ℕ) (h g : Header) (xs ys : List Item) (m n : ℕ)
        → IsMapOf bytes h xs m → IsMapOf bytes g ys n → h ≡ g }
    ensures items { (bytes : List ℕ) (h g : Header) (xs ys : List Item) (m n : ℕ)
        → IsMapOf bytes h xs m → IsMapOf bytes g ys n → xs ≡ ys }
    ensures count { (bytes : List ℕ) (h g : Header) (xs ys : List Item) (m n : ℕ)
        → IsMapOf bytes h xs m → IsMapOf bytes g ys n → m ≡ n }
{}

/// The text of an item that a walk takes is the slice of the bytes at the item's place; and a
/// header, the items after it and the end, joined, are the bytes up to the place after the end.
pub fn walks_join_to_their_bytes()
    ensures slice { (w : Walk) (view : RecordView) (v : Walk) → IsItemStep w view v
        → view.text.now ≡ take (length view.text.now) (drop view.from w.bytes) }
    ensures joined { (bytes : List ℕ) (h : Header) (views : List RecordView) (count : ℕ) (v : Walk)
        → IsWholeWalk bytes h views count v
        → bytes ≡ header_line h ++ (flat_map (λ view. view.text.now) views
        ++ (end_line count ++ left_of v)) }
{}

/// A header stands at the front of a text, or none does. Where parts are expected, an item or an
/// end stands there, or there is a first line that does not fit.
pub fn each_text_has_a_next_part()
    ensures header { (text : List ℕ) → HasHeader text ⊎ LacksHeader text }
    ensures part { (version : ℕ) (text : List ℕ) → HasItem version text
        ⊎ (HasEnd text ⊎ ((lines : ℕ) × IsUnfit version text lines)) }
{}

/// No spelling of a part's header begins another one, and each is the spelling of one header.
pub fn part_headers_have_one_spelling()
    ensures header { (h g : Header) (x y : List ℕ) → IsPartHeader h → IsPartHeader g
        → part_line h ++ x ≡ part_line g ++ y → h ≡ g }
    ensures rest { (h g : Header) (x y : List ℕ) → IsPartHeader h → IsPartHeader g
        → part_line h ++ x ≡ part_line g ++ y → x ≡ y }
{}
