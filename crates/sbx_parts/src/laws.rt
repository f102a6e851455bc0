//! The order of functions and blocks, the place of each word, and the places of the data.
ghost use Rattle.std.specs.Prelude.{◌≡◌, ℕ, ◌<◌, Bool, true, List, Some, Ok};
ghost use Rattle.sbx_parts.specs.declared.parts.Parts.{Parts};
ghost use Rattle.sbx_parts.specs.declared.parts.Region.{Region};
ghost use Rattle.sbx_parts.specs.Regions.{LieApart, LiesInOne, LiesInPages, data_at, data_start, in_one_region, placed};
ghost use Rattle.sbx_parts.specs.Rules.{parts_keep};
ghost use Rattle.sbx_parts.specs.Order.{AreInOrder, HavePlaces};

/// Functions and blocks of parts that keep each limit and order follow one another: the code begins with the first
/// function, a function with its first block, a block has one word of the code or more, and it ends where the next one
/// begins.
pub fn functions_and_blocks_are_in_order()
    ensures { (p : Parts) → parts_keep p ≡ Ok tt → AreInOrder p }
{}

/// Each word of their code is one word of one block of one function.
pub fn each_word_has_a_place()
    ensures { (p : Parts) → parts_keep p ≡ Ok tt → HavePlaces p }
{}

/// The regions of their data lie in the data's addresses, one behind the other, each from the start of a page on.
pub fn regions_lie_apart()
    ensures { (p : Parts) → parts_keep p ≡ Ok tt → LieApart data_start (placed p.regions) }
{}

/// Each byte of regions lies in their pages, which have its value there.
pub fn data_lie_in_their_pages()
    ensures { (regions : List Region) (address byte : ℕ) → data_at regions address ≡ Some byte →
        LiesInPages data_start regions address byte }
{}

/// Bytes that are in one region lie in pages with one right, which lets them be written where that is asked, and are
/// bytes of the data.
pub fn what_is_in_one_region_lies_in_pages_of_one_right()
    ensures { (regions : List Region) (address size : ℕ) (writes : Bool) → 0 < size →
        in_one_region regions address size writes ≡ true → LiesInOne data_start regions address size writes }
{}
