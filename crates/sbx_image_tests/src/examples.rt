//! Where regions lie, and what they hold, on worked lists of them.
ghost use Rattle.std.specs.Prelude.{◌≡◌, ℕ, List, [], ◌∷◌, length, true, false, None};
ghost use Rattle.sbx_image.specs.Regions.{data_at, in_one_region, page_rights};
ghost use Rattle.sbx_image_tests.specs.Pair.{pair};

/// Two regions of one page each, of which the first may be read alone: 8 bytes are in the first or in the second, and
/// those across the end of the first in none.
pub fn regions_that_abut_are_two()
    ensures rights { (a b : List ℕ) → length a ≡ 4096 → length b ≡ 4096 → page_rights (pair a b) ≡ false ∷ true ∷ [] }
    ensures first { (a b : List ℕ) → length a ≡ 4096 → length b ≡ 4096 →
        in_one_region (pair a b) 0x80FF8 8 false ≡ true }
    ensures across { (a b : List ℕ) → length a ≡ 4096 → length b ≡ 4096 →
        in_one_region (pair a b) 0x80FFC 8 false ≡ false }
    ensures second { (a b : List ℕ) → length a ≡ 4096 → length b ≡ 4096 →
        in_one_region (pair a b) 0x81000 8 true ≡ true }
    ensures read_only { (a b : List ℕ) → length a ≡ 4096 → length b ≡ 4096 →
        in_one_region (pair a b) 0x80000 8 true ≡ false }
{}

/// A region of 8 bytes takes a page, whose other addresses are in no region; the next one begins behind it.
pub fn the_rest_of_a_page_is_no_data()
    ensures held { (a b : List ℕ) → length a ≡ 8 → length b ≡ 8 → in_one_region (pair a b) 0x80000 8 false ≡ true }
    ensures past { (a b : List ℕ) → length a ≡ 8 → length b ≡ 8 → in_one_region (pair a b) 0x80004 8 false ≡ false }
    ensures rest { (a b : List ℕ) → length a ≡ 8 → length b ≡ 8 → in_one_region (pair a b) 0x80008 8 false ≡ false }
    ensures next { (a b : List ℕ) → length a ≡ 8 → length b ≡ 8 → in_one_region (pair a b) 0x81000 8 true ≡ true }
    ensures byte { (a b : List ℕ) → length a ≡ 8 → length b ≡ 8 → data_at (pair a b) 0x80008 ≡ None }
{}
