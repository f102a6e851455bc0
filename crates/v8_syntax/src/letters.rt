// Which forms have a name that begins with a letter.
ghost use Rattle.std.specs.Prelude.{◌≡◌, ◌<◌, ◌≤◌, ◌==◌, ℕ, List, All, [], get_or, map, slice_index};
ghost use Rattle.std.specs.List.{filter};
ghost use Rattle.v8_forms.specs.Forms.{Form, form_of, forms};

use v8_forms::{Row, forms};

/// The numbers of the forms by the first letters of their names, from `a` to `z`, in their order.
static BY_LETTER: [&[u8]; 26] = [
    &[0, 1, 5, 8, 14, 15, 19, 22], // a
    &[71, 74, 75, 76, 77, 78, 99, 100, 101, 102], // b
    &[67, 79, 81, 103, 104, 105, 106], // c
    &[95, 96, 97, 98], // d
    &[], // e
    &[66], // f
    &[], // g
    &[], // h
    &[91, 92, 93, 94], // i
    &[64, 80], // j
    &[], // k
    &[38, 39, 40, 41, 42, 43, 44, 50, 51, 52, 53, 54, 55, 56], // l
    &[32, 107, 108, 109], // m
    &[87, 88, 89, 90, 110], // n
    &[2, 6, 16, 20], // o
    &[], // p
    &[], // q
    &[37, 62, 65, 83, 84, 86], // r
    &[
        4, 10, 11, 13, 18, 24, 25, 27, 33, 34, 35, 36, 45, 46, 47, 48, 49, 57, 58, 59, 60, 61, 68,
        70, 85,
    ], // s
    &[28, 29, 30, 31, 72, 73, 82], // t
    &[9, 12, 23, 26, 69], // u
    &[], // v
    &[63], // w
    &[3, 7, 17, 21], // x
    &[], // y
    &[], // z
];

/// The form of a number.
pub fn form(number: u8) -> &'static Row
    requires { number < 111 }
    ensures { (d : Form) → form_of result.now ≡ get_or forms number d }
{
    &forms()[usize::from(number)]
}

/// The items at a place of a table; none behind its end.
fn items_at(table: &[&'static [u8]], place: usize) -> &'static [u8]
    ensures { result.now ≡ get_or (map (λ s. s.now) table.now) place [] }
{
    match table.get(place) {
        Some(items) => items,
        None => &[],
    }
}

/// The numbers of the forms whose names begin with a letter, in their order.
pub fn numbers_from(letter: u8) -> &'static [u8]
    ensures within { All (λ k. k < 111) result.now }
    ensures forms { (d : Form) →
        map (λ k. get_or forms k d) result.now ≡ filter (λ f. slice_index f.name 0 == letter) forms }
{
    if letter < b'a' {
        return &[];
    }
    items_at(&BY_LETTER, usize::from(letter - b'a'))
}
