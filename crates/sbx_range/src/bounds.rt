//! Ranges as sets of words: known words, ends, and how one range lies in another.
ghost use Rattle.std.specs.Prelude.{◌≡◌, ◌<◌, ◌^◌};
ghost use Rattle.v8_alu.specs.Results.{is_signed_word};
ghost use Rattle.sbx_range.specs.Rows.{greatest_alignment, least_alignment};
ghost use Rattle.sbx_range.specs.Ranges.{alignment_of, all, fit, is_natural, is_single, is_within, is_zero, known};
ghost use Rattle.sbx_range.specs.Ranges.{word_of};

use sbx_image::Range;

/// All words that are multiples of 2 to the power `alignment`.
pub fn all(alignment: u8) -> Range
    ensures { result ≡ all alignment }
{
    Range {
        lo: i32::MIN,
        hi: i32::MAX,
        alignment,
    }
}

/// Whether a number is a signed word.
pub fn is_signed_word(number: i64) -> bool
    ensures { result ≡ is_signed_word number }
{
    number >= -0x8000_0000 && number <= 0x7fff_ffff
}

/// The numbers from `lo` to `hi` where both are signed words, else all words, since a result may have wrapped.
pub fn fit(lo: i64, hi: i64, alignment: u8) -> Range
    ensures { result ≡ fit lo hi alignment }
{
    if is_signed_word(lo) && is_signed_word(hi) {
        Range {
            lo: lo as i32,
            hi: hi as i32,
            alignment,
        }
    } else {
        all(alignment)
    }
}

/// Whether a range has one number.
pub fn is_single(a: Range) -> bool
    ensures { result ≡ is_single a }
{
    a.lo == a.hi
}

/// The word of a range with one number.
pub fn word_of(a: Range) -> u32
    ensures value { result ≡ word_of a }
    ensures bound { result < 2 ^ 32 }
{
    a.lo.cast_unsigned()
}

/// Whether 0 is all that a range has.
pub fn is_zero(a: Range) -> bool
    ensures { result ≡ is_zero a }
{
    a.lo == 0 && a.hi == 0
}

/// Whether no number of a range is negative.
pub fn is_natural(a: Range) -> bool
    ensures { result ≡ is_natural a.lo }
{
    !(a.lo < 0)
}

/// The greatest power of two that divides a word, up to 8, as its exponent.
fn alignment_of(word: u32) -> u8
    ensures { result ≡ alignment_of word }
{
    if word & 7 == 0 {
        3
    } else if word & 3 == 0 {
        2
    } else if word & 1 == 0 {
        1
    } else {
        0
    }
}

/// The range of a known word: that number, with the greatest alignment that it has.
pub fn known(word: u32) -> Range
    ensures { result ≡ known word }
{
    let signed = word.cast_signed();
    Range {
        lo: signed,
        hi: signed,
        alignment: alignment_of(word),
    }
}

/// The lesser alignment of two ranges.
pub fn least_alignment(a: Range, b: Range) -> u8
    ensures { result ≡ least_alignment a b }
{
    a.alignment.min(b.alignment)
}

/// The greater alignment of two ranges.
pub fn greatest_alignment(a: Range, b: Range) -> u8
    ensures { result ≡ greatest_alignment a b }
{
    a.alignment.max(b.alignment)
}

/// Whether `inner` lies in `outer`: its ends within the other's, its alignment at least the other's.
pub fn is_within(inner: Range, outer: Range) -> bool
    ensures { result ≡ is_within inner outer }
{
    !(inner.lo < outer.lo) && !(outer.hi < inner.hi) && inner.alignment >= outer.alignment
}
