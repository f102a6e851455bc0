//! The condition of a branch's other way, and the range that is left where two ways meet.
ghost use Rattle.std.specs.Prelude.{◌≡◌, ◌≤◌};
ghost use Rattle.std.specs.Int.{int_max, int_min};
ghost use Rattle.sbx_range.specs.Refining.{opposite};

use sbx_parts::Range;
use v8_word::Cond;

/// The condition of a branch's other way.
pub fn opposite(cond: Cond) -> Cond
    ensures { result ≡ opposite cond }
{
    match cond {
        Cond::Never => Cond::Always,
        Cond::Equal => Cond::NotEqual,
        Cond::LessOrEqual => Cond::Greater,
        Cond::Less => Cond::GreaterOrEqual,
        Cond::LessOrEqualUnsigned => Cond::GreaterUnsigned,
        Cond::CarrySet => Cond::CarryClear,
        Cond::Negative => Cond::Positive,
        Cond::OverflowSet => Cond::OverflowClear,
        Cond::Always => Cond::Never,
        Cond::NotEqual => Cond::Equal,
        Cond::Greater => Cond::LessOrEqual,
        Cond::GreaterOrEqual => Cond::Less,
        Cond::GreaterUnsigned => Cond::LessOrEqualUnsigned,
        Cond::CarryClear => Cond::CarrySet,
        Cond::Positive => Cond::Negative,
        Cond::OverflowClear => Cond::OverflowSet,
    }
}

/// The least range that holds the words of both.
pub fn hull(a: Range, b: Range) -> Range
    ensures lo { result.lo ≡ int_min a.lo b.lo }
    ensures hi { result.hi ≡ int_max a.hi b.hi }
    ensures alignment { (result.alignment ≤ a.alignment) × (result.alignment ≤ b.alignment) }
{
    Range {
        lo: a.lo.min(b.lo),
        hi: a.hi.max(b.hi),
        alignment: a.alignment.min(b.alignment),
    }
}
