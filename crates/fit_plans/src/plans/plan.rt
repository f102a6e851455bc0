//! Tests, where the run ends if one fails, and how what isn't shown is tested.
use crate::lacks::{Ask, NotShown, UnshownAccess, needed_alignment};
use fit_code::{Program, RegisterSet, SourceLine};
use fit_origin::{Origin, WordBounds, bounds_in_constants, bounds_of};
use sbx_range::{Range, all};
use v8_formats::Operand;

/// What a test asks for. The exit word is 65,536 times its number and the line.
#[derive(Clone, Copy)]
pub enum TestKind {
    /// That an index lies in an object.
    Index = 1,
    /// That an address lies in the data.
    Pointer = 2,
    /// That a divisor isn't 0.
    Divisor = 3,
}

impl TestKind {
    /// The exit word of a run that ends where a test in a line fails.
    pub fn exit_word(self, line: SourceLine) -> i32 {
        self as i32 * 65_536 + line.number.min(0xffff) as i32
    }
}

/// What is asked of a register's word, and where.
#[derive(Clone, Copy)]
pub struct TestPlan {
    pub kind: TestKind,
    /// What is known of the index, the address or the divisor.
    pub range: Range,
    pub register: u8,
    /// The word has to lie within these, which also name the object that an index is one of; of a divisor they say
    /// nothing.
    pub bounds: WordBounds,
    /// It has to be a multiple of 2 to this power, where that isn't known; else 0.
    pub alignment: u8,
    /// Before the steps of these places of the block the register has that word: from the first to the last.
    pub first: usize,
    pub last: usize,
    /// What may not be in use where the test stands.
    pub changed: RegisterSet,
    /// How it is seen that the word lies within its bounds; of a divisor this says nothing, too.
    pub way: TestWay,
    /// The same among the constants, where a load that doesn't pass the first test may pass this one.
    pub constants: Option<TestWay>,
    /// Whether nothing can be said of the word that isn't known.
    pub says_nothing: bool,
}

/// How it is seen that a word lies from `lo` to `hi`.
#[derive(Clone, Copy)]
pub enum TestWay {
    /// That is known.
    Known,
    /// As an unsigned word it isn't above `hi`.
    Above(i32),
    /// As an unsigned word it isn't above a number, once another one is subtracted.
    Within { lo: i32, length: i32 },
    /// It never does.
    Never,
}

/// A test that was put into a program.
#[derive(Clone, Copy)]
pub struct Test {
    pub line: SourceLine,
    pub function: usize,
    /// Where the run ends if it fails.
    pub exit: usize,
    /// The first block of the test, and the one to which control goes where the test isn't needed.
    pub head: usize,
    pub rest: usize,
    /// What is tested.
    pub plan: TestPlan,
}

/// The scratch register that the sum of an access's two parts is put into, %g7.
pub const SUM: u8 = 7;

/// Nothing is said of the bounds of a divisor.
const NO_BOUNDS: WordBounds = WordBounds {
    lo: 0,
    hi: 0,
    object: None,
};

/// How it is seen that a word of which this is known lies in bounds, where it has to be a multiple of 2 to a power that
/// isn't known, if that is above 0. The numbers that the word is compared with have to be signed words. The first one
/// is a multiple of whatever the word is known to be a multiple of: that stays known where it is subtracted and given
/// back, so that no test takes from what another one has shown.
fn way_in(range: Range, bounds: WordBounds, alignment: u8) -> TestWay {
    let WordBounds { lo, hi, object } = bounds;
    let (least, greatest) = (range.lo as i64, range.hi as i64);
    if hi < lo {
        return TestWay::Never;
    }
    if (lo <= least) & (greatest <= hi) {
        return TestWay::Known;
    }
    let first = if (lo < 0) & (least >= 0) {
        0
    } else {
        // such a multiple that isn't below, and of 8 where no object is known
        let power = if object.is_none() {
            3
        } else {
            alignment.max(range.alignment).min(3)
        };
        let low = (1i64 << power).saturating_sub(1);
        lo.saturating_add(low) & !low
    };
    let is_from_0 = first == 0;
    match (
        i32::try_from(first),
        i32::try_from(hi.saturating_sub(first)),
    ) {
        (Ok(_), Ok(hi)) if is_from_0 & (hi >= 0) => TestWay::Above(hi),
        (Ok(lo), Ok(length)) if length >= 0 => TestWay::Within { lo, length },
        _ => TestWay::Never,
    }
}

/// How an access is tested by the register that its address is worked out from. A load that doesn't lie in the data
/// that may be written may lie among the constants. A sum that stands in %g7 for the access alone is tested there: the
/// other scratch registers weren't in use before it.
fn plan_by(program: &Program, access: &UnshownAccess, origin: &Origin) -> TestPlan {
    let size = access.size as i64;
    let known = origin.range.unwrap_or(all(0));
    // So many low bits are 0 in each multiple of the factor.
    let trailing = origin.times.trailing_zeros().min(3) as u8;
    let needed = needed_alignment(access.size).saturating_sub(trailing);
    let alignment = if known.alignment < needed { needed } else { 0 };
    let bounds = bounds_of(program, origin, size, access.writes);
    let way = way_in(known, bounds, alignment);
    let is_known = matches!(way, TestWay::Known);
    let mut constants = None;
    if !(access.writes | bounds.object.is_some() | is_known)
        && let Some(others) = bounds_in_constants(program, origin, size)
    {
        constants = Some(way_in(known, others, alignment));
    }
    let (kind, range) = match bounds.object {
        Some(_) => (TestKind::Index, known),
        None => (TestKind::Pointer, access.range),
    };
    let (first, changed) = if origin.register == SUM {
        (origin.last, RegisterSet::CODES_AND_Y)
    } else {
        let changed = RegisterSet::CODES_AND_Y.union(RegisterSet::SCRATCH);
        (origin.first, changed)
    };
    TestPlan {
        kind,
        range,
        register: origin.register,
        bounds,
        alignment,
        first,
        last: origin.last,
        changed,
        way,
        constants,
        says_nothing: is_known & (alignment == 0),
    }
}

/// How a divisor is tested that stands in a register at a place.
fn plan_of_divisor(register: u8, range: Range, place: usize) -> TestPlan {
    TestPlan {
        kind: TestKind::Divisor,
        range,
        register,
        bounds: NO_BOUNDS,
        alignment: 0,
        first: place,
        last: place,
        changed: RegisterSet::CODES,
        way: TestWay::Never,
        constants: None,
        says_nothing: false,
    }
}

/// How what isn't shown is tested, where it is a divisor or an address: that by what it is worked out from, if more can
/// be known of that, else by the address itself, if one register has it.
pub fn plan_of(program: &Program, ask: &Ask) -> Option<TestPlan> {
    let access = match &ask.lack {
        NotShown::Placed(access) => access,
        NotShown::Divisible(Operand::Register(register), range) => {
            return Some(plan_of_divisor(register.number(), *range, ask.place));
        }
        _ => return None,
    };
    let mut object = None;
    if let Some(origin) = &access.origin {
        // one that isn't a multiple of the access's size says nothing of the register's low bits
        let offset = origin.constant & i64::from(access.size).saturating_sub(1);
        let plan = plan_by(program, access, origin);
        if !plan.says_nothing & (offset == 0) {
            return Some(plan);
        }
        object = origin.object;
    }
    let (first, second) = access.parts;
    if first.number() != SUM || !matches!(second, Operand::Immediate(0)) {
        return None;
    }
    let origin = Origin {
        register: SUM,
        times: 1,
        constant: 0,
        first: ask.place,
        last: ask.place,
        range: Some(access.range),
        object,
    };
    Some(plan_by(program, access, &origin))
}
