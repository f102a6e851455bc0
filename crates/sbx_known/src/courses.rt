//! The ways on which a word runs.
ghost use Rattle.std.specs.Prelude.{◌≡◌, ◌-◌, ◌<◌, ℕ, IfSome, None, Ok, Some, false, length};
ghost use Rattle.std.specs.List.{list_any};
ghost use Rattle.v8_meaning.specs.declared.operation.Operation.TheVariants.{BranchOnCondition};
ghost use Rattle.sbx_rules.specs.Known.{Known, known};
ghost use Rattle.sbx_image.specs.Rules.{parts_keep};
ghost use Rattle.sbx_range.specs.Refining.{opposite};
ghost use Rattle.sbx_image.specs.Order.{function_at};
ghost use Rattle.sbx_rules.specs.Places.{IsPlace};
ghost use Rattle.sbx_rules.specs.Rules.{is_back, is_inner_edge, is_past};
ghost use Rattle.sbx_rules.specs.Ways.{Way, branch_way, falls, taken_visit, untaken_visit};
ghost use Rattle.sbx_known.specs.Courses.{AreWell, IsStraight, IsWell, is_any, is_branch, listed, runs, visits_of};
ghost use Rattle.sbx_known.specs.Courses.{way_of};
ghost use Rattle.sbx_known.specs.Spots.{IsSpot, visits_from};

use crate::places::{address_of, find_block, function_at};
use crate::spot::Spot;
use sbx_faults::ends_run;
use sbx_image::Image;
use sbx_rules::State;
use v8_formats::Branch;
use v8_meaning::{Operation, is_always, target};
use v8_word::Cond;

/// Where control goes after a word.
#[derive(Clone, Copy)]
pub enum Going {
    /// To the next word of the block.
    Next,
    /// To a block of the function, by number.
    To(usize),
    /// Back to the caller.
    Back,
    /// Nowhere: the run is over.
    Over,
    /// Past the function's last word.
    Past,
    /// To a place that is no block of the function.
    Astray,
}

/// A way on which a word runs, but for what is known there.
#[derive(Clone, Copy)]
pub struct Course {
    pub going: Going,
    pub annulled: bool,
}

/// The ways on which a word runs: one, or in a branch's slot those of its two edges that can be taken. What is known on
/// the first stands in one state, what is known on the second in another.
#[derive(Clone, Copy)]
pub struct Courses {
    pub first: Option<Course>,
    pub second: Option<Course>,
}

/// The condition of a branch's other edge.
fn opposite(cond: Cond) -> Cond
    ensures { result ≡ opposite cond }
{
    match cond {
        Cond::Never => Cond::Always,
        Cond::Equal => Cond::NotEqual,
        Cond::LessOrEqual => Cond::Greater,
        Cond::Less => Cond::GreaterOrEqual,
        Cond::LessOrEqualUnsigned => Cond::GreaterUnsigned,
        Cond::CarrySet => Cond::CarryClear,
        Cond::Negative => Cond::Positive,
        Cond::OverflowSet => Cond::OverflowClear,
        Cond::Always => Cond::Never,
        Cond::NotEqual => Cond::Equal,
        Cond::Greater => Cond::LessOrEqual,
        Cond::GreaterOrEqual => Cond::Less,
        Cond::GreaterUnsigned => Cond::LessOrEqualUnsigned,
        Cond::CarryClear => Cond::CarrySet,
        Cond::Positive => Cond::Negative,
        Cond::OverflowClear => Cond::OverflowSet,
    }
}

/// Whether a word runs on a way, and isn't annulled there.
pub fn runs(course: Option<Course>) -> bool
    ensures { result ≡ runs course }
{
    match course {
        Some(course) => !course.annulled,
        None => false,
    }
}

/// Whether a way leads to a block that isn't the first.
pub fn is_inner_edge(going: Going) -> bool
    ensures { result ≡ is_inner_edge (way_of going) }
{
    match going {
        Going::To(block) => block > 0,
        _ => false,
    }
}

/// Whether a way leads back to the caller.
pub fn comes_back(course: Option<Course>) -> bool
    ensures { (d : Known) → result ≡ is_any (λ v. is_back v.way) course d }
{
    match course {
        Some(course) => matches!(course.going, Going::Back),
        None => false,
    }
}

/// Whether a way leads past the function's last word.
fn goes_past(course: Option<Course>) -> bool
    ensures { (d : Known) → result ≡ is_any (λ v. is_past v.way) course d }
{
    match course {
        Some(course) => matches!(course.going, Going::Past),
        None => false,
    }
}

/// Whether some way leads back to the caller.
#[tactic(auto, using(crate::proofs::Visiting::two))]
pub fn some_comes_back(courses: &Courses) -> bool
    ensures { (d e : Known) → result ≡ list_any (λ v. is_back v.way) (listed courses.now d e) }
{
    comes_back(courses.first) || comes_back(courses.second)
}

/// Whether some way leads past the function's last word.
#[tactic(auto, using(crate::proofs::Visiting::two))]
pub fn some_goes_past(courses: &Courses) -> bool
    ensures { (d e : Known) → result ≡ list_any (λ v. is_past v.way) (listed courses.now d e) }
{
    goes_past(courses.first) || goes_past(courses.second)
}

/// On from a word.
#[tactic(auto, unfolding(sbx_rules::specs::Ways::falls))]
fn falls(image: &Image, spot: &Spot) -> Going
    requires { IsSpot image.now spot.now }
    ensures way { way_of result ≡ falls image.now spot.now.function spot.now.block spot.now.number }
    ensures well { IsWell image.now spot.now.function result }
{
    if ends_run(&spot.operation) {
        Going::Over
    } else if spot.number + 1 < spot.count {
        Going::Next
    } else if spot.block + 1 < function_at(image, spot.function).blocks.len() {
        Going::To(spot.block + 1)
    } else {
        Going::Past
    }
}

/// Where a branch at a word of a block goes.
#[tactic(auto, unfolding(sbx_rules::specs::Ways::branch_way))]
pub fn branch_way(
    image: &Image,
    function: usize,
    block: usize,
    number: usize,
    displacement: u32,
) -> Going
    requires keeps { parts_keep image.now ≡ Ok tt }
    requires place { IsPlace image.now function block number }
    ensures way { way_of result ≡ branch_way image.now function block number displacement }
    ensures well { IsWell image.now function result }
{
    let address = target(address_of(image, function, block, number), displacement);
    match find_block(function_at(image, function).blocks.as_slice(), address) {
        Some(block) => Going::To(block),
        None => Going::Astray,
    }
}

/// The edge of a branch before a word where it is taken, if what is known lets it be.
fn taken(image: &Image, spot: &Spot, branch: &Branch, state: &mut State) -> Option<Course>
    requires spot { IsSpot image.now spot.now }
    requires branch { spot.now.before ≡ BranchOnCondition branch.now }
    ensures visits { visits_of result (known state.new) ≡
        taken_visit branch.now
        (branch_way image.now spot.now.function spot.now.block (spot.now.number - 1) branch.now.displacement)
        (known state.old) }
    ensures well { IfSome result (λ c. IsWell image.now spot.now.function c.going) }
{
    if state.refine(branch.cond) {
        let number = spot.number - 1;
        Some(Course {
            going: branch_way(
                image,
                spot.function,
                spot.block,
                number,
                branch.displacement,
            ),
            annulled: branch.annul && is_always(branch.cond),
        })
    } else {
        None
    }
}

/// The edge of a branch before a word where it isn't taken, if it is one that needn't be and what is known lets it not
/// be.
fn untaken(image: &Image, spot: &Spot, branch: &Branch, state: &mut State) -> Option<Course>
    requires { IsSpot image.now spot.now }
    ensures visits { visits_of result (known state.new) ≡
        untaken_visit branch.now (falls image.now spot.now.function spot.now.block spot.now.number) (known state.old) }
    ensures well { IfSome result (λ c. IsWell image.now spot.now.function c.going) }
{
    if !is_always(branch.cond) && state.refine(opposite(branch.cond)) {
        Some(Course {
            going: falls(image, spot),
            annulled: branch.annul,
        })
    } else {
        None
    }
}

/// Copies what is known before a branch for its untaken edge, if it has one.
fn copy_for(branch: &Branch, here: &State, other: &mut State)
    ensures { (way : Way) →
        untaken_visit branch.now way (known other.new) ≡ untaken_visit branch.now way (known here.now) }
{
    if !is_always(branch.cond) {
        here.copy_to(other);
    }
}

/// One way, on which the word isn't annulled.
fn only(going: Going) -> Courses
    ensures { result ≡ record { first = Some (record { going = going; annulled = false }); second = None } }
{
    let first = Some(Course {
        going,
        annulled: false,
    });
    Courses {
        first,
        second: None,
    }
}

/// The ways on which a word runs, where the one state is what is known before it. In a branch's slot it is refined for
/// the taken edge, and the other state for the untaken one.
pub fn courses_of(image: &Image, spot: &Spot, here: &mut State, other: &mut State) -> Courses
    requires { IsSpot image.now spot.now }
    ensures visits { visits_from image.now spot.now.function spot.now.block spot.now.number spot.now.before
        (known here.old) ≡ listed result (known here.new) (known other.new) }
    ensures well { AreWell image.now spot.now.function result }
    ensures straight { is_branch spot.now.before ≡ false → IsStraight result }
    ensures same { is_branch spot.now.before ≡ false → here.new ≡ here.old }
{
    match &spot.before {
        Operation::BranchOnCondition(branch) => {
            copy_for(branch, here, other);
            Courses {
                first: taken(image, spot, branch, here),
                second: untaken(image, spot, branch, other),
            }
        }
        Operation::JumpAndLink(_) => only(Going::Back),
        _ => only(falls(image, spot)),
    }
}
