//! All rules at one word, and the step to the next.
ghost use Rattle.std.specs.Prelude.{◌≡◌, ◌<◌, ℕ, false, suc, None};
ghost use Rattle.sbx_rules.specs.Known.{known};
ghost use Rattle.sbx_image.specs.Order.{words_in};
ghost use Rattle.sbx_rules.specs.Rules.{Holds, has_bad_shape};
ghost use Rattle.sbx_rules.specs.Ways.{after_word, state_at, visits_at, weight_to};
ghost use Rattle.sbx_known.specs.Courses.{AreWell, IsStraight, is_branch, listed};
ghost use Rattle.sbx_pass.specs.Firsts.{Tells};
ghost use Rattle.sbx_known.specs.Spots.{IsSpot};

use crate::after::{end_call, fault_after};
use crate::before::fault_before;
use sbx_image::Image;
use sbx_known::{Courses, Spot, courses_of, perform_on};
use sbx_rules::{Cause, State};

/// The first of the rules 13 to 18 and 20 that a word breaks, once it has run on its ways. The states go on to what is
/// known then.
fn fault_once_run(
    image: &Image,
    spot: &Spot,
    weight: u64,
    courses: &Courses,
    here: &mut State,
    other: &mut State,
) -> Option<Cause>
    requires spot { IsSpot image.now spot.now }
    requires visits { visits_at image.now spot.now.function spot.now.block spot.now.number ≡
        listed courses.now (known here.old) (known other.old) }
    requires well { AreWell image.now spot.now.function courses.now }
    requires straight { is_branch spot.now.before ≡ false → IsStraight courses.now }
    requires weight { weight ≡ weight_to image.now spot.now.function spot.now.block (suc spot.now.number) }
    ensures told { Tells (Holds image.now spot.now.function spot.now.block spot.now.number) 13 21 result }
    ensures next { result ≡ None → is_branch spot.now.before ≡ false →
        known here.new ≡ after_word image.now spot.now.function spot.now.block spot.now.number (known here.old) }
{
    perform_on(image, spot, courses, here, other);
    if end_call(image, spot, here) {
        return Some(Cause::UnkeptCells);
    }
    fault_after(image, spot, weight, courses, here, other)
}

/// The first rule that a word breaks, where the one state is what is known before it, no word before it in its block
/// breaks the rule of shape, and the words up to it count so much. The state goes on to what is known before the next
/// word.
pub fn fault_at(
    image: &Image,
    spot: &Spot,
    weight: u64,
    here: &mut State,
    other: &mut State,
) -> Option<Cause>
    requires spot { IsSpot image.now spot.now }
    requires known { known here.old ≡ state_at image.now spot.now.function spot.now.block spot.now.number }
    requires shape { (j : ℕ) → j < spot.now.number →
        has_bad_shape image.now spot.now.function spot.now.block j ≡ false }
    requires weight { weight ≡ weight_to image.now spot.now.function spot.now.block (suc spot.now.number) }
    ensures told { Tells (Holds image.now spot.now.function spot.now.block spot.now.number) 1 21 result }
    ensures next { result ≡ None → suc spot.now.number < words_in image.now spot.now.function spot.now.block →
        known here.new ≡ state_at image.now spot.now.function spot.now.block (suc spot.now.number) }
{
    let courses = courses_of(image, spot, here, other);
    match fault_before(image, spot, &courses, here, other) {
        Some(cause) => Some(cause),
        None => fault_once_run(image, spot, weight, &courses, here, other),
    }
}
