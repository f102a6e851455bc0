//! What the rules know at a word.
ghost use Rattle.std.specs.Prelude.{◌≡◌, IfErr, IfOk, Ok};
ghost use Rattle.sbx_image.specs.Rules.{parts_keep};
ghost use Rattle.sbx_image.specs.Order.{address_of};
ghost use Rattle.sbx_rules.specs.Places.{IsPlace};
ghost use Rattle.sbx_rules.specs.Verdicts.{KnownAt};
ghost use Rattle.inspect_known.specs.Sights.{IsAfter, IsReason, IsSeen, ways_seen};

use crate::enter::enter;
use crate::find::find_word;
use sbx_domain::State;
use sbx_image::Image;
use sbx_known::{Courses, Spot, courses_of, perform_on, return_to};
use std::alloc::{AllocError, Global};
use want::Want;

/// A word, the ways on which it runs, and what is known before it on each.
#[derive(Drop)]
pub struct Sight {
    pub spot: Spot,
    /// What the words of its block count up to its own end, in turns.
    pub weight: u64,
    pub courses: Courses,
    /// What is known on the first way, if there is one.
    pub first: State,
    /// What is known on the second way, if there is one.
    pub second: State,
}

/// Why nothing is known at an address.
#[derive(Clone, Copy, PartialEq, Eq)]
pub enum NotKnown {
    /// The image has no function of that number.
    NoFunction,
    /// No word of that function stands at the address.
    NoWord,
    /// Memory was refused for what is known at the word.
    NoMemory(Want),
}

/// The sight of a word, by the numbers of function, block and word. It fails where memory is refused.
fn sight_of(
    alloc: Global,
    image: &Image,
    function: usize,
    block: usize,
    number: usize,
) -> Result<Sight, AllocError>
    requires keeps { parts_keep image.now ≡ Ok tt }
    requires place { IsPlace image.now function block number }
    ensures seen { IfOk result (λ sight. IsSeen image.now sight) }
    ensures place { IfOk result (λ sight. (sight.spot.function ≡ function) × (sight.spot.block ≡ block)
        × (sight.spot.number ≡ number)) }
{
    let mut first = State::new(alloc)?;
    let mut second = State::new(alloc)?;
    let (spot, weight) = enter(image, function, block, number, &mut first);
    let courses = courses_of(image, &spot, &mut first, &mut second);
    Ok(Sight {
        spot,
        weight,
        courses,
        first,
        second,
    })
}

/// What the rules know at the word of a function, by its number, that stands at an address in bytes: the ways on which
/// the word runs, with what is known before it on each. The rules that the image breaks elsewhere don't matter.
#[tactic(auto, using(crate::proofs::Seeing::is_known))]
pub fn known_at(
    alloc: Global,
    image: &Image,
    function: u16,
    address: u32,
) -> Result<Sight, NotKnown>
    ensures known { IfOk result (λ sight. KnownAt image.now function address (ways_seen sight)) }
    ensures seen { IfOk result (λ sight. IsSeen image.now sight) }
    ensures place { IfOk result (λ sight. (sight.spot.function ≡ function)
        × (address ≡ address_of image.now function sight.spot.block sight.spot.number)) }
    ensures not_known { IfErr result (λ reason. IsReason image.now function address reason) }
{
    image.keeps_its_format();
    let function = usize::from(function);
    if function >= image.functions().len() {
        return Err(NotKnown::NoFunction);
    }
    let Some((block, number)) = find_word(image, function, address) else {
        return Err(NotKnown::NoWord);
    };
    match sight_of(alloc, image, function, block, number) {
        Ok(sight) => Ok(sight),
        Err(error) => Err(NotKnown::NoMemory(Want::from(error))),
    }
}

/// The same word and ways, with what is known after the word on each, where control leaves it: a call that the word
/// ends has had its effect.
pub fn after(image: &Image, sight: Sight) -> Sight
    requires { IsSeen image.now sight }
    ensures { IsAfter image.now sight result }
{
    let Sight {
        spot,
        weight,
        courses,
        mut first,
        mut second,
    } = sight;
    perform_on(image, &spot, &courses, &mut first, &mut second);
    return_to(image, &spot, &mut first);
    Sight {
        spot,
        weight,
        courses,
        first,
        second,
    }
}
