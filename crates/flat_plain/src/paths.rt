//! What a path weighs, and what it comes to on a machine with n windows.
ghost use Rattle.std.specs.Prelude.{◌≡◌, ◌+◌, ◌*◌, ◌^◌, ◌<◌, ◌≤◌, length};
ghost use Rattle.sbx_flat.specs.Runs.{weight, weight_at};
ghost use Rattle.v8_formats.specs.declared.instr.Three.{Three};
ghost use Rattle.v8_meaning.specs.declared.operation.Operation.TheVariants.{Restore, Save};
ghost use Rattle.sbx_flat.specs.Traffic.{after_operation, after_place, restored, saved, traffic};

use sbx_flat::{Place, Traffic, asked, weight_of, word_at};
use sbx_image::Image;
use v8_meaning::Operation;

/// What the step at a place counts.
#[tactic(auto, unfolding(sbx_flat::specs::Runs::weight_at))]
fn weight_at(image: &Image, place: &Place) -> u64
    ensures value { result ≡ weight_at image.now place.now }
    ensures bound { result ≤ 25 }
{
    if place.annulled {
        return 1;
    }
    match word_at(image.words(), place.pc) {
        Some(word) => weight_of(&asked(word)),
        None => 1,
    }
}

/// What a path weighs.
pub fn weight(image: &Image, path: &[Place]) -> u64
    requires { length path.now < 2 ^ 32 }
    ensures value { result ≡ weight image.now path.now }
    ensures bound { result ≤ 25 * length path.now }
{
    let mut sum = 0;
    let mut rest = path;
    while let Some((place, after)) = rest.split_first() {
        sum += weight_at(image, place);
        rest = after;
    }
    sum
}

/// The traffic after a SAVE, on n windows.
fn saved(n: u32, traffic: Traffic) -> Traffic
    requires windows { (1 ≤ traffic.windows) × (traffic.windows < n) }
    requires room { (traffic.turns + 25 < 2 ^ 64) × (traffic.overflows + 1 < 2 ^ 64) }
    ensures value { (f : Three) → result ≡ saved n (Save f) traffic }
    ensures windows { (1 ≤ result.windows) × (result.windows < n) }
    ensures bound { (result.turns ≤ traffic.turns + 25) × (result.overflows ≤ traffic.overflows + 1)
        × (result.underflows ≤ traffic.underflows + 1) }
{
    let mut after = traffic;
    if traffic.windows == n - 1 {
        after.overflows += 1;
        after.turns += 25;
    } else {
        after.windows += 1;
        after.turns += 1;
    }
    after
}

/// The traffic after a RESTORE.
fn restored(traffic: Traffic) -> Traffic
    requires windows { 1 ≤ traffic.windows }
    requires room { (traffic.turns + 25 < 2 ^ 64) × (traffic.underflows + 1 < 2 ^ 64) }
    ensures value { (f : Three) → result ≡ restored (Restore f) traffic }
    ensures windows { (1 ≤ result.windows) × (result.windows ≤ traffic.windows) }
    ensures bound { (result.turns ≤ traffic.turns + 25) × (result.overflows ≤ traffic.overflows + 1)
        × (result.underflows ≤ traffic.underflows + 1) }
{
    let mut after = traffic;
    if traffic.windows == 1 {
        after.underflows += 1;
        after.turns += 25;
    } else {
        after.windows -= 1;
        after.turns += 1;
    }
    after
}

/// The traffic with so many more turns.
fn with_turns(traffic: Traffic, turns: u64) -> Traffic
    requires { traffic.turns + turns < 2 ^ 64 }
    ensures { result ≡ record traffic { turns = traffic.turns + turns } }
{
    let mut after = traffic;
    after.turns += turns;
    after
}

/// The traffic after an operation, on n windows.
fn performed(n: u32, operation: &Operation, traffic: Traffic) -> Traffic
    requires windows { (1 ≤ traffic.windows) × (traffic.windows < n) }
    requires room { (traffic.turns + 25 < 2 ^ 64) × (traffic.overflows + 1 < 2 ^ 64)
        × (traffic.underflows + 1 < 2 ^ 64) }
    ensures value { result ≡ after_operation n operation.now traffic }
    ensures windows { (1 ≤ result.windows) × (result.windows < n) }
    ensures bound { (result.turns ≤ traffic.turns + 25) × (result.overflows ≤ traffic.overflows + 1)
        × (result.underflows ≤ traffic.underflows + 1) }
{
    match operation {
        Operation::Save(_) => saved(n, traffic),
        Operation::Restore(_) => restored(traffic),
        _ => with_turns(traffic, weight_of(operation)),
    }
}

/// The traffic with one more place.
#[tactic(auto, unfolding(sbx_flat::specs::Traffic::after_place))]
fn after(image: &Image, n: u32, place: &Place, traffic: Traffic) -> Traffic
    requires windows { (1 ≤ traffic.windows) × (traffic.windows < n) }
    requires room { (traffic.turns + 25 < 2 ^ 64) × (traffic.overflows + 1 < 2 ^ 64)
        × (traffic.underflows + 1 < 2 ^ 64) }
    ensures value { result ≡ after_place image.now n place.now traffic }
    ensures windows { (1 ≤ result.windows) × (result.windows < n) }
    ensures bound { (result.turns ≤ traffic.turns + 25) × (result.overflows ≤ traffic.overflows + 1)
        × (result.underflows ≤ traffic.underflows + 1) }
{
    match word_at(image.words(), place.pc) {
        Some(word) if !place.annulled => performed(n, &asked(word), traffic),
        _ => with_turns(traffic, 1),
    }
}

/// The window traffic of a path from a start, on a machine with n windows.
pub fn traffic(image: &Image, n: u32, path: &[Place]) -> Traffic
    requires { (2 ≤ n) × (length path.now < 2 ^ 32) }
    ensures { result ≡ traffic image.now n path.now }
{
    let mut traffic = Traffic {
        windows: 1,
        overflows: 0,
        underflows: 0,
        turns: 0,
    };
    let mut rest = path;
    while let Some((place, next)) = rest.split_first() {
        traffic = after(image, n, place, traffic);
        rest = next;
    }
    traffic
}
