//! What steps come to on a machine with n windows, of which one stays free for traps: windows are counted, and not
//! made.
ghost use Rattle.std.specs.Prelude.{◌≡◌, ◌<◌, ◌≤◌, ◌^◌};
ghost use Rattle.std.specs.Option.{option_copied};
ghost use Rattle.sbx_image.specs.Parts.{Parts};
ghost use Rattle.sbx_flat.specs.declared.path.Place.{Place};
ghost use Rattle.sbx_flat.specs.Runs.{weight_of};
ghost use Rattle.sbx_flat.specs.Traffic.{after_operation, after_place};
ghost use Rattle.engine_runs.specs.Next.{IsMore, next_at};

use engine_store::Decoded;
use sbx_flat::{Operation, Traffic};

/// The most turns that a step counts.
const MOST: u64 = 25;

/// The traffic after a decoded word, on n windows. With every window taken a SAVE spills the oldest frame; with one
/// window taken a RESTORE fills the frame before into it.
fn count_word(n: u32, next: &Decoded, traffic: Traffic) -> Traffic
    requires windows { (1 ≤ traffic.windows) × (traffic.windows < n) }
    requires room { (traffic.turns ≤ 2 ^ 62) × (traffic.overflows ≤ traffic.turns)
        × (traffic.underflows ≤ traffic.turns) }
    ensures value { weight_of next.now.operation ≤ 25 → 1 ≤ weight_of next.now.operation →
        next.now.weight ≡ weight_of next.now.operation → result ≡ after_operation n next.now.operation traffic }
    ensures more { IsMore n traffic result }
{
    let mut after = traffic;
    match next.operation {
        Operation::Save(_) => {
            if traffic.windows == n - 1 {
                after.overflows += 1;
                after.turns += MOST;
                return after;
            }
            after.windows += 1;
            after.turns += 1;
            after
        }
        Operation::Restore(_) => {
            if traffic.windows == 1 {
                after.underflows += 1;
                after.turns += MOST;
                return after;
            }
            after.windows -= 1;
            after.turns += 1;
            after
        }
        _ => {
            after.turns += u64::from(next.weight).clamp(1, MOST);
            after
        }
    }
}

/// The traffic after the next step, of a decoded word or of none, on n windows.
#[inline(always)]
pub(crate) fn count(n: u32, next: Option<&Decoded>, traffic: Traffic) -> Traffic
    requires windows { (1 ≤ traffic.windows) × (traffic.windows < n) }
    requires room { (traffic.turns ≤ 2 ^ 62) × (traffic.overflows ≤ traffic.turns)
        × (traffic.underflows ≤ traffic.turns) }
    ensures value { (parts : Parts) (place : Place) → option_copied next.entry ≡ next_at parts place →
        result ≡ after_place parts n place traffic }
    ensures more { IsMore n traffic result }
{
    let Some(decoded) = next else {
        let mut after = traffic;
        after.turns += 1;
        return after;
    };
    count_word(n, decoded, traffic)
}
