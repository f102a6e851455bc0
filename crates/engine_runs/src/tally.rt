//! What a run comes to so far, on a machine of so many windows.
ghost use Rattle.std.specs.Prelude.{◌<◌, ◌≤◌, ◌^◌};

use crate::counts::count;
use engine_store::Decoded;
use sbx_flat::Traffic;

/// The counts of a run so far, on a machine of so many windows.
#[derive(Clone, Copy)]
pub struct Tally {
    pub windows: u32,
    pub traffic: Traffic,
    pub ghost some: { 1 ≤ traffic.windows },
    pub ghost free: { traffic.windows < windows },
    pub ghost few: { traffic.turns ≤ 2 ^ 62 },
    pub ghost overflows: { traffic.overflows ≤ traffic.turns },
    pub ghost underflows: { traffic.underflows ≤ traffic.turns },
}

impl Tally {
    ghost use Rattle.std.specs.Prelude.{◌≡◌, ◌+◌, IfSome, IsNone};
    ghost use Rattle.std.specs.Option.{option_copied};
    ghost use Rattle.sbx_image.specs.Parts.{Parts};
    ghost use Rattle.sbx_flat.specs.declared.path.Place.{Place};
    ghost use Rattle.sbx_flat.specs.Traffic.{after_place, no_traffic};
    ghost use Rattle.engine_runs.specs.Next.{next_at};

    /// Before the first step, on so many windows.
    pub fn new(windows: u32) -> Tally
        requires { 2 ≤ windows }
        ensures windows { result.windows ≡ windows }
        ensures nothing { result.traffic ≡ no_traffic }
    {
        Tally {
            windows,
            traffic: Traffic {
                windows: 1,
                overflows: 0,
                underflows: 0,
                turns: 0,
            },
        }
    }

    /// Counts turns up to this count, behind which so many windows are taken, and each of which found one.
    #[inline(always)]
    pub fn count_up_to(&mut self, turns: u64, windows: u32)
        requires onward { self.old.traffic.turns ≤ turns }
        requires few { turns ≤ 2 ^ 62 }
        requires taken { (1 ≤ windows) × (windows < self.old.windows) }
        ensures windows { self.new.windows ≡ self.old.windows }
        ensures turns { self.new.traffic ≡ record self.old.traffic { windows = windows; turns = turns } }
    {
        self.traffic.windows = windows;
        self.traffic.turns = turns;
    }

    /// The counts behind the next step, of a decoded word or of none; None where they would have more turns than the
    /// limit.
    #[inline(always)]
    pub fn after(self, next: Option<&Decoded>, limit: u64) -> Option<Tally>
        requires { limit ≤ 2 ^ 62 }
        ensures counted { IfSome result (λ after. (parts : Parts) → (place : Place) →
            option_copied next.entry ≡ next_at parts place →
            after.traffic ≡ after_place parts self.windows place self.traffic) }
        ensures windows { IfSome result (λ after. after.windows ≡ self.windows) }
        ensures more { IfSome result (λ after. self.traffic.turns < after.traffic.turns) }
        ensures within { IfSome result (λ after. after.traffic.turns ≤ limit) }
        ensures short { IsNone result → limit < self.traffic.turns + 25 }
    {
        let traffic = count(self.windows, next, self.traffic);
        if traffic.turns > limit {
            return None;
        }
        Some(Tally {
            windows: self.windows,
            traffic,
        })
    }
}
