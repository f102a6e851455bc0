//! What the handle of a run in pieces on the engine holds.
ghost use Rattle.std.specs.Prelude.{◌≡◌, ◌≢◌, ◌<◌, ◌≤◌};

use crate::admitting::{Lack, grant};
use crate::image_slot::Kept;
use crate::run_slot::Done;
use crate::statuses::{
    ENDED, FULL, HANDLE, LOST, MEMORY, OK, OUTPUT, PAUSED, SERVICES, TURNS, WANTS, WINDOWS,
};
use crate::terms::{LEAST_WINDOWS, MOST_WINDOWS, Terms};
use engine_runs::{FlatSession, FlatStand};
use std::alloc::Global;

/// A run that counts on as many windows as its image's terms say, and how many bytes of output it is still granted.
#[derive(Drop)]
pub struct EngineRun {
    pub paced: FlatSession,
    pub granted: u64,
}

/// A run, or none.
#[derive(Drop)]
pub struct EngineSlot {
    pub run: Option<EngineRun>,
}

/// The status of a step, and the exit word; the step might write so many bytes of so much room.
fn status_of(stand: FlatStand, most: usize, room: usize) -> (u32, u32)
    ensures ended { result.0 ≡ ENDED → stand ≡ FlatStand.Ended result.1 }
    ensures wants { result.0 ≡ WANTS → stand ≡ FlatStand.Wants }
    ensures full { result.0 ≡ FULL → (stand ≡ FlatStand.Full) × (room ≤ most) }
    ensures cut { result.0 ≡ OUTPUT → (stand ≡ FlatStand.Full) × (most < room) }
    ensures paused { result.0 ≡ PAUSED → stand ≡ FlatStand.Paused }
    ensures lost { result.0 ≡ LOST → stand ≡ FlatStand.Lost }
    ensures exit { result.0 ≢ ENDED → result.1 ≡ 0 }
    ensures holds { result.0 ≢ HANDLE }
{
    match stand {
        FlatStand::Ended(word) => (ENDED, word),
        FlatStand::Wants => (WANTS, 0),
        FlatStand::Full => (if most < room { OUTPUT } else { FULL }, 0),
        FlatStand::Paused => (PAUSED, 0),
        FlatStand::Refused(_want) => (MEMORY, 0),
        FlatStand::Lost => (LOST, 0),
    }
}

impl EngineRun {
    ghost use Rattle.geyserpan.specs.Engines.{GoesOn};

    /// Goes on with the run, and writes at most as many bytes as it is still granted.
    pub fn step(
        &mut self,
        turns: u64,
        input: &[u8],
        last: bool,
        room: &mut [u8],
        done: &mut Done,
    ) -> u32
        ensures { GoesOn self.old self.new turns input.now last room.old room.new done.new result }
    {
        let most = room.len().min(self.granted as usize);
        let size = room.len();
        let (front, _behind) = room.split_at_mut(most);
        let step = self.paced.step(turns, input, last, front);
        self.granted = self.granted.saturating_sub(step.written as u64);
        let (status, exit) = status_of(step.stand, most, size);
        *done = Done {
            turns: self.paced.counts().turns,
            read: step.read as u64,
            written: step.written as u64,
            exit,
            zero: 0,
        };
        status
    }
}

impl EngineSlot {
    ghost use Rattle.geyserpan.specs.Denials.{Grants, HasWindows};
    ghost use Rattle.geyserpan.specs.Engines.{Begins};
    ghost use Rattle.geyserpan.specs.Images.{IsRunDenial, parts_of};

    /// Begins a run of a kept image on these terms, in the place of the one that there is.
    pub fn begin(&mut self, alloc: Global, kept: &Kept, terms: &Terms) -> u32
        ensures begun { result ≡ OK → Begins (parts_of kept.now) terms.now self.new }
        ensures counted { result ≡ OK → HasWindows terms.now }
        ensures stays { result ≢ OK → self.new ≡ self.old }
        ensures windows { result ≡ WINDOWS → HasWindows terms.now → ⊥ }
        ensures holds { result ≢ HANDLE }
        ensures granted { (result ≢ SERVICES) × (result ≢ TURNS) }
    {
        if terms.windows < LEAST_WINDOWS || MOST_WINDOWS < terms.windows {
            return WINDOWS;
        }
        match FlatSession::of(alloc, kept.opened(), terms.windows) {
            Ok(paced) => {
                self.run = Some(EngineRun {
                    paced,
                    granted: terms.output,
                });
                OK
            }
            Err(_refused) => MEMORY,
        }
    }

    /// The same of a kept image, where these terms grant what it declares.
    pub fn begin_with(&mut self, alloc: Global, kept: &Kept, terms: &Terms) -> u32
        ensures begun { result ≡ OK → Begins (parts_of kept.now) terms.now self.new }
        ensures granted { result ≡ OK → Grants terms.now (parts_of kept.now) }
        ensures counted { result ≡ OK → HasWindows terms.now }
        ensures stays { result ≢ OK → self.new ≡ self.old }
        ensures windows { result ≡ WINDOWS → HasWindows terms.now → ⊥ }
        ensures denied { IsRunDenial (parts_of kept.now) terms.now result }
        ensures holds { result ≢ HANDLE }
    {
        if terms.windows < LEAST_WINDOWS || MOST_WINDOWS < terms.windows {
            return WINDOWS;
        }
        match grant(kept.held(), terms) {
            Ok(()) => self.begin(alloc, kept, terms),
            Err(Lack::Services) => SERVICES,
            Err(Lack::Turns) => TURNS,
        }
    }
}
