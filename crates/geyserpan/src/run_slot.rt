//! What the handle of a run in pieces holds.
ghost use Rattle.std.specs.Prelude.{◌≡◌, ◌≢◌, ◌<◌, ◌≤◌, false, None};
ghost use Rattle.sbx_session.specs.Steps.{IsVouched};

use crate::admitting::{Lack, grant};
use crate::image_slot::Kept;
use crate::statuses::{
    ENDED, FULL, HANDLE, LOST, MEMORY, OK, OUTPUT, PAUSED, SERVICES, TURNS, WANTS, WINDOWS,
};
use crate::terms::Terms;
use sbx_session::{Session, Stand};
use std::alloc::Global;

/// So many windows a run in pieces has.
const RUN_WINDOWS: u32 = 8;

/// What a step did: the turns of the run so far, how many bytes of the piece were read, how many were written to the
/// front of the room, and the exit word of a run that has ended.
#[repr(C)]
#[derive(Clone, Copy)]
pub struct Done {
    pub turns: u64,
    pub read: u64,
    pub written: u64,
    pub exit: u32,
    pub zero: u32,
}

/// A run on 8 windows, and how many bytes of output it is still granted.
#[derive(Drop)]
pub struct Going {
    pub session: Session<8>,
    pub granted: u64,
}

/// A run, or none.
#[derive(Drop)]
pub struct RunSlot {
    pub going: Option<Going>,
}

/// The status of a step, and the exit word; the step might write so many bytes of so much room.
fn status_of(stand: Stand, most: usize, room: usize) -> (u32, u32)
    ensures vouched { result.0 ≢ LOST → IsVouched stand }
    ensures ended { result.0 ≡ ENDED → stand ≡ Stand.Ended result.1 }
    ensures wants { result.0 ≡ WANTS → stand ≡ Stand.Wants }
    ensures full { result.0 ≡ FULL → (stand ≡ Stand.Full) × (room ≤ most) }
    ensures cut { result.0 ≡ OUTPUT → (stand ≡ Stand.Full) × (most < room) }
    ensures paused { result.0 ≡ PAUSED → stand ≡ Stand.Paused }
    ensures exit { result.0 ≢ ENDED → result.1 ≡ 0 }
    ensures holds { result.0 ≢ HANDLE }
{
    match stand {
        Stand::Ended(word) => (ENDED, word),
        Stand::Wants => (WANTS, 0),
        Stand::Full => (if most < room { OUTPUT } else { FULL }, 0),
        Stand::Paused => (PAUSED, 0),
        Stand::Lost => (LOST, 0),
    }
}

impl Going {
    ghost use Rattle.geyserpan.specs.Goings.{IsGoingOn};

    /// Goes on with the run, and writes at most as many bytes as it is still granted.
    pub fn step(
        &mut self,
        turns: u64,
        input: &[u8],
        last: bool,
        room: &mut [u8],
        done: &mut Done,
    ) -> u32
        ensures goes { IsGoingOn self.old self.new turns input.now last room.old room.new done.new result }
        ensures met { last ≡ false → self.new.session.met ≡ self.old.session.met }
    {
        let most = room.len().min(self.granted as usize);
        let size = room.len();
        let (front, _behind) = room.split_at_mut(most);
        let step = self.session.step(turns, input, last, front);
        self.granted = self.granted.saturating_sub(step.written as u64);
        let (status, exit) = status_of(step.stand, most, size);
        *done = Done {
            turns: self.session.turns(),
            read: step.read as u64,
            written: step.written as u64,
            exit,
            zero: 0,
        };
        status
    }
}

impl RunSlot {
    ghost use Rattle.geyserpan.specs.Denials.{Grants};
    ghost use Rattle.geyserpan.specs.Images.{IsRunDenial, parts_of};
    ghost use Rattle.geyserpan.specs.Runs.{Begins};

    /// Begins a run of a kept image on these terms, on the board that is there, else on a new one.
    pub fn begin(&mut self, alloc: Global, kept: &Kept, terms: &Terms) -> u32
        ensures begun { result ≡ OK → Begins (parts_of kept.now) terms.now self.new }
        ensures eight { result ≡ OK → terms.now.windows ≡ 8 }
        ensures stays { result ≢ OK → self.new ≡ self.old }
        ensures windows { result ≡ WINDOWS → terms.now.windows ≢ 8 }
        ensures holds { result ≢ HANDLE }
        ensures granted { (result ≢ SERVICES) × (result ≢ TURNS) }
    {
        if self.going.is_some() {
            return self.restart(kept, terms);
        }
        if terms.windows != RUN_WINDOWS {
            return WINDOWS;
        }
        match Session::new(alloc, kept.held()) {
            Ok(session) => {
                self.going = Some(Going {
                    session,
                    granted: terms.output,
                });
                OK
            }
            Err(_refused) => MEMORY,
        }
    }

    /// Begins a run of a kept image on these terms, on the board that is there.
    pub fn restart(&mut self, kept: &Kept, terms: &Terms) -> u32
        ensures begun { result ≡ OK → Begins (parts_of kept.now) terms.now self.new }
        ensures eight { result ≡ OK → terms.now.windows ≡ 8 }
        ensures stays { result ≢ OK → self.new ≡ self.old }
        ensures windows { result ≡ WINDOWS → terms.now.windows ≢ 8 }
        ensures empty { result ≡ HANDLE → self.old.going ≡ None }
        ensures granted { (result ≢ SERVICES) × (result ≢ TURNS) }
    {
        if terms.windows != RUN_WINDOWS {
            return WINDOWS;
        }
        match &mut self.going {
            Some(going) => {
                going.session.restart(kept.held());
                going.granted = terms.output;
                OK
            }
            None => HANDLE,
        }
    }

    /// Begins a run of a kept image as `begin` does, where these terms grant what it declares.
    pub fn begin_with(&mut self, alloc: Global, kept: &Kept, terms: &Terms) -> u32
        ensures begun { result ≡ OK → Begins (parts_of kept.now) terms.now self.new }
        ensures granted { result ≡ OK → Grants terms.now (parts_of kept.now) }
        ensures eight { result ≡ OK → terms.now.windows ≡ 8 }
        ensures stays { result ≢ OK → self.new ≡ self.old }
        ensures windows { result ≡ WINDOWS → terms.now.windows ≢ 8 }
        ensures denied { IsRunDenial (parts_of kept.now) terms.now result }
        ensures holds { result ≢ HANDLE }
    {
        if terms.windows != RUN_WINDOWS {
            return WINDOWS;
        }
        match grant(kept.held(), terms) {
            Ok(()) => self.begin(alloc, kept, terms),
            Err(Lack::Services) => SERVICES,
            Err(Lack::Turns) => TURNS,
        }
    }
}
