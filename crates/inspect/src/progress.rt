//! How far a run has come, on standard error.
use inspect_run::Progress;
use std::time::Instant;

/// A line on standard error each second, from the first on.
#[derive(Drop)]
pub struct Lines<'a> {
    rt: &'a HostRuntime,
    last: Option<Instant>,
}

impl<'a> Lines<'a> {
    /// No line yet.
    pub fn new(rt: &'a HostRuntime) -> Self {
        Lines {
            rt,
            last: Instant::now(rt).ok(),
        }
    }
}

impl Progress for Lines<'_> {
    fn made(&mut self, turns: u64) {
        let (Some(last), Ok(now)) = (self.last, Instant::now(self.rt)) else {
            return;
        };
        if now.duration_since(last).as_secs() > 0 {
            self.last = Some(now);
            let _ = eprintln!(self.rt; "inspect: {turns} turns");
        }
    }
}
