//! Runs, and what their paths come to.
ghost use Rattle.std.specs.Prelude.{◌≡◌, IfOk};
ghost use Rattle.sbx_flat.specs.Runs.{place_of, reached_by};
ghost use Rattle.sbx_flat.specs.States.{State};
ghost use Rattle.flat_plain.specs.Comes.{IsRan};
ghost use Rattle.flat_plain.specs.Shows.{Shows};

use crate::machine::Plain;
use crate::turned::Turned;
use sbx_flat::{Place, Wrong, asked, word_at};
use sbx_image::Image;
use std::alloc::{AllocError, Global};
use v8_meaning::Operation;

/// How a run ended.
#[derive(Clone, Copy)]
pub enum Ending {
    /// With this exit word.
    Exit(u32),
    /// Its last state is wrong.
    Failed(Wrong),
    /// Its limit was met.
    Limit,
}

/// What a run gave: the places of its steps, and how it ended.
#[derive(Drop)]
pub struct Ran {
    pub path: Vec<Place>,
    pub ending: Ending,
}

impl Plain<'_> {
    /// The address of the data that an operation reaches.
    fn reached(&self, operation: &Operation) -> Option<u32>
        ensures { (s : State) → Shows self.now s → result ≡ reached_by operation.now s }
    {
        match operation {
            Operation::Transfer(_, operand) => Some(self.address(operand)),
            _ => None,
        }
    }

    /// Where the next step is.
    #[tactic(auto, unfolding(sbx_flat::specs::Runs::place_of))]
    pub fn place(&self, image: &Image) -> Place
        ensures { (s : State) → Shows self.now s → result ≡ place_of image.now s }
    {
        let address = if self.annulled {
            None
        } else {
            match word_at(image.words(), self.pc) {
                Some(word) => self.reached(&asked(word)),
                None => None,
            }
        };
        Place {
            pc: self.pc,
            annulled: self.annulled,
            address,
        }
    }

    /// At most `limit` steps. Where memory is refused the machine is of no more use.
    pub fn run(
        &mut self,
        alloc: Global,
        image: &Image,
        fill: u32,
        limit: u32,
    ) -> Result<Ran, AllocError>
        ensures { IfOk result (λ ran. (s : State) → Shows self.old s →
            IsRan image.now fill limit s self.new ran.path.items ran.ending) }
    {
        let mut path = Vec::new(alloc);
        for _count in 0..limit {
            if let Some(word) = self.exit {
                return Ok(Ran {
                    path,
                    ending: Ending::Exit(word),
                });
            }
            let place = self.place(image);
            match self.step(alloc, image, fill)? {
                Turned::Went => path.push(place)?,
                Turned::Failed(why) => {
                    return Ok(Ran {
                        path,
                        ending: Ending::Failed(why),
                    });
                }
            }
        }
        Ok(Ran {
            path,
            ending: Ending::Limit,
        })
    }
}
