//! What the handle of an image holds.
ghost use Rattle.std.specs.Arc.{arc_value};
ghost use Rattle.std.specs.Prelude.{◌≡◌, ◌≢◌, ℕ, IfOk, List};
ghost use Rattle.geyserpan.specs.Denials.{IsDenial};
ghost use Rattle.geyserpan.specs.declared.terms.Terms.{Terms};
ghost use Rattle.geyserpan.specs.declared.terms.Why.{Why};

use crate::statuses::{HANDLE, MEMORY, OK};
use crate::terms::Terms;
use engine_runs::Opened;
use sbx_run::Accepted;
use std::alloc::{AllocError, Global};
use std::sync::Arc;

/// An accepted image with its words decoded, which other handles may hold too, and the terms that it was admitted on.
#[derive(Drop)]
pub struct Kept {
    pub opened: Arc<Opened>,
    pub terms: Terms,
}

impl Kept {
    ghost use Rattle.geyserpan.specs.Images.{parts_of};

    /// The image.
    pub fn held(&self) -> &Accepted
        ensures { result.now ≡ parts_of self.now }
    {
        self.opened.accepted()
    }

    /// The image with its words decoded.
    pub fn opened(&self) -> &Opened
        ensures { result.now ≡ parts_of self.now }
    {
        &self.opened
    }
}

/// An accepted image with its words decoded, of which there may be several owners.
fn opened_of(alloc: Global, accepted: Accepted) -> Result<Arc<Opened>, AllocError>
    ensures { IfOk result (λ opened. arc_value opened ≡ accepted) }
{
    let opened = Opened::new(alloc, accepted)?;
    Ok(Arc::new(alloc, opened)?)
}

/// An image, or none.
#[derive(Drop)]
pub struct ImageSlot {
    pub kept: Option<Kept>,
}

impl ImageSlot {
    ghost use Rattle.geyserpan.specs.Images.{Holds, parts_of};

    /// Holds an image that these terms admit, in the place of the one that there is.
    pub fn keep(&mut self, alloc: Global, accepted: Accepted, terms: &Terms) -> u32
        ensures kept { result ≡ OK → Holds self.new accepted terms.now }
        ensures stays { result ≢ OK → self.new ≡ self.old }
        ensures holds { result ≢ HANDLE }
        ensures denies_not { (bytes : List ℕ) → (of : Terms) → (why : Why) → IsDenial bytes of result why }
    {
        match opened_of(alloc, accepted) {
            Ok(opened) => {
                self.kept = Some(Kept {
                    opened,
                    terms: *terms,
                });
                OK
            }
            Err(_refused) => MEMORY,
        }
    }

    /// Holds the image that another handle keeps, on its terms, in the place of the one that there is.
    pub fn share(&mut self, kept: &Kept) -> u32
        ensures shared { result ≡ OK → Holds self.new (parts_of kept.now) kept.now.terms }
        ensures stays { result ≢ OK → self.new ≡ self.old }
        ensures holds { result ≢ HANDLE }
    {
        match Arc::try_clone(&kept.opened) {
            Ok(opened) => {
                self.kept = Some(Kept {
                    opened,
                    terms: kept.terms,
                });
                OK
            }
            Err(_full) => MEMORY,
        }
    }
}
