//! Relations between the states of two runs, for the law that makes an image safe by one.
ghost use Rattle.std.specs.Prelude.{◌≡◌, ℕ};
ghost use Rattle.sbx_image.specs.Parts.{Parts};
ghost use Rattle.sbx_flat.specs.States.{State};

use std::marker::Brand;

/// A relation of a weight so far and two states, for each image. A law about `I: Relation` holds of every relation, and
/// a proof may pick the one that it means at `Brand`.
pub trait Relation {
    ghost related: { Parts → ℕ → State → State → Type 0 };
}

impl Relation for Brand {
    ghost related = { λ parts w s t. s ≡ t };
}
