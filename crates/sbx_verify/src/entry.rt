//! What an image declares of the function where a run begins.
ghost use Rattle.std.specs.Prelude.{◌≡◌};
ghost use Rattle.sbx_flat.specs.Runs.{budget};

use sbx_image::Image;

/// The budget of the function where a run begins, in turns.
pub fn budget(image: &Image) -> u64
    ensures { result ≡ budget image.now }
{
    match image.functions().first() {
        None => 0,
        Some(function) => function.budget,
    }
}
