//! Why a reader may stop at a fault, as a law about lists of bytes.
ghost use Rattle.std.specs.Prelude.{◌≡◌, ◌++◌, ℕ, List, Err};
ghost use Rattle.sbx_image.specs.ImageFault.{ImageFault};
ghost use Rattle.sbx_image.specs.Reading.{reading};
ghost use Rattle.sbx_reader.specs.Fronts.{front};

/// A fault that a front of bytes tells is the fault of all bytes that begin with it.
pub fn a_front_keeps_its_fault()
    ensures { (bytes more : List ℕ) (fault : ImageFault) → front bytes ≡ Err fault →
        reading (bytes ++ more) ≡ Err fault }
{}
