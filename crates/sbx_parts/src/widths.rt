//! What the types of an image's fields say of its numbers, as one statement about its parts.
ghost use Rattle.std.specs.Prelude.{◌<◌, ◌^◌};
ghost use Rattle.sbx_parts.specs.Regions.{AreBytes};
ghost use Rattle.sbx_parts.specs.Widths.{IsTyped, IsTypedBlock, IsTypedCell, IsTypedFunction, IsTypedRange};
ghost use Rattle.sbx_parts.specs.Widths.{IsTypedRegion, IsTypedTerm};

use crate::lists::{Typed, each_fits};
use crate::parts::{Block, Cell, Function, Parts, Range, Region, Term};

impl Typed for Range {
    ghost is_typed = { IsTypedRange };

    fn fits(&self) {
        let _lo = self.lo;
        let _hi = self.hi;
    }
}

impl Typed for Cell {
    ghost is_typed = { IsTypedCell };

    fn fits(&self) {
        self.range.fits();
    }
}

impl Typed for Term {
    ghost is_typed = { IsTypedTerm };

    fn fits(&self) {
        let _coefficient = self.coefficient;
    }
}

impl Typed for Block {
    ghost is_typed = { IsTypedBlock };

    fn fits(&self) {
        let _address = self.address;
        let _fuel = self.fuel;
        each_fits(self.cells.as_slice());
        each_fits(self.terms.as_slice());
    }
}

impl Typed for Function {
    ghost is_typed = { IsTypedFunction };

    fn fits(&self) {
        let _entry = self.entry;
        let _depth = self.depth;
        each_fits(self.params.as_slice());
        each_fits(self.results.as_slice());
        each_fits(self.blocks.as_slice());
    }
}

/// Tells that bytes are bytes.
fn tells_bytes(bytes: &[u8])
    ensures { AreBytes bytes.now }
{
    let _count = bytes.len();
}

impl Typed for Region {
    ghost is_typed = { IsTypedRegion };

    fn fits(&self) {
        tells_bytes(self.bytes.as_slice());
    }
}

impl Typed for u32 {
    ghost is_typed = { λ word. word < 2 ^ 32 };

    fn fits(&self) {
        let _word = *self;
    }
}

impl Parts {
    /// Each number of the parts is one that its field can hold. It changes nothing, and takes time in proportion to
    /// them.
    pub fn fit(&self)
        ensures { IsTyped self.now }
    {
        let _version = self.version;
        let _services = self.services.0;
        each_fits(self.words.as_slice());
        each_fits(self.regions.as_slice());
        each_fits(self.functions.as_slice());
    }
}
