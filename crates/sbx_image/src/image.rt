//! Parts that keep every limit and order of the format.
ghost use Rattle.std.specs.Prelude.{◌≡◌, ◌≤◌, length, All, Ok, Err, IfOk, IfErr};
ghost use Rattle.sbx_image.specs.Spelling.{IsCountedFunction, IsTyped};
ghost use Rattle.sbx_parts.specs.Regions.{IsSized, byte_count, holds, page_rights, start_of};
ghost use Rattle.sbx_parts.specs.Rules.{parts_keep};

use sbx_parts::{Function, ImageFault, Parts, Region, Services, byte_count, holds, start_of};
use std::marker::Model;

/// An image: parts that keep every limit and order of the format. Contracts see the parts.
#[derive(Drop)]
pub struct Image {
    parts: Parts,
}

impl Model for Image {
    ghost use Rattle.std.specs.Prelude.{◌≡◌, Ok};
    ghost use Rattle.sbx_parts.specs.declared.parts.Parts.{Parts};

    ghost Value = { Parts };

    ghost use Rattle.sbx_parts.specs.Rules.{parts_keep};

    ghost view = { λ a. a.parts };

    ghost invariant = { λ a. parts_keep a.parts ≡ Ok tt };
}

impl Image {
    /// The image of parts that keep every rule.
    pub(crate) fn of(parts: Parts) -> Image
        requires { parts_keep parts ≡ Ok tt }
        ensures { result ≡ parts }
    {
        Image { parts }
    }

    /// The image of parts that keep every limit and order, made without memory. Else the parts come back as they
    /// are, with the fault of the first field, in the order of the format, that breaks a rule: `Version`, `Service`,
    /// `Limit`, `Order` or `Range`.
    pub fn from_parts(parts: Parts) -> Result<Image, (Parts, ImageFault)>
        ensures made { IfOk result (λ image. (image ≡ parts) × (parts_keep parts ≡ Ok tt)) }
        ensures refused { IfErr result (λ back. (back.0 ≡ parts) × (parts_keep parts ≡ Err back.1)) }
    {
        match parts.check() {
            Ok(()) => Ok(Image::of(parts)),
            Err(fault) => Err((parts, fault)),
        }
    }

    /// The version of the format, 1 to 3.
    pub fn version(&self) -> u16
        ensures value { result ≡ self.now.version }
        ensures some { 1 ≤ result }
        ensures few { result ≤ 3 }
    {
        self.parts.version
    }

    /// The services that it may ask for.
    pub fn services(&self) -> Services
        ensures { result ≡ self.now.services }
    {
        self.parts.services
    }

    /// The code.
    pub fn words(&self) -> &[u32]
        ensures { result.now ≡ self.now.words }
    {
        self.parts.words.as_slice()
    }

    /// How many words of code there are, 1 to 65,536.
    #[tactic(auto, using(sbx_parts::proofs::Limits::words_within))]
    pub fn word_count(&self) -> u32
        ensures count { result ≡ length self.now.words }
        ensures some { 1 ≤ result }
        ensures few { result ≤ 65536 }
    {
        self.parts.words.len() as u32
    }

    /// How many bytes of data there are in all regions, up to 262,144.
    pub fn byte_count(&self) -> u32
        ensures count { result ≡ byte_count self.now.regions }
        ensures few { result ≤ 262144 }
    {
        byte_count(self.parts.regions.as_slice())
    }

    /// How many functions there are, 1 to 256.
    #[tactic(auto, using(sbx_parts::proofs::Limits::functions_within))]
    pub fn function_count(&self) -> u16
        ensures { result ≡ length self.now.functions }
    {
        self.parts.functions.len() as u16
    }

    /// The regions of data: the first begins at the start of the data's addresses, each next one at the page behind the
    /// last page of the one before. They take at most 64 pages.
    pub fn regions(&self) -> &[Region]
        ensures value { result.now ≡ self.now.regions }
        ensures few { length self.now.regions ≤ 8 }
        ensures pages { length (page_rights self.now.regions) ≤ 64 }
        ensures sizes { All IsSized self.now.regions }
    {
        self.parts.regions.as_slice()
    }

    /// The address of the first byte of the region with a number, counted from 0; nothing where there are not so many
    /// regions.
    pub fn region_start(&self, index: usize) -> Option<u32>
        ensures { result ≡ start_of self.now.regions index }
    {
        start_of(self.parts.regions.as_slice(), index)
    }

    /// Whether one region has all bytes from the address `low` up to but not at `high`, and may be written where
    /// `writes` is set.
    pub fn holds(&self, low: i64, high: i64, writes: bool) -> bool
        ensures { result ≡ holds self.now.regions low high writes }
    {
        holds(self.parts.regions.as_slice(), low, high, writes)
    }

    /// Pages of stack, 1 to 16.
    #[tactic(auto, using(sbx_parts::proofs::Limits::stack_within))]
    pub fn stack_pages(&self) -> u16
        ensures count { result ≡ self.now.stack_pages }
        ensures some { 1 ≤ result }
        ensures few { result ≤ 16 }
    {
        self.parts.stack_pages
    }

    /// The functions, by entry; a run begins in the first. The length of each list is one that its count can say.
    #[tactic(auto, using(sbx_parts::proofs::Limits::functions_counted))]
    pub fn functions(&self) -> &[Function]
        ensures value { result.now ≡ self.now.functions }
        ensures counted { All IsCountedFunction self.now.functions }
    {
        self.parts.functions.as_slice()
    }

    /// Each limit and order of the format holds, and each number is one that its field can hold. It changes nothing,
    /// and takes time in proportion to the image.
    pub fn keeps_its_format(&self)
        ensures kept { parts_keep self.now ≡ Ok tt }
        ensures typed { IsTyped self.now }
    {
        self.parts.fit();
    }

    /// The parts, without taking memory.
    pub fn into_parts(self) -> Parts
        ensures { result ≡ self }
    {
        let Image { parts } = self;
        parts
    }
}
