//! What a host is told of an image.
ghost use Rattle.std.specs.Prelude.{◌≡◌};
ghost use Rattle.geyserpan.specs.Facts.{HasFacts, depth_of};

use sbx_image::Image;
use sbx_run::budget;

/// What an image asks for, and what it is made of.
#[repr(C)]
#[derive(Clone, Copy)]
pub struct Facts {
    pub budget: u64,
    pub services: u32,
    pub version: u32,
    pub words: u32,
    pub data_bytes: u32,
    pub stack_pages: u32,
    pub functions: u32,
    pub depth: u32,
    pub zero: u32,
}

/// The declared call depth of the function where a run begins; 0 in images of versions 1 and 2.
fn depth_of(image: &Image) -> u32
    ensures { result ≡ depth_of image.now }
{
    match image.functions().first() {
        None => 0,
        Some(function) => u32::from(function.depth),
    }
}

/// The facts of an image.
pub fn facts_of(image: &Image) -> Facts
    ensures { HasFacts image.now result }
{
    Facts {
        budget: budget(image),
        services: u32::from(image.services().0),
        version: u32::from(image.version()),
        words: image.word_count(),
        data_bytes: image.byte_count(),
        stack_pages: u32::from(image.stack_pages()),
        functions: u32::from(image.function_count()),
        depth: depth_of(image),
        zero: 0,
    }
}
