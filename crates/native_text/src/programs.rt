//! A whole program in C: what it was made of, its data, and its body twice, as a run and as a run by steps.
ghost use Rattle.std.specs.Prelude.{◌≡◌, ℕ, List, ◌++◌, IfOk, OnOk, false, length};
ghost use Rattle.native_text.specs.Lines.{body_lines};
ghost use Rattle.native_text.specs.Spelling.{all_points, lines_text};
ghost use Rattle.native_text.specs.Programs.{IsPadded, constant_text, head_text, joined, resumes_text, twice_text};
ghost use Rattle.native_text.specs.Words.{AreWordLines, AreWordRows, AreWords, IsWord};
ghost use Rattle.native_text.specs.Reading.{ReadsBack};

use crate::points::{Heads, pause_points};
use crate::statements::Body;
use crate::text::ProgramText;
use native_lang::{NativeProgram, ProgramBlock};
use std::alloc::{AllocError, Global};

/// What a program was made of.
#[derive(Clone, Copy)]
pub struct ImageNote<'a> {
    /// The SHA-256 of the image's file.
    pub image: &'a [u8],
    /// The bytes of its stack's pages.
    pub stack_bytes: u32,
}

/// The body of all blocks.
fn body_of(alloc: Global, blocks: &[ProgramBlock], heads: &Heads) -> Result<Body, AllocError>
    ensures text { IfOk result (λ body. body.text
        ≡ lines_text 0 false (body_lines heads.now.marks.items 0 blocks.now)) }
    ensures points { IfOk result (λ body. body.points ≡ all_points 0 (body_lines heads.now.marks.items 0 blocks.now)) }
    ensures words { OnOk result (AreWordLines (body_lines heads.now.marks.items 0 blocks.now)) }
{
    let mut body = Body::new(alloc);
    let mut label = 0u32;
    for block in blocks {
        body.block(block, label, heads.has(label))?;
        label = label.wrapping_add(1);
    }
    Ok(body)
}

impl ProgramText {
    /// A constant's line.
    fn constant(&mut self, name: &str, value: u32) -> Result<(), AllocError>
        ensures { OnOk result (self.new ≡ self.old ++ constant_text name.now value) }
    {
        self.put("#define ")?;
        self.put(name)?;
        self.put(" ")?;
        self.word(value)?;
        self.put("\n")
    }

    /// What the header has to know of a program.
    fn head(&mut self, program: &NativeProgram, named: &ImageNote<'_>) -> Result<(), AllocError>
        ensures { OnOk result ((rows : List (List ℕ)) × IsPadded (joined rows) program.now.data.items
            × (self.new ≡ self.old
            ++ head_text (length program.now.data.items) named.now.stack_bytes named.now.image.now rows)
            × IsWord named.now.stack_bytes × AreWords named.now.image.now × AreWordRows rows) }
    {
        self.put("/* An accepted image as C, by Geyserpan's `native`. */\n")?;
        self.constant("GP_DATA_BYTES", program.data.len() as u32)?;
        self.constant("GP_STACK_BYTES", named.stack_bytes)?;
        self.put("#define GP_IMAGE {")?;
        self.bytes(named.image)?;
        self.put("}\n#include \"geyserpan_native.h\"\n")?;
        self.array("static const uint8_t gp_start[]", program.data.as_slice())
    }

    /// The body twice.
    fn bodies(&mut self, body: &Body) -> Result<(), AllocError>
        ensures { OnOk result (self.new ≡ self.old ++ twice_text body.now.text body.now.points) }
    {
        self.put("\nRUN_BEGINS\n")?;
        self.put_all(&body.text)?;
        self.put("RUN_ENDS\n\n#define GP_STEPS\n#include \"geyserpan_native.h\"\n\nSTEP_BEGINS\n")?;
        self.resumes(body.points)?;
        self.put("STEP_RESUMES\n")?;
        self.put_all(&body.text)?;
        self.put("STEP_ENDS\n")
    }

    /// Where a run by steps goes on.
    fn resumes(&mut self, points: u32) -> Result<(), AllocError>
        ensures { OnOk result (self.new ≡ self.old ++ resumes_text points) }
    {
        for point in 0..points {
            self.put("    RESUME(")?;
            self.number(point.wrapping_add(1))?;
            self.put(");\n")?;
        }
        Ok(())
    }
}

/// A program as C. Its lines are read as the program's blocks, its head is the data's, and no other lines have its text.
pub fn write_program(
    alloc: Global,
    program: &NativeProgram,
    named: &ImageNote<'_>,
) -> Result<ProgramText, AllocError>
    ensures { IfOk result (λ text. ReadsBack text program.now named.now) }
{
    let heads = pause_points(alloc, program.blocks.as_slice())?;
    let body = body_of(alloc, program.blocks.as_slice(), &heads)?;
    let mut text = ProgramText::new(alloc);
    text.head(program, named)?;
    text.bodies(&body)?;
    Ok(text)
}
