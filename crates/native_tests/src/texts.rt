//! A small program's lines; where a call returns to; an array of the most bytes.
ghost use Rattle.std.specs.Prelude.{◌≤◌};

use native_lang::{Arm, BlockEnd, Expr, NativeProgram, NumberWidth, Operator, ProgramBlock, Stmt};
use native_text::{ImageNote, write_program};
use std::alloc::{AllocError, Global};

/// Whether a text has a part.
fn has(text: &[u8], part: &str) -> bool {
    for at in 0..text.len() {
        if text[at..].starts_with(part.as_bytes()) {
            return true;
        }
    }
    false
}

/// A block of no statement.
fn bare(alloc: Global, end: BlockEnd) -> ProgramBlock {
    ProgramBlock {
        statements: Vec::new(alloc),
        end,
    }
}

/// Puts a block that gets a byte, and goes on at the end of the input.
fn put_getting(alloc: Global, blocks: &mut Vec<ProgramBlock>) -> Result<(), AllocError> {
    let mut statements = Vec::new(alloc);
    statements.push(Stmt::Get(8))?;
    let byte = Box::new(alloc, Expr::Variable(8))?;
    let end = Box::new(alloc, Expr::Number(0xffff_ffff))?;
    let is_end = Expr::Binary(Operator::Equal, byte, end);
    blocks.push(ProgramBlock {
        statements,
        end: BlockEnd::If(is_end, 2, 1),
    })?;
    Ok(())
}

/// Puts a block that stores it, and puts it out.
fn put_storing(alloc: Global, blocks: &mut Vec<ProgramBlock>) -> Result<(), AllocError> {
    let mut statements = Vec::new(alloc);
    statements.push(Stmt::Store(NumberWidth::Byte, Expr::Number(0x8_0000), Expr::Variable(8)))?;
    statements.push(Stmt::Put(Expr::Variable(8)))?;
    blocks.push(ProgramBlock {
        statements,
        end: BlockEnd::Goto(0),
    })?;
    Ok(())
}

/// A loop that gets a byte, stores it and puts it out, until the input's end.
fn put_echo(alloc: Global, blocks: &mut Vec<ProgramBlock>) -> Result<(), AllocError> {
    put_getting(alloc, blocks)?;
    put_storing(alloc, blocks)?;
    blocks.push(bare(alloc, BlockEnd::Exit(Expr::Number(0))))?;
    Ok(())
}

/// It, with so many data of a byte.
fn echo(alloc: Global, count: usize, byte: u8) -> Result<NativeProgram, AllocError>
    requires { count ≤ 524288 }
{
    let mut blocks = Vec::new(alloc);
    put_echo(alloc, &mut blocks)?;
    let mut data = Vec::new(alloc);
    data.resize(count, byte)?;
    Ok(NativeProgram { blocks, data })
}

/// The lines that the loop has to be.
const LINES: &str = "L0:;
    HEAD(1, NO_CODES);
    GET(2, NO_CODES, x8);
    if ((WORD)(x8 == 4294967295u)) goto L2;
L1:;
    STORE8(524288u, x8);
    PUT(3, NO_CODES, x8);
    goto L0;
L2:;
    EXIT(0u);
";

/// Whether the text has them, and the lines before them and behind.
fn has_lines(bytes: &[u8]) -> bool {
    has(bytes, LINES)
        && has(
            bytes,
            "#define GP_STACK_BYTES 4096u\n#define GP_IMAGE {1,2,}\n",
        )
        && has(bytes, "    RESUME(3);\nSTEP_RESUMES\n")
        && has(bytes, "gp_start[] = {\n    9,\n    0};\n")
}

fn try_echo(alloc: Global) -> Result<bool, AllocError> {
    let program = echo(alloc, 1, 9)?;
    let named = ImageNote {
        image: &[1, 2],
        stack_bytes: 4096,
    };
    let text = write_program(alloc, &program, &named)?;
    Ok(has_lines(text.as_bytes()))
}

#[test]
fn the_lines_of_a_loop(rt: HostRuntime) {
    assert!(rt; matches!(try_echo(rt.alloc()), Ok(true)));
}

/// Puts a call of what stands behind, and where it returns to.
fn put_call(alloc: Global, blocks: &mut Vec<ProgramBlock>) -> Result<(), AllocError> {
    let mut arms = Vec::new(alloc);
    arms.push(Arm {
        word: 0x4_0000,
        label: 1,
    })?;
    blocks.push(bare(alloc, BlockEnd::Goto(2)))?;
    blocks.push(bare(alloc, BlockEnd::Exit(Expr::Number(0))))?;
    blocks.push(bare(alloc, BlockEnd::Dispatch(44, arms)))?;
    Ok(())
}

fn call(alloc: Global) -> Result<NativeProgram, AllocError> {
    let mut blocks = Vec::new(alloc);
    put_call(alloc, &mut blocks)?;
    Ok(NativeProgram {
        blocks,
        data: Vec::new(alloc),
    })
}

fn try_call(alloc: Global) -> Result<bool, AllocError> {
    let program = call(alloc)?;
    let named = ImageNote {
        image: &[],
        stack_bytes: 4096,
    };
    let text = write_program(alloc, &program, &named)?;
    let lines = "L1:;\n    HEAD(1, NO_CODES);\n    EXIT(0u);\nL2:;\n    goto L1;\n";
    Ok(has(text.as_bytes(), lines))
}

#[test]
fn a_pause_behind_a_call(rt: HostRuntime) {
    assert!(rt; matches!(try_call(rt.alloc()), Ok(true)));
}

fn try_most(alloc: Global) -> Result<bool, AllocError> {
    let program = echo(alloc, 0x8_0000, 255)?;
    let named = ImageNote {
        image: &[],
        stack_bytes: 65_536,
    };
    let text = write_program(alloc, &program, &named)?;
    // four bytes each, and the ends of 16,384 lines
    Ok(text.as_bytes().len() > 4 * 0x8_0000 + 5 * 16_384)
}

#[test]
fn an_array_of_the_most_bytes(rt: HostRuntime) {
    assert!(rt; matches!(try_most(rt.alloc()), Ok(true)));
}
