//! A program that copies its input, and asks bytes of a stored word; what has no meaning; the greatest sizes.
use native_lang::{
    Arm, BlockEnd, Expr, NativeProgram, NumberWidth, Operator, ProgramBlock, ProgramRun,
    ProgramStep, Stmt, run_program,
};
use std::alloc::{AllocError, Global};

/// The statements that get a byte.
fn put_get(statements: &mut Vec<Stmt>) -> Result<(), AllocError> {
    statements.push(Stmt::Get(40))?;
    statements.push(Stmt::Turns(5))?;
    Ok(())
}

/// Puts a block of the statements, which are taken.
fn put_block(
    blocks: &mut Vec<ProgramBlock>,
    statements: Vec<Stmt>,
    end: BlockEnd,
) -> Result<(), AllocError> {
    blocks.push(ProgramBlock { statements, end })?;
    Ok(())
}

/// Puts a block that gets a byte, and goes on at the end of the input.
fn put_getting(alloc: Global, blocks: &mut Vec<ProgramBlock>) -> Result<(), AllocError> {
    let mut statements = Vec::new(alloc);
    put_get(&mut statements)?;
    let byte = Box::new(alloc, Expr::Variable(40))?;
    let end = Box::new(alloc, Expr::Number(0xffff_ffff))?;
    let is_end = Expr::Binary(Operator::Equal, byte, end);
    put_block(blocks, statements, BlockEnd::If(is_end, 2, 1))
}

/// The bytes of an input go out, one after another.
fn copying(alloc: Global, blocks: &mut Vec<ProgramBlock>) -> Result<(), AllocError> {
    put_getting(alloc, blocks)?;
    let mut statements = Vec::new(alloc);
    statements.push(Stmt::Put(Expr::Variable(40)))?;
    put_block(blocks, statements, BlockEnd::Goto(0))
}

/// A window is pushed, a word is stored and a byte of it is loaded, and -2^32 + 2^31 is divided by -1.
fn put_others(statements: &mut Vec<Stmt>) -> Result<(), AllocError> {
    statements.push(Stmt::Set(8, Expr::Number(7)))?;
    statements.push(Stmt::Enter)?;
    statements.push(Stmt::Push)?;
    statements.push(Stmt::Store(
        NumberWidth::Word,
        Expr::Number(0xf_fffc),
        Expr::Number(0x1234_5678),
    ))?;
    statements.push(Stmt::Load(41, NumberWidth::Byte, Expr::Number(0xf_fffd)))?;
    statements.push(Stmt::Put(Expr::Variable(41)))?;
    statements.push(Stmt::Put(Expr::Variable(24)))?;
    statements.push(Stmt::Divide(
        42,
        43,
        true,
        Expr::Number(0xffff_ffff),
        Expr::Number(0x8000_0000),
        Expr::Number(0xffff_ffff),
    ))?;
    statements.push(Stmt::Put(Expr::Variable(43)))?;
    Ok(())
}

/// Ways on by the word of a variable.
fn put_arms(arms: &mut Vec<Arm>) -> Result<(), AllocError> {
    arms.push(Arm { word: 9, label: 0 })?;
    arms.push(Arm { word: 7, label: 3 })?;
    Ok(())
}

/// A block of the other statements.
fn put_other_block(alloc: Global, blocks: &mut Vec<ProgramBlock>) -> Result<(), AllocError> {
    let mut statements = Vec::new(alloc);
    put_others(&mut statements)?;
    let mut arms = Vec::new(alloc);
    put_arms(&mut arms)?;
    put_block(blocks, statements, BlockEnd::Dispatch(24, arms))
}

/// The window is popped.
fn put_last(statements: &mut Vec<Stmt>) -> Result<(), AllocError> {
    statements.push(Stmt::Pop)?;
    statements.push(Stmt::Leave)?;
    Ok(())
}

/// A block of the other statements, and the last one.
fn other_statements(alloc: Global, blocks: &mut Vec<ProgramBlock>) -> Result<(), AllocError> {
    put_other_block(alloc, blocks)?;
    let mut statements = Vec::new(alloc);
    put_last(&mut statements)?;
    put_block(blocks, statements, BlockEnd::Exit(Expr::Variable(42)))
}

fn copier(alloc: Global) -> Result<NativeProgram, AllocError> {
    let mut blocks = Vec::new(alloc);
    copying(alloc, &mut blocks)?;
    other_statements(alloc, &mut blocks)?;
    Ok(NativeProgram {
        blocks,
        data: Vec::new(alloc),
    })
}

/// The exit word of a run that is over.
fn over(ran: &ProgramRun<'_>) -> Option<u32> {
    match ran.stepped {
        ProgramStep::Over(word) => Some(word),
        ProgramStep::On | ProgramStep::Lost => None,
    }
}

/// Whether a run of it has copied two bytes, and put out the other three.
fn has_copied(ran: &ProgramRun<'_>) -> bool {
    let traffic = ran.machine.traffic;
    let counts = [traffic.turns, traffic.overflows, traffic.underflows];
    over(ran) == Some(0x7fff_ffff)
        && ran.machine.output.as_slice() == [104, 105, 0x34, 7, 1].as_slice()
        && counts.as_slice() == [65, 1, 1].as_slice()
}

fn try_copier(alloc: Global) -> Result<bool, AllocError> {
    let program = copier(alloc)?;
    let input = [104, 105];
    let ran = run_program(alloc, &program, 2, &input, 1000)?;
    Ok(has_copied(&ran))
}

#[test]
fn a_copy_and_a_word(rt: HostRuntime) {
    assert!(rt; matches!(try_copier(rt.alloc()), Ok(true)));
}

/// A program of one block.
fn program_of(
    alloc: Global,
    statements: Vec<Stmt>,
    end: BlockEnd,
) -> Result<NativeProgram, AllocError> {
    let mut blocks = Vec::new(alloc);
    put_block(&mut blocks, statements, end)?;
    Ok(NativeProgram {
        blocks,
        data: Vec::new(alloc),
    })
}

/// A program of one statement.
fn program_of_one(alloc: Global, stmt: Stmt) -> Result<NativeProgram, AllocError> {
    let mut statements = Vec::new(alloc);
    statements.push(stmt)?;
    program_of(alloc, statements, BlockEnd::Exit(Expr::Number(0)))
}

/// Whether a run of one statement has no meaning.
fn is_lost(alloc: Global, stmt: Stmt) -> Result<bool, AllocError> {
    let program = program_of_one(alloc, stmt)?;
    let ran = run_program(alloc, &program, 4, &[], 10)?;
    Ok(matches!(ran.stepped, ProgramStep::Lost))
}

/// Whether a load before the data and a store across their end are.
fn are_accesses_lost(alloc: Global) -> Result<bool, AllocError> {
    let load = Stmt::Load(1, NumberWidth::Byte, Expr::Number(0x7_ffff));
    let store = Stmt::Store(NumberWidth::Word, Expr::Number(0xf_fffd), Expr::Number(0));
    Ok(is_lost(alloc, load)? && is_lost(alloc, store)?)
}

fn try_lost(alloc: Global) -> Result<bool, AllocError> {
    let divided = Stmt::Divide(
        1,
        2,
        false,
        Expr::Number(1),
        Expr::Number(1),
        Expr::Number(0),
    );
    Ok(are_accesses_lost(alloc)? && is_lost(alloc, divided)? && is_lost(alloc, Stmt::Pop)?)
}

#[test]
fn what_has_no_meaning(rt: HostRuntime) {
    assert!(rt; matches!(try_lost(rt.alloc()), Ok(true)));
}

/// The last byte of the data goes to the last variable, in as many turns as a statement says at most.
fn put_greatest(statements: &mut Vec<Stmt>) -> Result<(), AllocError> {
    statements.push(Stmt::Load(8, NumberWidth::Byte, Expr::Number(0xf_ffff)))?;
    statements.push(Stmt::Turns(65_535))?;
    statements.push(Stmt::Set(255, Expr::Variable(8)))?;
    Ok(())
}

/// A program of these, with the most data.
fn greatest(alloc: Global) -> Result<NativeProgram, AllocError> {
    let mut statements = Vec::new(alloc);
    put_greatest(&mut statements)?;
    let mut program = program_of(alloc, statements, BlockEnd::Exit(Expr::Variable(255)))?;
    program.data.resize(0x8_0000, 7)?;
    Ok(program)
}

fn try_greatest(alloc: Global) -> Result<bool, AllocError> {
    let program = greatest(alloc)?;
    let ran = run_program(alloc, &program, 32, &[], u32::MAX)?;
    Ok(over(&ran) == Some(7) && ran.machine.traffic.turns == 65_535)
}

#[test]
fn a_full_block_and_the_last_variable(rt: HostRuntime) {
    assert!(rt; matches!(try_greatest(rt.alloc()), Ok(true)));
}
