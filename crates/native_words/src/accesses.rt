//! The statements of loads, of stores, and of both at once (appendix B, "Load Integer Instructions" to "SWAP Register
//! with Memory").
ghost use Rattle.std.specs.Prelude.{◌≡◌, ℕ, ◌<◌, ◌++◌, ◌∷◌, List, [], IfOk, slice_index};
ghost use Rattle.native_lang.specs.Values.{applied, value};
ghost use Rattle.native_lang.specs.declared.stmt.Stmt.TheVariants.{Load as loads_to};
ghost use Rattle.native_results.specs.Words.{Adds};
ghost use Rattle.native_lang.specs.Memory.{bytes_of_width};
ghost use Rattle.v8_meaning.specs.Transfers.{bytes_in, exchanged_size, left_behind};
ghost use Rattle.native_words.specs.Accesses.{AddsAccess, HasSign, HasWidth, variable_for};

use native_lang::variables::{FIRST, NOWHERE, RESULT, SECOND};
use native_lang::{Expr, NumberWidth, Operator, Stmt};
use native_results::Statements;
use native_results::expressions::{register, sum_of, with_number};
use std::alloc::{AllocError, Global};
use v8_meaning::{Exchange, Loading, MemoryOperand, Operation, Transfer, odd_of};
use v8_word::{Reg, Size};

/// A load of a number without its sign.
fn load(
    statements: &mut Statements,
    rd: Reg,
    width: NumberWidth,
    address: Expr,
) -> Result<(), AllocError>
    ensures list { IfOk result (λ _. statements.new.list.items ≡
        statements.old.list.items ++ loads_to (variable_for rd) width address ∷ []) }
    ensures low { rd < 32 }
{
    let variable = match rd.number() {
        0 => NOWHERE,
        number => number,
    };
    statements.push(Stmt::Load(variable, width, address))
}

/// A load of a number with its sign, which is its highest bit: so many bits are above it.
fn load_signed(
    statements: &mut Statements,
    rd: Reg,
    width: NumberWidth,
    address: Expr,
    above: u32,
) -> Result<(), AllocError>
    ensures { IfOk result (λ _. (loading : Loading) → HasSign loading width above →
        AddsAccess (Transfer.Load loading) rd address statements.old.list.items statements.new.list.items) }
{
    statements.push(Stmt::Load(RESULT, width, address))?;
    let up = with_number(statements.alloc, Operator::ShiftLeft, RESULT, above)?;
    statements.set(RESULT, up)?;
    let down = with_number(statements.alloc, Operator::ShiftRightSigned, RESULT, above)?;
    statements.assign(rd, down)
}

/// The address behind the first word of two.
fn second_address(alloc: Global) -> Result<Expr, AllocError>
    ensures { IfOk result (λ e. (v : List ℕ) → value v e ≡ applied Operator.Sum (slice_index v 40) 4) }
{
    with_number(alloc, Operator::Sum, FIRST, 4)
}

/// A load of two words, to an even register and the next. Both addresses are of what the registers held before.
fn load_pair(statements: &mut Statements, rd: Reg, address: Expr) -> Result<(), AllocError>
    ensures { IfOk result (λ _.
        AddsAccess (Transfer.Load Loading.Double) rd address statements.old.list.items statements.new.list.items) }
{
    statements.set(FIRST, address)?;
    load(statements, rd, NumberWidth::Word, Expr::Variable(FIRST))?;
    let second = second_address(statements.alloc)?;
    load(statements, odd_of(rd), NumberWidth::Word, second)
}

/// The statements of a load.
fn loads(
    statements: &mut Statements,
    loading: Loading,
    rd: Reg,
    address: Expr,
) -> Result<(), AllocError>
    ensures { IfOk result (λ _.
        AddsAccess (Transfer.Load loading) rd address statements.old.list.items statements.new.list.items) }
{
    match loading {
        Loading::UnsignedByte => load(statements, rd, NumberWidth::Byte, address),
        Loading::UnsignedHalf => load(statements, rd, NumberWidth::Half, address),
        Loading::Word => load(statements, rd, NumberWidth::Word, address),
        Loading::SignedByte => load_signed(statements, rd, NumberWidth::Byte, address, 24),
        Loading::SignedHalf => load_signed(statements, rd, NumberWidth::Half, address, 16),
        Loading::Double => load_pair(statements, rd, address),
    }
}

/// A store of a number in the low bytes of a register.
fn store(
    statements: &mut Statements,
    rd: Reg,
    width: NumberWidth,
    address: Expr,
) -> Result<(), AllocError>
    ensures { IfOk result (λ _. (size : Size) → HasWidth size width →
        AddsAccess (Transfer.Store size) rd address statements.old.list.items statements.new.list.items) }
{
    let word = register(rd);
    statements.push(Stmt::Store(width, address, word))
}

/// A store of the two words of a pair.
fn store_pair(statements: &mut Statements, rd: Reg, address: Expr) -> Result<(), AllocError>
    ensures { IfOk result (λ _.
        AddsAccess (Transfer.Store Size.Double) rd address statements.old.list.items statements.new.list.items) }
{
    statements.set(FIRST, address)?;
    let first = register(rd);
    statements.push(Stmt::Store(NumberWidth::Word, Expr::Variable(FIRST), first))?;
    let second = second_address(statements.alloc)?;
    let other = register(odd_of(rd));
    statements.push(Stmt::Store(NumberWidth::Word, second, other))
}

/// The statements of a store.
fn stores(statements: &mut Statements, size: Size, rd: Reg, address: Expr) -> Result<(), AllocError>
    ensures { IfOk result (λ _.
        AddsAccess (Transfer.Store size) rd address statements.old.list.items statements.new.list.items) }
{
    match size {
        Size::Byte => store(statements, rd, NumberWidth::Byte, address),
        Size::Half => store(statements, rd, NumberWidth::Half, address),
        Size::Word => store(statements, rd, NumberWidth::Word, address),
        Size::Double => store_pair(statements, rd, address),
    }
}

/// The number that an exchange leaves behind.
fn left_by(with: Exchange, rd: Reg) -> Expr
    ensures value { (v : List ℕ) → value v result ≡ left_behind (slice_index v) with rd }
    ensures low { rd < 32 }
{
    let word = register(rd);
    match with {
        Exchange::Ones => Expr::Number(0xff),
        Exchange::Register => word,
    }
}

/// How many bytes an exchange moves.
fn width_of(with: Exchange) -> NumberWidth
    ensures { bytes_of_width result ≡ bytes_in (exchanged_size with) }
{
    match with {
        Exchange::Ones => NumberWidth::Byte,
        Exchange::Register => NumberWidth::Word,
    }
}

/// The statements of LDSTUB and SWAP: what is stored is read before the register is written.
fn exchanges(
    statements: &mut Statements,
    with: Exchange,
    rd: Reg,
    address: Expr,
) -> Result<(), AllocError>
    ensures { IfOk result (λ _.
        AddsAccess (Transfer.Exchange with) rd address statements.old.list.items statements.new.list.items) }
{
    let width = width_of(with);
    statements.set(FIRST, address)?;
    statements.set(SECOND, left_by(with, rd))?;
    statements.push(Stmt::Load(RESULT, width, Expr::Variable(FIRST)))?;
    let stored = Expr::Variable(SECOND);
    statements.push(Stmt::Store(width, Expr::Variable(FIRST), stored))?;
    statements.assign(rd, Expr::Variable(RESULT))
}

/// The statements of a load, a store, or both at once.
pub(crate) fn transfer(
    statements: &mut Statements,
    transfer: Transfer,
    operand: &MemoryOperand,
) -> Result<(), AllocError>
    ensures { IfOk result (λ _.
        Adds (Operation.Transfer transfer operand.now) statements.old.list.items statements.new.list.items) }
{
    let address = sum_of(statements.alloc, operand.rs1, &operand.operand2)?;
    match transfer {
        Transfer::Load(loading) => loads(statements, loading, operand.rd, address),
        Transfer::Store(size) => stores(statements, size, operand.rd, address),
        Transfer::Exchange(with) => exchanges(statements, with, operand.rd, address),
    }
}
