// What an instruction asks of a machine, whatever its opcode.
ghost use Rattle.std.specs.Prelude.{◌≡◌};
ghost use Rattle.v8_meaning.specs.Operations.{elsewhere, normal, operation_of, second_of, space_of};

use crate::operation::{
    Exchange, Loading, MemoryOperand, Operation, Space, StateRegister, Transfer,
};
use v8_alu::{Division, Op, TaggedOp};
use v8_formats::{Alternate, AlternateOperand, Instr, Operand, Size, Three};

#[inline(always)]
pub fn normal(fields: Three) -> MemoryOperand
    ensures { result ≡ normal fields }
{
    MemoryOperand {
        rd: fields.rd,
        rs1: fields.rs1,
        operand2: fields.operand2,
        space: Space::Normal,
    }
}

fn second_of(place: &AlternateOperand) -> Operand
    ensures { result ≡ second_of place.now }
{
    match place {
        AlternateOperand::Register(rs2, _) => Operand::Register(*rs2),
        AlternateOperand::Immediate(number) => Operand::Immediate(*number),
    }
}

fn space_of(place: &AlternateOperand) -> Space
    ensures { result ≡ space_of place.now }
{
    match place {
        AlternateOperand::Register(_, asi) => Space::Alternate(*asi),
        AlternateOperand::Immediate(_) => Space::Missing,
    }
}

fn elsewhere(fields: Alternate) -> MemoryOperand
    ensures { result ≡ elsewhere fields }
{
    MemoryOperand {
        rd: fields.rd,
        rs1: fields.rs1,
        operand2: second_of(&fields.place),
        space: space_of(&fields.place),
    }
}

/// The operation of an instruction.
#[tactic(auto, unfolding(crate::specs::Operations::operation_of))]
#[inline(always)]
pub fn operation_of(instr: &Instr) -> Operation
    ensures { result ≡ operation_of instr.now }
{
    match *instr {
        Instr::Add(fields) => Operation::Compute(Op::Add, fields),
        Instr::And(fields) => Operation::Compute(Op::And, fields),
        Instr::Or(fields) => Operation::Compute(Op::Or, fields),
        Instr::Xor(fields) => Operation::Compute(Op::Xor, fields),
        Instr::Sub(fields) => Operation::Compute(Op::Sub, fields),
        Instr::Andn(fields) => Operation::Compute(Op::Andn, fields),
        Instr::Orn(fields) => Operation::Compute(Op::Orn, fields),
        Instr::Xnor(fields) => Operation::Compute(Op::Xnor, fields),
        Instr::Addx(fields) => Operation::Compute(Op::Addx, fields),
        Instr::Umul(fields) => Operation::Compute(Op::Umul, fields),
        Instr::Smul(fields) => Operation::Compute(Op::Smul, fields),
        Instr::Subx(fields) => Operation::Compute(Op::Subx, fields),
        Instr::Udiv(fields) => Operation::Divide(Division::Udiv, fields),
        Instr::Sdiv(fields) => Operation::Divide(Division::Sdiv, fields),
        Instr::AddCc(fields) => Operation::Compute(Op::AddCc, fields),
        Instr::AndCc(fields) => Operation::Compute(Op::AndCc, fields),
        Instr::OrCc(fields) => Operation::Compute(Op::OrCc, fields),
        Instr::XorCc(fields) => Operation::Compute(Op::XorCc, fields),
        Instr::SubCc(fields) => Operation::Compute(Op::SubCc, fields),
        Instr::AndnCc(fields) => Operation::Compute(Op::AndnCc, fields),
        Instr::OrnCc(fields) => Operation::Compute(Op::OrnCc, fields),
        Instr::XnorCc(fields) => Operation::Compute(Op::XnorCc, fields),
        Instr::AddxCc(fields) => Operation::Compute(Op::AddxCc, fields),
        Instr::UmulCc(fields) => Operation::Compute(Op::UmulCc, fields),
        Instr::SmulCc(fields) => Operation::Compute(Op::SmulCc, fields),
        Instr::SubxCc(fields) => Operation::Compute(Op::SubxCc, fields),
        Instr::UdivCc(fields) => Operation::Divide(Division::UdivCc, fields),
        Instr::SdivCc(fields) => Operation::Divide(Division::SdivCc, fields),
        Instr::TaddCc(fields) => Operation::Compute(Op::TaddCc, fields),
        Instr::TsubCc(fields) => Operation::Compute(Op::TsubCc, fields),
        Instr::TaddCcTv(fields) => Operation::TaggedTrap(TaggedOp::TaggedAdd, fields),
        Instr::TsubCcTv(fields) => Operation::TaggedTrap(TaggedOp::TaggedSub, fields),
        Instr::MulsCc(fields) => Operation::Compute(Op::MulsCc, fields),
        Instr::Sll(fields) => Operation::Compute(Op::Sll, fields),
        Instr::Srl(fields) => Operation::Compute(Op::Srl, fields),
        Instr::Sra(fields) => Operation::Compute(Op::Sra, fields),
        Instr::ReadY(rd) => Operation::ReadY(rd),
        Instr::Stbar => Operation::Nothing,
        Instr::ReadPsr(rd) => Operation::ReadState(StateRegister::Psr, rd),
        Instr::ReadWim(rd) => Operation::ReadState(StateRegister::Wim, rd),
        Instr::ReadTbr(rd) => Operation::ReadState(StateRegister::Tbr, rd),
        Instr::WriteY(fields) => Operation::WriteY(fields),
        Instr::WritePsr(fields) => Operation::WriteState(StateRegister::Psr, fields),
        Instr::WriteWim(fields) => Operation::WriteState(StateRegister::Wim, fields),
        Instr::WriteTbr(fields) => Operation::WriteState(StateRegister::Tbr, fields),
        Instr::Rett(fields) => Operation::ReturnFromTrap(fields),
        Instr::Flush(_) => Operation::Nothing,
        Instr::FpOperate(_) => Operation::FloatingPoint,
        Instr::CpOperate(_) => Operation::Coprocessor,
        Instr::Jmpl(fields) => Operation::JumpAndLink(fields),
        Instr::Save(fields) => Operation::Save(fields),
        Instr::Restore(fields) => Operation::Restore(fields),
        Instr::Ticc(fields) => Operation::TrapOnCondition(fields),
        Instr::Load(fields) => Operation::Transfer(Transfer::Load(Loading::Word), normal(fields)),
        Instr::LoadUnsignedByte(fields) => Operation::Transfer(
            Transfer::Load(Loading::UnsignedByte),
            normal(fields),
        ),
        Instr::LoadUnsignedHalf(fields) => Operation::Transfer(
            Transfer::Load(Loading::UnsignedHalf),
            normal(fields),
        ),
        Instr::LoadDouble(fields) => Operation::Transfer(
            Transfer::Load(Loading::Double),
            normal(fields),
        ),
        Instr::Store(fields) => Operation::Transfer(Transfer::Store(Size::Word), normal(fields)),
        Instr::StoreByte(fields) => Operation::Transfer(
            Transfer::Store(Size::Byte),
            normal(fields),
        ),
        Instr::StoreHalf(fields) => Operation::Transfer(
            Transfer::Store(Size::Half),
            normal(fields),
        ),
        Instr::StoreDouble(fields) => Operation::Transfer(
            Transfer::Store(Size::Double),
            normal(fields),
        ),
        Instr::LoadSignedByte(fields) => Operation::Transfer(
            Transfer::Load(Loading::SignedByte),
            normal(fields),
        ),
        Instr::LoadSignedHalf(fields) => Operation::Transfer(
            Transfer::Load(Loading::SignedHalf),
            normal(fields),
        ),
        Instr::LoadStoreUnsignedByte(fields) => Operation::Transfer(
            Transfer::Exchange(Exchange::Ones),
            normal(fields),
        ),
        Instr::Swap(fields) => Operation::Transfer(
            Transfer::Exchange(Exchange::Register),
            normal(fields),
        ),
        Instr::LoadAlternate(fields) => Operation::Transfer(
            Transfer::Load(Loading::Word),
            elsewhere(fields),
        ),
        Instr::LoadUnsignedByteAlternate(fields) => Operation::Transfer(
            Transfer::Load(Loading::UnsignedByte),
            elsewhere(fields),
        ),
        Instr::LoadUnsignedHalfAlternate(fields) => Operation::Transfer(
            Transfer::Load(Loading::UnsignedHalf),
            elsewhere(fields),
        ),
        Instr::LoadDoubleAlternate(fields) => Operation::Transfer(
            Transfer::Load(Loading::Double),
            elsewhere(fields),
        ),
        Instr::StoreAlternate(fields) => Operation::Transfer(
            Transfer::Store(Size::Word),
            elsewhere(fields),
        ),
        Instr::StoreByteAlternate(fields) => Operation::Transfer(
            Transfer::Store(Size::Byte),
            elsewhere(fields),
        ),
        Instr::StoreHalfAlternate(fields) => Operation::Transfer(
            Transfer::Store(Size::Half),
            elsewhere(fields),
        ),
        Instr::StoreDoubleAlternate(fields) => Operation::Transfer(
            Transfer::Store(Size::Double),
            elsewhere(fields),
        ),
        Instr::LoadSignedByteAlternate(fields) => Operation::Transfer(
            Transfer::Load(Loading::SignedByte),
            elsewhere(fields),
        ),
        Instr::LoadSignedHalfAlternate(fields) => Operation::Transfer(
            Transfer::Load(Loading::SignedHalf),
            elsewhere(fields),
        ),
        Instr::LoadStoreUnsignedByteAlternate(fields) => Operation::Transfer(
            Transfer::Exchange(Exchange::Ones),
            elsewhere(fields),
        ),
        Instr::SwapAlternate(fields) => Operation::Transfer(
            Transfer::Exchange(Exchange::Register),
            elsewhere(fields),
        ),
        Instr::FpMemory(_) => Operation::FloatingPoint,
        Instr::CpMemory(_) => Operation::Coprocessor,
        Instr::Call(displacement) => Operation::Call(displacement),
        Instr::Unimp(_) => Operation::Illegal,
        Instr::Bicc(fields) => Operation::BranchOnCondition(fields),
        Instr::Sethi(fields) => Operation::SetHigh(fields),
        Instr::FpBranch(_) => Operation::FloatingPoint,
        Instr::CpBranch(_) => Operation::Coprocessor,
        Instr::Undefined(_) => Operation::Illegal,
    }
}
