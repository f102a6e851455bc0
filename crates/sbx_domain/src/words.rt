//! What is known after a word, by its operation.
ghost use Rattle.std.specs.Prelude.{◌≡◌, ℕ};

use crate::entry::Entry;
use crate::operands::{constant_entry, entry_of_y, quotient_of, tagged_of, written_y};
use crate::results::{relation_of, result_of, sets_codes};
use crate::state::State;
use sbx_flat::{Instr, Operand, Operation, Three, Trap, Two, Upper, operation_of, service_of};
use sbx_range::{BYTE_OR_END, all};
use v8_alu::{Division, Op, TaggedOp};
use v8_word::Reg;

impl State {
    ghost use Rattle.std.specs.Prelude.{Some, true};
    ghost use Rattle.sbx_flat.specs.Operation.TheVariants.{Call, Compute, Divide, ReadY, Restore, SetHigh, TaggedTrap};
    ghost use Rattle.sbx_flat.specs.Operation.TheVariants.{TrapOnCondition, WriteY};
    ghost use Rattle.sbx_flat.specs.Operations.{operation_of};
    ghost use Rattle.sbx_domain.specs.Known.{known};
    ghost use Rattle.sbx_domain.specs.Results.{operand_entry, register_entry};
    ghost use Rattle.sbx_domain.specs.Transfer.{relation_of, served, sets_codes, transferred, with_codes};
    ghost use Rattle.sbx_domain.specs.Transfer.{with_product_y};

    /// What is known of a register; %g0 is 0.
    pub fn register_entry(&self, r: Reg) -> Option<Entry>
        ensures { result ≡ register_entry (known self.now) r }
    {
        if r == Reg::G0 {
            Some(constant_entry(0))
        } else {
            self.entry(u16::from(r.number()))
        }
    }

    pub fn operand_entry(&self, operand: Operand) -> Option<Entry>
        ensures { result ≡ operand_entry (known self.now) operand }
    {
        match operand {
            Operand::Register(r) => self.register_entry(r),
            Operand::Immediate(word) => Some(constant_entry(word)),
        }
    }

    /// Multiplications and the multiply step leave any word in Y.
    fn set_product_y(&mut self, op: Op)
        ensures { known self.new ≡ with_product_y op (known self.old) }
    {
        if matches!(
            op,
            Op::Umul | Op::UmulCc | Op::Smul | Op::SmulCc | Op::MulsCc
        ) {
            self.set_y(Some(all(0)));
        }
    }

    /// The codes after an operation, where it sets them.
    fn set_result_codes(&mut self, op: Op, fields: &Three)
        ensures { known self.new ≡ with_codes (sets_codes op) (relation_of op fields.now) (known self.old) }
    {
        if sets_codes(op) {
            self.set_codes(relation_of(op, fields));
        }
    }

    /// An operation that has a result for all operands.
    #[tactic(auto, unfolding(crate::specs::Transfer::transferred))]
    pub fn compute(&mut self, op: Op, fields: &Three)
        ensures { (frame : ℕ) → known self.new ≡ transferred frame (Compute op fields.now) (known self.old) }
    {
        let entry = result_of(
            op,
            self.register_entry(fields.rs1),
            self.operand_entry(fields.operand2),
        );
        self.write(u16::from(fields.rd.number()), entry);
        self.set_result_codes(op, fields);
        self.set_product_y(op);
    }

    /// RESTORE: the sum of its operands, in the window before, goes to a register of the one after.
    #[tactic(auto, unfolding(crate::specs::Transfer::transferred))]
    pub fn restore(&mut self, fields: &Three)
        ensures { (frame : ℕ) → known self.new ≡ transferred frame (Restore fields.now) (known self.old) }
    {
        let entry = result_of(
            Op::Add,
            self.register_entry(fields.rs1),
            self.operand_entry(fields.operand2),
        );
        let rd = u16::from(fields.rd.number());
        self.pop();
        self.write(rd, entry);
    }

    /// SETHI.
    #[tactic(auto, unfolding(crate::specs::Transfer::transferred))]
    pub fn set_high(&mut self, fields: &Upper)
        ensures { (frame : ℕ) → known self.new ≡ transferred frame (SetHigh fields.now) (known self.old) }
    {
        let word = fields.imm22.wrapping_mul(1024);
        self.write(u16::from(fields.rd.number()), Some(constant_entry(word)));
    }

    /// RDY.
    #[tactic(auto, unfolding(crate::specs::Transfer::transferred))]
    pub fn read_y(&mut self, rd: Reg)
        ensures { (frame : ℕ) → known self.new ≡ transferred frame (ReadY rd) (known self.old) }
    {
        let entry = entry_of_y(self.y());
        self.write(u16::from(rd.number()), entry);
    }

    /// WRY.
    #[tactic(auto, unfolding(crate::specs::Transfer::transferred))]
    pub fn write_y(&mut self, fields: &Two)
        ensures { (frame : ℕ) → known self.new ≡ transferred frame (WriteY fields.now) (known self.old) }
    {
        let range = written_y(
            self.register_entry(fields.rs1),
            self.operand_entry(fields.operand2),
        );
        self.set_y(range);
    }

    /// UDIV, SDIV and those that set the codes, which then relate nothing.
    #[tactic(auto, unfolding(crate::specs::Transfer::transferred))]
    pub fn divide(&mut self, op: Division, fields: &Three)
        ensures { (frame : ℕ) → known self.new ≡ transferred frame (Divide op fields.now) (known self.old) }
    {
        let entry = quotient_of(
            self.y(),
            self.register_entry(fields.rs1),
            self.operand_entry(fields.operand2),
        );
        self.write(u16::from(fields.rd.number()), entry);
        if matches!(op, Division::UdivCc | Division::SdivCc) {
            self.set_codes(None);
        }
    }

    /// TADDccTV and TSUBccTV, where they have a result.
    #[tactic(auto, unfolding(crate::specs::Transfer::transferred))]
    pub fn tagged_trap(&mut self, op: TaggedOp, fields: &Three)
        ensures { (frame : ℕ) → known self.new ≡ transferred frame (TaggedTrap op fields.now) (known self.old) }
    {
        let entry = tagged_of(
            op,
            self.register_entry(fields.rs1),
            self.operand_entry(fields.operand2),
        );
        self.write(u16::from(fields.rd.number()), entry);
        self.set_icc(true);
    }

    /// `ta n` that goes on: get leaves a byte or all ones in %o0.
    #[tactic(auto, unfolding(crate::specs::Transfer::transferred))]
    pub fn serve(&mut self, trap: &Trap)
        ensures { (frame : ℕ) → known self.new ≡ transferred frame (TrapOnCondition trap.now) (known self.old) }
    {
        if service_of(trap) == Some(1) {
            self.set(8, Some(BYTE_OR_END));
        }
    }

    /// CALL, before its slot: %o7 is undefined, and the codes relate nothing.
    #[tactic(auto, unfolding(crate::specs::Transfer::transferred))]
    pub fn call(&mut self)
        ensures { (frame : ℕ) → (displacement : ℕ) →
            known self.new ≡ transferred frame (Call displacement) (known self.old) }
    {
        self.write(15, None);
        let defined = self.icc();
        self.set_icc(defined);
    }

    /// An operation in a frame of so many bytes, 0 in a leaf. Branches and jumps know what was known, and so do the
    /// operations that sandboxed code may not have.
    #[tactic(auto, unfolding(crate::specs::Transfer::transferred))]
    pub fn perform(&mut self, frame: u32, operation: &Operation)
        ensures { known self.new ≡ transferred frame operation.now (known self.old) }
    {
        match operation {
            Operation::Compute(op, fields) => self.compute(*op, fields),
            Operation::Divide(op, fields) => self.divide(*op, fields),
            Operation::TaggedTrap(op, fields) => self.tagged_trap(*op, fields),
            Operation::SetHigh(fields) => self.set_high(fields),
            Operation::ReadY(rd) => self.read_y(*rd),
            Operation::WriteY(fields) => self.write_y(fields),
            Operation::Transfer(transfer, operand) => {
                self.transfer_memory(frame, *transfer, operand)
            }
            Operation::Save(_) => self.save(),
            Operation::Restore(fields) => self.restore(fields),
            Operation::Call(_) => self.call(),
            Operation::TrapOnCondition(trap) => self.serve(trap),
            _ => {}
        }
    }

    /// An instruction in a frame of so many bytes.
    pub fn transfer(&mut self, frame: u32, instr: &Instr)
        ensures { known self.new ≡ transferred frame (operation_of instr.now) (known self.old) }
    {
        self.perform(frame, &operation_of(instr));
    }
}
