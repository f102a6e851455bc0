//! A block that is being made, with the turns that aren't counted yet.
ghost use Rattle.std.specs.Prelude.{◌≡◌, ℕ, ◌+◌, ◌≤◌, ◌⊎◌, ◌++◌, Bool, true, false, [], IfOk, Some, None, if◌then◌else◌};
ghost use Rattle.v8_formats.specs.declared.instr.Trap.{Trap};
ghost use Rattle.v8_meaning.specs.declared.operation.Operation.TheVariants.{TrapOnCondition};
ghost use Rattle.sbx_image.specs.Order.{code_end};
ghost use Rattle.sbx_image.specs.Parts.{Parts};
ghost use Rattle.sbx_flat.specs.Effects.{service_of};
ghost use Rattle.native_lang.specs.declared.program.BlockEnd.TheVariants.{Goto};
ghost use Rattle.native_results.specs.Words.{is_straight};
ghost use Rattle.native_ends.specs.Translations.{AsksFor, Begins, Labelled, is_put, turns_of};
ghost use Rattle.native_flow.specs.Making.{IsMade, Passes, Stands, counted, due, left};

use native_lang::{BlockEnd, Expr, ProgramBlock, Stmt};
use native_results::Statements;
use native_words::word;
use std::alloc::{AllocError, Global};
use v8_meaning::Operation;

/// How many turns are counted by one statement at most.
const MOST_TURNS: u16 = 60_000;

/// The turns of a service's trap: its own and those of its handler.
const EXIT_TURNS: u16 = 3;

const GET_TURNS: u16 = 5;

const PUT_TURNS: u16 = 5;

/// %o0, by which services take and give.
const O0: u8 = 8;

#[derive(Drop)]
pub(crate) struct BlockMaking {
    pub statements: Statements,
    turns: u16,
}

/// Whether an operation counts its own turns, as SAVE and RESTORE do.
pub(crate) fn counts_itself(operation: &Operation) -> bool
    ensures { turns_of operation.now ≡ (if result then 0 else 1) }
{
    matches!(operation, Operation::Save(_) | Operation::Restore(_))
}

impl BlockMaking {
    /// Of no statement yet.
    pub fn new(alloc: Global) -> BlockMaking
        ensures stands { (parts : Parts) (labels : Labelled) (f start : ℕ) →
            Stands parts labels f start false start result }
        ensures list { result.statements.list.items ≡ [] }
        ensures turns { result.turns ≡ 0 }
    {
        BlockMaking {
            statements: Statements::new(alloc),
            turns: 0,
        }
    }

    /// Counts what was made since the last time.
    fn count(&mut self) -> Result<(), AllocError>
        ensures list { IfOk result (λ _. self.new.statements.list.items ≡
            self.old.statements.list.items ++ counted self.old.turns) }
        ensures turns { IfOk result (λ _. self.new.turns ≡ 0) }
    {
        if self.turns > 0 {
            self.statements.push(Stmt::Turns(self.turns))?;
        }
        self.turns = 0;
        Ok(())
    }

    /// So many turns more.
    pub fn turns(&mut self, more: u16) -> Result<(), AllocError>
        ensures list { IfOk result (λ _. self.new.statements.list.items ≡
            self.old.statements.list.items ++ due self.old.turns) }
        ensures turns { more ≤ 5 → IfOk result (λ _. self.new.turns ≡ left self.old.turns + more) }
    {
        if self.turns >= MOST_TURNS {
            self.count()?;
        }
        self.turns = self.turns.saturating_add(more);
        Ok(())
    }

    /// A word that is no transfer of control and no service. SAVE and RESTORE count their own turns.
    pub fn word(&mut self, operation: &Operation) -> Result<(), AllocError>
        ensures { IfOk result (λ _. is_straight operation.now ≡ true → Passes operation.now self.old self.new) }
    {
        if counts_itself(operation) {
            return word(&mut self.statements, operation);
        }
        self.turns(1)?;
        word(&mut self.statements, operation)
    }

    /// The next byte of the input goes to %o0. What was made before is counted, since a run may pause here.
    pub fn get(&mut self) -> Result<(), AllocError>
        ensures { IfOk result (λ _. (t : Trap) → service_of t ≡ Some 1 → Passes (TrapOnCondition t) self.old self.new) }
    {
        self.count()?;
        self.statements.push(Stmt::Get(O0))?;
        self.turns(GET_TURNS)
    }

    /// The low byte of %o0 goes out.
    pub fn put(&mut self) -> Result<(), AllocError>
        ensures { IfOk result (λ _. (t : Trap) → is_put (service_of t) ≡ true →
            Passes (TrapOnCondition t) self.old self.new) }
    {
        self.count()?;
        self.statements.push(Stmt::Put(Expr::Variable(O0)))?;
        self.turns(PUT_TURNS)
    }

    /// The block, which ends so.
    pub fn ended(self, end: BlockEnd) -> Result<ProgramBlock, AllocError>
        ensures list { IfOk result (λ block. block.statements.items ≡ self.statements.list.items ++ counted self.turns) }
        ensures end { IfOk result (λ block. block.end ≡ end) }
        ensures falls { IfOk result (λ block. (parts : Parts) (labels : Labelled) (f start a : ℕ) →
            Begins parts a ⊎ (code_end parts ≤ a) → end ≡ Goto (labels.at a) → Stands parts labels f start true a self →
            IsMade parts labels f start block None) }
    {
        let mut making = self;
        making.count()?;
        let BlockMaking { statements, .. } = making;
        Ok(ProgramBlock {
            statements: statements.list,
            end,
        })
    }

    /// The block of a run's end, with the exit word in %o0.
    pub fn exit(self) -> Result<ProgramBlock, AllocError>
        ensures { IfOk result (λ block. (parts : Parts) (labels : Labelled) (f start : ℕ) (some : Bool) (a : ℕ)
            (t : Trap) → AsksFor parts a (TrapOnCondition t) → service_of t ≡ Some 0 →
            Stands parts labels f start some a self → IsMade parts labels f start block None) }
    {
        let mut making = self;
        making.turns(EXIT_TURNS)?;
        making.ended(BlockEnd::Exit(Expr::Variable(O0)))
    }
}
