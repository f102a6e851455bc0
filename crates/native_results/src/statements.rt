//! Statements that are made one after another.
ghost use Rattle.std.specs.Prelude.{◌≡◌, ◌<◌, ◌==◌, ◌++◌, ◌∷◌, List, [], IfOk, if◌then◌else◌};
ghost use Rattle.native_lang.specs.declared.stmt.Stmt.TheVariants.{Set};

use native_lang::{Expr, Stmt};
use std::alloc::{AllocError, Global};
use v8_word::Reg;

/// Statements that are made one after another.
#[derive(Drop)]
pub struct Statements {
    pub alloc: Global,
    pub list: Vec<Stmt>,
}

impl Statements {
    /// None yet.
    pub fn new(alloc: Global) -> Statements
        ensures { result.list.items ≡ [] }
    {
        Statements {
            alloc,
            list: Vec::new(alloc),
        }
    }

    /// One more.
    pub fn push(&mut self, stmt: Stmt) -> Result<(), AllocError>
        ensures { IfOk result (λ _. self.new.list.items ≡ self.old.list.items ++ stmt ∷ []) }
    {
        self.list.push(stmt)?;
        Ok(())
    }

    /// A variable gets a value.
    pub fn set(&mut self, variable: u8, e: Expr) -> Result<(), AllocError>
        ensures { IfOk result (λ _. self.new.list.items ≡ self.old.list.items ++ Set variable e ∷ []) }
    {
        self.push(Stmt::Set(variable, e))
    }

    /// A value goes to a register, unless it is %g0.
    pub fn assign(&mut self, rd: Reg, e: Expr) -> Result<(), AllocError>
        ensures list { IfOk result (λ _. self.new.list.items ≡
            self.old.list.items ++ (if rd == 0 then [] else Set rd e ∷ [])) }
        ensures low { rd < 32 }
    {
        let number = rd.number();
        if number == 0 {
            return Ok(());
        }
        self.set(number, e)
    }
}
