//! Statements in C, a line each.
ghost use Rattle.std.specs.Prelude.{◌≡◌, ℕ, Bool, [], ◌∷◌, ◌++◌, OnOk, codes, false};
ghost use Rattle.std.specs.Fmt.{decimal};
ghost use Rattle.native_text.specs.Terms.{Loads, Stores, action_of, ending_of, sought, term_of};
ghost use Rattle.native_text.specs.Lines.{Branch, action_lines, block_lines, ending_lines, head_lines, jump_lines};
ghost use Rattle.native_text.specs.Lines.{next_number};
ghost use Rattle.native_text.specs.Spelling.{action_points, action_text, all_points, arms_text, bits_text};
ghost use Rattle.native_text.specs.Spelling.{keeping_text, lines_text, switch_text, term_text, variable_text};
ghost use Rattle.native_text.specs.Words.{AreWordArms, AreWordLines, IsWordAction, IsWordTerm};

use crate::text::ProgramText;
use native_lang::{Arm, BlockEnd, Expr, NumberWidth, ProgramBlock, Stmt};
use std::alloc::{AllocError, Global};

/// The body of a program, and how many points it has where a run may pause.
#[derive(Drop)]
pub(crate) struct Body {
    pub text: ProgramText,
    pub points: u32,
}

/// The name of the loads and stores of a width.
fn bits_of(width: NumberWidth) -> &'static str
    ensures { result.now ≡ bits_text width ++ codes "(" }
{
    match width {
        NumberWidth::Byte => "8(",
        NumberWidth::Half => "16(",
        NumberWidth::Word => "32(",
    }
}

impl ProgramText {
    /// A name and an opening bracket, an expression, and the end of a line.
    fn line(&mut self, name: &str, e: &Expr, end: &str) -> Result<(), AllocError>
        ensures text { OnOk result (self.new ≡ self.old ++ codes "    " ++ name.now
            ++ term_text (term_of e.now) ++ end.now) }
        ensures words { OnOk result (IsWordTerm (term_of e.now)) }
    {
        self.put("    ")?;
        self.put(name)?;
        self.expression(e)?;
        self.put(end)
    }

    /// A variable gets what stands behind.
    fn target(&mut self, x: u8) -> Result<(), AllocError>
        ensures { OnOk result (self.new ≡ self.old ++ codes "    " ++ variable_text x ++ codes " = ") }
    {
        self.put("    ")?;
        self.variable(x)?;
        self.put(" = ")
    }

    /// A line of a name alone.
    fn name(&mut self, name: &str) -> Result<(), AllocError>
        ensures { OnOk result (self.new ≡ self.old ++ codes "    " ++ name.now ++ codes ";\n") }
    {
        self.put("    ")?;
        self.put(name)?;
        self.put(";\n")
    }

    /// A load.
    fn load(&mut self, x: u8, width: NumberWidth, address: &Expr) -> Result<(), AllocError>
        ensures text { OnOk result (self.new ≡ self.old ++ action_text 0 false (Loads x width (term_of address.now))) }
        ensures words { OnOk result (IsWordAction (Loads x width (term_of address.now))) }
    {
        self.target(x)?;
        self.put("LOAD")?;
        self.put(bits_of(width))?;
        self.expression(address)?;
        self.put(");\n")
    }

    /// A store.
    fn store(&mut self, width: NumberWidth, address: &Expr, e: &Expr) -> Result<(), AllocError>
        ensures text { OnOk result (self.new ≡ self.old
            ++ action_text 0 false (Stores width (term_of address.now) (term_of e.now))) }
        ensures words { OnOk result (IsWordAction (Stores width (term_of address.now) (term_of e.now))) }
    {
        self.put("    STORE")?;
        self.put(bits_of(width))?;
        self.expression(address)?;
        self.put(", ")?;
        self.expression(e)?;
        self.put(");\n")
    }

    /// A division: the variables of its quotient and its overflow, and its operands.
    fn division(
        &mut self,
        name: &str,
        variables: (u8, u8),
        operands: (&Expr, &Expr, &Expr),
    ) -> Result<(), AllocError>
        ensures text { OnOk result (self.new ≡ self.old ++ name.now ++ variable_text variables.0 ++ codes ", "
            ++ variable_text variables.1 ++ codes ", " ++ term_text (term_of operands.entry.0.now) ++ codes ", "
            ++ term_text (term_of operands.entry.1.now) ++ codes ", "
            ++ term_text (term_of operands.entry.2.now) ++ codes ");\n") }
        ensures words { OnOk result (IsWordTerm (term_of operands.entry.0.now)
            × IsWordTerm (term_of operands.entry.1.now)
            × IsWordTerm (term_of operands.entry.2.now)) }
    {
        self.put(name)?;
        self.variable(variables.0)?;
        self.put(", ")?;
        self.variable(variables.1)?;
        self.put(", ")?;
        self.expression(operands.0)?;
        self.put(", ")?;
        self.expression(operands.1)?;
        self.put(", ")?;
        self.expression(operands.2)?;
        self.put(");\n")
    }

    /// A jump to a label, unless it comes next.
    fn jump(&mut self, label: u32, next: u32) -> Result<(), AllocError>
        ensures text { OnOk result ((n : ℕ) (has_codes : Bool) → self.new ≡ self.old
            ++ lines_text n has_codes (jump_lines next label)) }
        ensures words { OnOk result (AreWordLines (jump_lines next label)) }
    {
        if label == next {
            return Ok(());
        }
        self.put("    goto ")?;
        self.label(label)?;
        self.put(";\n")
    }

    /// A branch to one of two labels.
    fn branch(&mut self, e: &Expr, first: u32, second: u32, next: u32) -> Result<(), AllocError>
        ensures text { OnOk result ((n : ℕ) (has_codes : Bool) → self.new ≡ self.old
            ++ lines_text n has_codes (Branch (term_of e.now) first ∷ jump_lines next second)) }
        ensures words { OnOk result (AreWordLines (Branch (term_of e.now) first ∷ jump_lines next second)) }
    {
        self.line("if (", e, ") goto ")?;
        self.label(first)?;
        self.put(";\n")?;
        self.jump(second, next)
    }

    /// A case of a word, and the label where a run goes on at it, for each arm.
    fn cases(&mut self, arms: &[Arm]) -> Result<(), AllocError>
        ensures text { OnOk result (self.new ≡ self.old ++ arms_text arms.now) }
        ensures words { OnOk result (AreWordArms arms.now) }
    {
        for arm in arms {
            self.put("    case ")?;
            self.word(arm.word)?;
            self.put(": goto ")?;
            self.label(arm.label)?;
            self.put(";\n")?;
        }
        Ok(())
    }

    /// A switch to the label whose word a variable holds.
    fn switch(&mut self, x: u8, arms: &[Arm]) -> Result<(), AllocError>
        ensures text { OnOk result (self.new ≡ self.old ++ switch_text x arms.now) }
        ensures words { OnOk result (AreWordArms arms.now) }
    {
        self.put("    switch (")?;
        self.variable(x)?;
        self.put(") {\n")?;
        self.cases(arms)?;
        self.put("    default: LOST;\n    }\n")
    }

    /// A jump to the label whose word a variable holds. Where there is one label alone it isn't asked: each run comes
    /// to one of them.
    #[tactic(auto, using(crate::proofs::Arms::switches))]
    fn dispatch(&mut self, x: u8, arms: &[Arm], next: u32) -> Result<(), AllocError>
        ensures text { OnOk result ((n : ℕ) (has_codes : Bool) → self.new ≡ self.old
            ++ lines_text n has_codes (ending_lines next (sought x arms.now))) }
        ensures words { OnOk result (AreWordLines (ending_lines next (sought x arms.now))) }
    {
        match arms {
            [arm] => self.jump(arm.label, next),
            _ => self.switch(x, arms),
        }
    }

    /// The end of a block; the label that stands next in the text is given.
    fn end(&mut self, end: &BlockEnd, next: u32) -> Result<(), AllocError>
        ensures text { OnOk result ((n : ℕ) (has_codes : Bool) → self.new ≡ self.old
            ++ lines_text n has_codes (ending_lines next (ending_of end.now))) }
        ensures words { OnOk result (AreWordLines (ending_lines next (ending_of end.now))) }
    {
        match end {
            BlockEnd::Goto(label) => self.jump(*label, next),
            BlockEnd::If(e, first, second) => self.branch(e, *first, *second, next),
            BlockEnd::Exit(e) => self.line("EXIT(", e, ");\n"),
            BlockEnd::Dispatch(x, arms) => self.dispatch(*x, arms.as_slice(), next),
        }
    }
}

impl Body {
    /// Of no block yet.
    pub fn new(alloc: Global) -> Body
        ensures text { result.text ≡ [] }
        ensures points { result.points ≡ 0 }
    {
        Body {
            text: ProgramText::new(alloc),
            points: 0,
        }
    }

    /// A name, and the number of the next point.
    pub fn point(&mut self, name: &str) -> Result<(), AllocError>
        ensures text { OnOk result (self.new.text ≡ self.old.text ++ codes "    " ++ name.now
            ++ decimal (next_number self.old.points) ++ codes ", ") }
        ensures points { OnOk result (self.new.points ≡ next_number self.old.points) }
    {
        self.points = self.points.wrapping_add(1);
        self.text.put("    ")?;
        self.text.put(name)?;
        self.text.number(self.points)?;
        self.text.put(", ")
    }

    /// Which codes a pause keeps.
    fn keeping(&mut self, has_codes: bool) -> Result<(), AllocError>
        ensures text { OnOk result (self.new.text ≡ self.old.text ++ keeping_text has_codes) }
        ensures points { self.new.points ≡ self.old.points }
    {
        self.text
            .put(if has_codes { "CODES, " } else { "NO_CODES, " })
    }

    /// A statement. A pause in it keeps the condition codes where they are made.
    fn statement(&mut self, stmt: &Stmt, has_codes: bool) -> Result<(), AllocError>
        ensures text { OnOk result (self.new.text ≡ self.old.text
            ++ action_text self.old.points has_codes (action_of stmt.now)) }
        ensures points { OnOk result (self.new.points ≡ action_points self.old.points (action_of stmt.now)) }
        ensures words { OnOk result (IsWordAction (action_of stmt.now)) }
    {
        match stmt {
            Stmt::Set(x, e) => {
                self.text.target(*x)?;
                self.text.expression(e)?;
                self.text.put(";\n")
            }
            Stmt::Load(x, width, address) => self.text.load(*x, *width, address),
            Stmt::Store(width, address, e) => self.text.store(*width, address, e),
            Stmt::Divide(x, overflow, sign, y, a, b) => {
                let name = if *sign { "    SDIV(" } else { "    UDIV(" };
                self.text.division(name, (*x, *overflow), (y, a, b))
            }
            Stmt::Get(x) => {
                self.point("GET(")?;
                self.keeping(has_codes)?;
                self.text.variable(*x)?;
                self.text.put(");\n")
            }
            Stmt::Put(e) => {
                self.point("PUT(")?;
                self.keeping(has_codes)?;
                self.text.expression(e)?;
                self.text.put(");\n")
            }
            Stmt::Turns(k) => {
                self.text.put("    TURNS(")?;
                self.text.word(u32::from(*k))?;
                self.text.put(");\n")
            }
            Stmt::Enter => self.text.name("ENTER"),
            Stmt::Leave => self.text.name("LEAVE"),
            Stmt::Push => self.text.name("PUSH"),
            Stmt::Pop => self.text.name("POP"),
        }
    }

    /// The statements of a block.
    fn statements(&mut self, statements: &[Stmt]) -> Result<(), AllocError>
        ensures text { OnOk result (self.new.text ≡ self.old.text
            ++ lines_text self.old.points false (action_lines statements.now)) }
        ensures points { OnOk result (self.new.points ≡ all_points self.old.points (action_lines statements.now)) }
        ensures words { OnOk result (AreWordLines (action_lines statements.now)) }
    {
        let mut has_codes = false;
        for stmt in statements {
            self.statement(stmt, has_codes)?;
            has_codes |= crate::points::makes_codes(stmt);
        }
        Ok(())
    }

    /// The line of a label where a run by steps may pause.
    fn head(&mut self, is_head: bool) -> Result<(), AllocError>
        ensures text { OnOk result (self.new.text ≡ self.old.text
            ++ lines_text self.old.points false (head_lines is_head)) }
        ensures points { OnOk result (self.new.points ≡ all_points self.old.points (head_lines is_head)) }
    {
        if is_head {
            self.point("HEAD(")?;
            self.text.put("NO_CODES);\n")?;
        }
        Ok(())
    }

    /// A block, whose label is given, and whether a run by steps may pause there.
    pub fn block(
        &mut self,
        block: &ProgramBlock,
        label: u32,
        is_head: bool,
    ) -> Result<(), AllocError>
        ensures text { OnOk result (self.new.text ≡ self.old.text
            ++ lines_text self.old.points false (block_lines label is_head block.now)) }
        ensures points { OnOk result (self.new.points
            ≡ all_points self.old.points (block_lines label is_head block.now)) }
        ensures words { OnOk result (AreWordLines (block_lines label is_head block.now)) }
    {
        self.text.label(label)?;
        self.text.put(":;\n")?;
        self.head(is_head)?;
        self.statements(block.statements.as_slice())?;
        self.text.end(&block.end, label.wrapping_add(1))
    }
}
