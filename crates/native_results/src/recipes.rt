//! How the result, the codes and Y of an operation are made of its operands.
ghost use Rattle.std.specs.Prelude.{◌≡◌, true, false, None, Some};
ghost use Rattle.native_results.specs.declared.recipes.OperandsBy.TheVariants.{AsTheyAre, SecondTurned, Stepped};
ghost use Rattle.native_lang.specs.declared.operator.Operator.TheVariants.{Product};
ghost use Rattle.native_results.specs.Recipes.{IsRecipe};

use crate::codes::CodesBy;
use native_lang::Operator;
use v8_alu::Op;

/// What is done to the operands first.
#[derive(Clone, Copy)]
pub(crate) enum OperandsBy {
    /// Nothing.
    AsTheyAre,
    /// The second one is its complement.
    SecondTurned,
    /// Those of a multiply step, with its Y.
    Stepped,
}

/// How an operation is made.
#[derive(Clone, Copy)]
pub(crate) struct Recipe {
    pub operands: OperandsBy,
    /// The operator on the operands that gives the result.
    pub operator: Operator,
    /// Whether the carry is added to the result, or taken from it, by the same operator.
    pub carry: bool,
    /// The operator on the operands that gives Y.
    pub high: Option<Operator>,
    pub codes: Option<CodesBy>,
    /// Whether V is also set where an operand is tagged.
    pub tags: bool,
}

/// An operator on the operands as they are, without codes.
fn plain(operator: Operator) -> Recipe
    ensures { result ≡ record {
      operands = AsTheyAre;
      operator = operator;
      carry = false;
      high = None;
      codes = None;
      tags = false;
    } }
{
    Recipe {
        operands: OperandsBy::AsTheyAre,
        operator,
        carry: false,
        high: None,
        codes: None,
        tags: false,
    }
}

/// A product, and its high word as Y.
fn product(high: Operator) -> Recipe
    ensures { result ≡ record {
      operands = AsTheyAre;
      operator = Product;
      carry = false;
      high = Some high;
      codes = None;
      tags = false;
    } }
{
    Recipe {
        high: Some(high),
        ..plain(Operator::Product)
    }
}

impl Recipe {
    /// The same of the second operand's complement.
    fn turned(self) -> Recipe
        ensures { result ≡ record self { operands = SecondTurned } }
    {
        Recipe {
            operands: OperandsBy::SecondTurned,
            ..self
        }
    }

    /// The same of a multiply step's operands.
    fn stepped(self) -> Recipe
        ensures { result ≡ record self { operands = Stepped } }
    {
        Recipe {
            operands: OperandsBy::Stepped,
            ..self
        }
    }

    /// The same with the carry.
    fn carried(self) -> Recipe
        ensures { result ≡ record self { carry = true } }
    {
        Recipe {
            carry: true,
            ..self
        }
    }

    /// The same with codes.
    fn coded(self, codes: CodesBy) -> Recipe
        ensures { result ≡ record self { codes = Some codes } }
    {
        Recipe {
            codes: Some(codes),
            ..self
        }
    }

    /// The same, where V tells of tags, too.
    fn tagged(self) -> Recipe
        ensures { result ≡ record self { tags = true } }
    {
        Recipe { tags: true, ..self }
    }
}

/// The recipe of an operation.
pub(crate) fn recipe_of(op: Op) -> Recipe
    ensures { IsRecipe op result }
{
    match op {
        Op::Add => plain(Operator::Sum),
        Op::AddCc => plain(Operator::Sum).coded(CodesBy::Sum),
        Op::Addx => plain(Operator::Sum).carried(),
        Op::AddxCc => plain(Operator::Sum).carried().coded(CodesBy::SumWithCarry),
        Op::Sub => plain(Operator::Difference),
        Op::SubCc => plain(Operator::Difference).coded(CodesBy::Difference),
        Op::Subx => plain(Operator::Difference).carried(),
        Op::SubxCc => plain(Operator::Difference)
            .carried()
            .coded(CodesBy::DifferenceWithBorrow),
        Op::And => plain(Operator::Both),
        Op::AndCc => plain(Operator::Both).coded(CodesBy::Logic),
        Op::Andn => plain(Operator::Both).turned(),
        Op::AndnCc => plain(Operator::Both).turned().coded(CodesBy::Logic),
        Op::Or => plain(Operator::Either),
        Op::OrCc => plain(Operator::Either).coded(CodesBy::Logic),
        Op::Orn => plain(Operator::Either).turned(),
        Op::OrnCc => plain(Operator::Either).turned().coded(CodesBy::Logic),
        Op::Xor => plain(Operator::Differing),
        Op::XorCc => plain(Operator::Differing).coded(CodesBy::Logic),
        Op::Xnor => plain(Operator::Differing).turned(),
        Op::XnorCc => plain(Operator::Differing).turned().coded(CodesBy::Logic),
        Op::Sll => plain(Operator::ShiftLeft),
        Op::Srl => plain(Operator::ShiftRight),
        Op::Sra => plain(Operator::ShiftRightSigned),
        Op::Umul => product(Operator::HighProduct),
        Op::UmulCc => product(Operator::HighProduct).coded(CodesBy::Logic),
        Op::Smul => product(Operator::HighSignedProduct),
        Op::SmulCc => product(Operator::HighSignedProduct).coded(CodesBy::Logic),
        Op::TaddCc => plain(Operator::Sum).coded(CodesBy::Sum).tagged(),
        Op::TsubCc => plain(Operator::Difference)
            .coded(CodesBy::Difference)
            .tagged(),
        Op::MulsCc => plain(Operator::Sum).stepped().coded(CodesBy::Sum),
    }
}
