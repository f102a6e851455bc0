// Laws of the table of forms.
ghost use Rattle.v8_forms.specs.Laws.{CoversTheTable, TellsFormsApart};

/// No two forms of statements have a name and the kinds of their operands in common.
#[tactic(auto, using(crate::proofs::Tables::tells_apart))]
pub fn forms_are_told_apart()
    ensures { TellsFormsApart }
{}

/// The words of the forms of instructions are of instructions with a syntax, and each row of the format table with a
/// syntax has such a form.
#[tactic(auto, using(crate::proofs::Tables::covers_table))]
pub fn forms_cover_the_table()
    ensures { CoversTheTable }
{}
