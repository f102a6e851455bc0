//! What a line is.
ghost use Rattle.std.specs.Prelude.{◌≡◌};
ghost use Rattle.sbx_asm.specs.Items.{starts_function, ends_function, is_block, ends_block, is_text, is_data};
ghost use Rattle.sbx_asm.specs.Items.{is_region, has_bytes};

use crate::reading::Line;
use sbx_directives::{Directive, Keyword, Statement};

/// A `.function`.
pub fn starts_function(line: &Line<'_, '_>) -> bool
    ensures { result ≡ starts_function line.now }
{
    matches!(
        line.said(),
        Ok(Statement::Directive(Directive::Function { .. }))
    )
}

/// A `.function`, whatever its operands: it ends the function before it.
pub fn ends_function(line: &Line<'_, '_>) -> bool
    ensures { result ≡ ends_function line.now }
{
    starts_function(line) || matches!(line.said(), Ok(Statement::Malformed(Keyword::Function, _)))
}

/// A `.block`, whatever its operands.
pub fn is_block(line: &Line<'_, '_>) -> bool
    ensures { result ≡ is_block line.now }
{
    matches!(
        line.said(),
        Ok(Statement::Directive(Directive::Block(_)) | Statement::Malformed(Keyword::Block, _))
    )
}

/// A block ends where another one or a function begins.
pub fn ends_block(line: &Line<'_, '_>) -> bool
    ensures { result ≡ ends_block line.now }
{
    ends_function(line) || is_block(line)
}

/// A `.text`.
pub fn is_text(line: &Line<'_, '_>) -> bool
    ensures { result ≡ is_text line.now }
{
    matches!(line.said(), Ok(Statement::Directive(Directive::Text)))
}

/// A `.data`.
pub fn is_data(line: &Line<'_, '_>) -> bool
    ensures { result ≡ is_data line.now }
{
    matches!(line.said(), Ok(Statement::Directive(Directive::Data)))
}

/// A `.region`.
pub fn is_region(line: &Line<'_, '_>) -> bool
    ensures { result ≡ is_region line.now }
{
    matches!(
        line.said(),
        Ok(Statement::Directive(Directive::Region { .. }))
    )
}

/// A list of values, or zeros; at the start of a region `.align` gives none.
pub fn has_bytes(line: &Line<'_, '_>) -> bool
    ensures { result ≡ has_bytes line.now }
{
    match line.said() {
        Ok(Statement::Directive(Directive::Values(..))) => true,
        Ok(Statement::Directive(Directive::Skip(count))) => count > 0,
        _ => false,
    }
}
