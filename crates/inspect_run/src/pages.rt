//! The pages that a run used.
ghost use Rattle.std.specs.Prelude.{◌≡◌, ◌++◌, OnOk, string_bytes};
ghost use Rattle.inspect_run.specs.Reports.{pages_text, table_text};

use inspect_lines::push_marks;
use sbx_raw::PageUse;
use std::alloc::AllocError;

/// A table by its name and its first page's address, and the marks of its pages.
fn push_table(
    out: &mut String,
    name: &str,
    referenced: u64,
    modified: u64,
) -> Result<(), AllocError>
    ensures { OnOk result (string_bytes out.new ≡ string_bytes out.old ++ table_text name.now referenced modified) }
{
    out.push_str(name)?;
    push_marks(out, referenced, modified)
}

/// The marks of the pages of code, data and stack.
pub fn push_pages(out: &mut String, pages: &PageUse) -> Result<(), AllocError>
    ensures { OnOk result (string_bytes out.new ≡ string_bytes out.old ++ pages_text pages.now) }
{
    let (referenced, modified) = (&pages.referenced, &pages.modified);
    out.push_str("pages, each a mark: R referenced, M modified")?;
    push_table(out, "\n  code  00040000 ", referenced[0], modified[0])?;
    push_table(out, "\n  data  00080000 ", referenced[1], modified[1])?;
    push_table(out, "\n  stack 000C0000 ", referenced[2], modified[2])?;
    out.push_str("\n")
}
