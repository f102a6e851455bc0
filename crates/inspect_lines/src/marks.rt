//! Marks of pages.
ghost use Rattle.std.specs.Prelude.{◌≡◌, ◌<◌, [], ◌∷◌, ◌++◌, OnOk, string_bytes};
ghost use Rattle.inspect_lines.specs.Marks.{mark, marks_text};

use std::alloc::AllocError;

/// The mark of a page.
fn mark(referenced: u64, modified: u64, page: u32) -> &'static str
    requires { page < 64 }
    ensures { result.now ≡ mark referenced modified page ∷ [] }
{
    if (modified >> page) & 1 == 1 {
        "M"
    } else if (referenced >> page) & 1 == 1 {
        "R"
    } else {
        "."
    }
}

/// The marks of the 64 pages of a table: `M` of a page that was modified, `R` of one that was referenced alone, else a
/// dot.
pub fn push_marks(out: &mut String, referenced: u64, modified: u64) -> Result<(), AllocError>
    ensures { OnOk result (string_bytes out.new ≡ string_bytes out.old ++ marks_text referenced modified 64) }
{
    for page in 0..64 {
        out.push_str(mark(referenced, modified, page))?;
    }
    Ok(())
}
