// The names of directives and annotations.
ghost use Rattle.std.specs.Prelude.{◌≡◌};
ghost use Rattle.sbx_directives.specs.Directives.{keyword_named};

use crate::directive::Keyword;
use v8_syntax::{beside, sign_byte};

static KEYWORDS: [(&str, Keyword); 18] = [
    (".text", Keyword::Text),
    (".data", Keyword::Data),
    (".region", Keyword::Region),
    (".services", Keyword::Services),
    (".stack", Keyword::Stack),
    (".function", Keyword::Function),
    (".param", Keyword::Param),
    (".result", Keyword::Result),
    (".depth", Keyword::Depth),
    (".block", Keyword::Block),
    (".cell", Keyword::Cell),
    (".fuel", Keyword::Fuel),
    (".term", Keyword::Term),
    (".word", Keyword::Word),
    (".half", Keyword::Half),
    (".byte", Keyword::Byte),
    (".skip", Keyword::Skip),
    (".align", Keyword::Align),
];

/// The keyword of a name. All begin with a dot, and most names do not.
#[tactic(auto, unfolding(crate::specs::Directives::keyword_named, crate::specs::Directives::named_keywords))]
pub fn keyword_named(name: &[u8]) -> Option<Keyword>
    ensures { result ≡ keyword_named name.now }
{
    if sign_byte(name) != b'.' {
        return None;
    }
    beside(name, &KEYWORDS)
}
