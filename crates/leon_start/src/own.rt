//! Words that stand in the place of those that loading an image makes.
ghost use Rattle.std.specs.Prelude.{◌≡◌, ◌+◌, ◌-◌, ◌<◌, ◌≤◌, None, Some, length, slice_index};
ghost use Rattle.leon_start.specs.Own.{own_word, word_in};

/// Words that lie in RAM one behind another. `first` is the number of the first one: RAM begins with word 0.
#[derive(Clone, Copy)]
pub struct OwnWords<'a> {
    pub first: u64,
    pub words: &'a [u32],
}

/// The word of a number that these are, where it is one of them.
fn word_in(own: &OwnWords<'_>, number: u64) -> Option<u32>
    ensures { result ≡ word_in own.now number }
{
    if number < own.first {
        return None;
    }
    match own.words.get((number - own.first) as usize) {
        Some(word) => Some(*word),
        None => None,
    }
}

/// The word of a number by the first of these that have it.
pub fn own_word(parts: &[OwnWords<'_>], number: u64) -> Option<u32>
    ensures { result ≡ own_word parts.now number }
{
    for part in parts {
        let word = word_in(part, number);
        if word.is_some() {
            return word;
        }
    }
    None
}
