//! What the words of a command line ask for.

/// What is told of `--help`, and of words that ask for nothing.
pub const USAGE: &str = "Usage: native IMG [-o OUT.c]
       native build IMG -o OUT.so [--compiler CC] [--unmasked] [--uncounted]
       native run IMG [--compiler CC] [--unmasked]

Turns an image that `sandbox verify` accepts into C, which can run nearly as fast as the program
that the image was made of: it has no test of bounds and no fuel. An image that isn't accepted is
refused.

  native IMG         the image as C, to OUT.c or to standard output
  native build       the same, compiled to a shared object
  native run         runs the image on standard input: compiled, and kept in a cache by the hashes of
                     image, translation and compiler; on the engine where there is no compiler

  -o OUT             where the C or the object goes; - is standard output
  --compiler CC      the C compiler (gcc, clang or tcc; by default the first one that is there)
  --unmasked         addresses aren't held to the data's block by a mask
  --uncounted        turns and window traps aren't counted

Status 0: done, or the exit word is 0. 1: the exit word isn't 0. 2: the image is refused. 3: wrong
arguments. 4: a file, a stream or the compiler fails, or memory.
";

/// What words ask for.
#[derive(Clone, Copy)]
pub struct NativeAsked<'a> {
    pub image: &'a str,
    pub out: Option<&'a str>,
}

/// What words ask for, if each has a place.
pub fn read_words(words: &[String]) -> Option<NativeAsked<'_>> {
    let (image, out) = match words {
        [image] => (image, None),
        [image, option, out] if option.as_str() == "-o" => (image, Some(out.as_str())),
        [option, out, image] if option.as_str() == "-o" => (image, Some(out.as_str())),
        _ => return None,
    };
    if matches!(image.as_bytes(), [b'-', ..]) {
        return None;
    }
    Some(NativeAsked {
        image: image.as_str(),
        out,
    })
}
