//! `fit annotate`: a source in the project's own language gets the annotations that it hasn't got.
use fit_annotate::{Note, find};
use fit_command::{Arguments, LACKING, bytes_of, tell_annotation_refusal, write_source};
use fit_kept::annotate;

/// Gives the source at a path its annotations, tells each note, and gives the exit status. Where there are notes, and
/// the words say that this is an error, no source is written.
pub fn perform(rt: &HostRuntime, words: &Arguments<'_>, path: &str) -> u8 {
    let bytes = match bytes_of(rt, path) {
        Ok(bytes) => bytes,
        Err(status) => return status,
    };
    let (alloc, source) = (rt.alloc(), bytes.as_slice());
    let found = match find(alloc, source) {
        Ok(found) => found,
        Err(refusal) => return tell_annotation_refusal(rt, path, &refusal),
    };
    let (additions, totals) = (found.additions.as_slice(), found.totals.as_slice());
    match annotate(alloc, source, additions, totals) {
        Ok(made) => {
            for Note { line, asked } in found.notes.as_slice() {
                let _ = eprintln!(rt; "{path}:{line}: note: {asked}");
            }
            if words.is_strict && !found.notes.is_empty() {
                return LACKING;
            }
            write_source(rt, words, made.as_slice())
        }
        Err(refusal) => tell_annotation_refusal(rt, path, &refusal),
    }
}
