// What the map of registers means, for callers that read after a write.
ghost use Rattle.v8_windows.specs.Laws.{ReadsWritten, ReadsOthers, WritesOnePlace, OutsAreIns};

/// A register but r0 reads the word that was last written to it.
pub fn reads_what_was_written()
    ensures { ReadsWritten }
{}

/// Every other register reads as before.
pub fn reads_others_as_before()
    ensures { ReadsOthers }
{}

/// A write changes one place of the map from windows and registers to words.
pub fn writes_one_place()
    ensures { WritesOnePlace }
{}

/// The outs of a window are the ins of the window below.
pub fn outs_are_ins_below()
    ensures { OutsAreIns }
{}
