//! The law of the board's run of an image, beside the flat machine. It is the contract of a function that does nothing.
ghost use Rattle.sbx_run.specs.Answer.{SafeImagesExit};

/// On a board of any registers, any Y, any bytes of RAM and any earlier output, the run of a safe image from the start
/// that loading makes of it, up to the image's budget, exits as each flat run does; and each of its turns is one that
/// the image may make.
pub fn safe_images_exit_on_any_board()
    ensures { SafeImagesExit }
{}
