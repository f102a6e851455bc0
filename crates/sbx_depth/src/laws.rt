//! Each law is the contract of a function that does nothing.
ghost use Rattle.sbx_depth.specs.Examples.{DepthsAreThese};
ghost use Rattle.sbx_depth.specs.Law.{DeclaredDepthIsEnough, DeclaredDepthsHold, DepthBoundsAnswers, DepthBoundsFrames};
ghost use Rattle.sbx_depth.specs.Law.{DepthBoundsTraffic};

/// In an image that breaks no rule, and whose depths hold of its calls, no state of a run on any input has more frames
/// above the first one than the first function's depth.
pub fn depth_bounds_frames()
    ensures { DepthBoundsFrames }
{}

/// On a machine with two windows more than that depth, or with more, no run of such an image overflows a window or
/// underflows one.
pub fn depth_bounds_traffic()
    ensures { DepthBoundsTraffic }
{}

/// So the path along which such an image answers on an input has no overflow and no underflow.
pub fn depth_bounds_answers()
    ensures { DepthBoundsAnswers }
{}

/// The depths that an image of version 3 declares hold of its calls, where it breaks no rule.
pub fn declared_depths_hold()
    ensures { DeclaredDepthsHold }
{}

/// So a run of such an image overflows no window and underflows none where there are two more than its first function
/// declares.
pub fn declared_depth_is_enough()
    ensures { DeclaredDepthIsEnough }
{}

/// Depths that hold of a loop, of a call of a leaf and of a chain of calls, and such as don't; and what that chain
/// costs on 4, 32, 41 and 42 windows.
pub fn depths_are_these()
    ensures { DepthsAreThese }
{}
