//! Why a declared call depth keeps windows free: in an image that breaks no rule, and whose functions' depths hold of
//! its calls, no run pushes more frames than the first function's depth, and so none runs out of windows where there
//! are two more than that.
//!
//! How it is proved: where a run stands, and with it the calls that are open, is what `sbx_sound` knows of each step
//! (`proofs/Steps.antt`). The frames that such a place shows are one for each open call and one for a framed function,
//! and along the open calls the depths go up by at least one (`proofs/Depths.antt`). SAVE pushes one frame, RESTORE
//! pops one, all else leaves them (`proofs/Frames.antt`); so the windows that are taken count the frames
//! (`proofs/Quiet.antt`).
#![tactic(auto)]

pub mod laws;
