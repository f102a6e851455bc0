//! Which images are run.
ghost use Rattle.std.specs.Prelude.{◌≡◌, IfErr, IfOk, IfSome, IsNone, ◌++◌, ◌∷◌, []};
ghost use Rattle.host.specs.Policies.{AddsAdmitted, DeniesRightly};

use crate::policy::{Denial, Policy, admit};
use cmd_command::{ReadFault, read_whole};
use sbx_run::Accepted;
use std::alloc::Global;
use std::io::Read;
use want::Want;

/// The most bytes that a file may have which is read whole.
pub const MOST: usize = 16_777_216;

/// Reads an image, judges it, and puts it behind those that are run where the policy admits it; else the list stays
/// as it is, and the denial is given. So what was denied is never among what is run.
pub fn judge<F: Read>(
    alloc: Global,
    policy: Policy,
    file: &mut F,
    images: &mut Vec<Accepted>,
) -> Result<Option<Denial>, ReadFault>
    ensures admitted { IfOk result (λ denial. IsNone denial
        → AddsAdmitted policy (F.remaining file.old) images.old.items images.new.items) }
    ensures denied { IfOk result (λ denial. IfSome denial (DeniesRightly policy (F.remaining file.old))) }
    ensures left_out { IfOk result (λ denial. IfSome denial (λ _. images.new.items ≡ images.old.items)) }
    ensures fault { IfErr result (λ _. images.new.items ≡ images.old.items) }
{
    let bytes = read_whole(alloc, file, MOST)?;
    match admit(alloc, policy, bytes.as_slice()) {
        Ok(accepted) => match images.push(accepted) {
            Ok(()) => Ok(None),
            Err(failed) => Err(ReadFault::Memory(Want::from(failed))),
        },
        Err(denial) => Ok(Some(denial)),
    }
}
