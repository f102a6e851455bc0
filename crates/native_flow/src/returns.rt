//! The blocks where functions return.
ghost use Rattle.std.specs.Prelude.{◌≡◌, IfOk};
ghost use Rattle.native_flow.specs.Returning.{IsReturning, arms_for};

use crate::labels::Labels;
use native_lang::variables::CALLED;
use native_lang::{Arm, BlockEnd, ProgramBlock};
use std::alloc::{AllocError, Global};

/// The places behind the calls of a function: a run goes on at the one behind the call whose address CALLED holds.
fn arms_of(alloc: Global, labels: &Labels, entry: u32) -> Result<Vec<Arm>, AllocError>
    ensures { IfOk result (λ arms. arms.items ≡ arms_for labels.now.starts.items entry labels.now.sites.items) }
{
    let mut arms = Vec::new(alloc);
    for site in labels.sites.as_slice() {
        if site.entry == entry {
            let label = labels.at(site.address.wrapping_add(8));
            arms.push(Arm {
                word: site.address,
                label,
            })?;
        }
    }
    Ok(arms)
}

/// The block where the function with this entry returns.
pub(crate) fn returns_of(
    alloc: Global,
    labels: &Labels,
    entry: u32,
) -> Result<ProgramBlock, AllocError>
    ensures { IfOk result (λ block. IsReturning labels.now.starts.items labels.now.sites.items entry block) }
{
    Ok(ProgramBlock {
        statements: Vec::new(alloc),
        end: BlockEnd::Dispatch(CALLED, arms_of(alloc, labels, entry)?),
    })
}
