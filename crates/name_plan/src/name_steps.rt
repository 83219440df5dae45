ghost use Rattle.std.specs.Prelude.{◌≡◌, ◌++◌, IfOk};
ghost use Rattle.name_plan.specs.NameSteps.{step_made};

use dirent_keys::NameStep;
use forest_ops::Cause;
use std::alloc::AllocError;
use vol_types::Updates;

/// The updates of a step on a name, or why it isn't taken.
pub fn step_made(step: NameStep) -> Result<Updates, Cause>
    ensures { result ≡ step_made step }
{
    match step {
        NameStep::Done(updates) => Ok(updates),
        NameStep::Exists => Err(Cause::Exists),
        NameStep::Crowded => Err(Cause::Crowded),
    }
}

/// The updates one after the other.
pub fn joined(first: Updates, second: Updates) -> Result<Updates, AllocError>
    ensures { IfOk result (λ all. all ≡ first ++ second) }
{
    let mut all = first;
    let mut last = second;
    all.append(&mut last)?;
    Ok(all)
}
