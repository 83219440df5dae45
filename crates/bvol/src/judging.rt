ghost use Rattle.std.specs.Prelude.{◌≡◌, ◌⊎◌, None, Some, Err, IfOk, map};
ghost use Rattle.std.specs.Rc.{rc_str_bytes};
ghost use Rattle.shell.specs.Tasks.{task_of};
ghost use Rattle.bvol.specs.declared.refusal.NotBegun.{NotBegun};
ghost use Rattle.bvol.specs.declared.refusal.NotBegun.TheVariants.{Memory, Usage};

use crate::refusal::NotBegun;
use command_line::WordsFault;
use shell::{Task, read_task};
use std::alloc::Global;
use std::rc::RcStr;

/// What the arguments ask for on so many images. So arguments are refused before an image is opened.
pub fn judge_arguments(alloc: Global, arguments: &[RcStr], images: u8) -> Result<Task, NotBegun>
    ensures ok { IfOk result (λ task. task_of images (map rc_str_bytes arguments.now) ≡ Some task) }
    ensures cause { (refusal : NotBegun) → result ≡ Err refusal → (refusal ≡ Memory)
        ⊎ ((refusal ≡ Usage) × (task_of images (map rc_str_bytes arguments.now) ≡ None)) }
{
    let read = read_task(alloc, arguments, images);
    match read {
        Ok(task) => Ok(task),
        Err(WordsFault::Usage) => {
            drop(read);
            Err(NotBegun::Usage)
        }
        Err(WordsFault::NoMemory) => {
            drop(read);
            Err(NotBegun::Memory)
        }
    }
}
