ghost use Rattle.std.specs.Prelude.{◌≡◌, ◌<◌, ◌^◌, ℕ, Some, None, IfErr, IfOk, map, replicate, true, false};
ghost use Rattle.std.specs.Rc.{rc_str_bytes};
ghost use Rattle.vol_types.specs.Layouts.{is_layout};
ghost use Rattle.shell.specs.Tasks.{layout_asked, task_of};

use command_line::{FormatRequest, Request, WordsFault, read_words};
use std::alloc::{AllocError, Global};
use std::rc::RcStr;
use vol_types::{Blocks, Layout};

/// What is to be done.
#[derive(Drop)]
pub enum Task {
    /// To run the script of the source.
    Run,
    /// To format the devices with this layout.
    Format(Layout),
    /// To say what the devices hold.
    Info,
}

/// Reads what the arguments ask for, on so many devices. It touches none of them. `Usage` says that the arguments are outside the
/// grammar, or that no volume may lie on so many devices as they ask.
pub fn read_task(alloc: Global, arguments: &[RcStr], devices: u8) -> Result<Task, WordsFault>
    ensures ok { IfOk result (λ task. task_of devices (map rc_str_bytes arguments.now) ≡ Some task) }
    ensures usage { IfErr result (λ fault. fault ≡ WordsFault.Usage
        → task_of devices (map rc_str_bytes arguments.now) ≡ None) }
{
    match read_words(alloc, arguments)? {
        Request::Run => Ok(Task::Run),
        Request::Info => Ok(Task::Info),
        Request::Format(asked) => Ok(Task::Format(read_layout(alloc, &asked, devices)?)),
    }
}

// The layout that is asked for, where a volume may lie so.
fn read_layout(alloc: Global, asked: &FormatRequest, devices: u8) -> Result<Layout, WordsFault>
    ensures ok { IfOk result (λ layout. layout ≡ layout_asked devices asked.now) }
    ensures fits { IfOk result (λ layout. is_layout layout ≡ true) }
    ensures usage { IfErr result (λ fault. fault ≡ WordsFault.Usage
        → is_layout (layout_asked devices asked.now) ≡ false) }
{
    if !is_in_range(asked) {
        return Err(WordsFault::Usage);
    }
    let layout = Layout {
        id: asked.id,
        blocks: same_blocks(alloc, asked.blocks as u32, devices)?,
        journal: asked.journal as u32,
        metadata_replicas: asked.meta_replicas as u8,
        data_replicas: asked.data_replicas as u8,
    };
    if layout.is_valid() {
        Ok(layout)
    } else {
        drop(layout);
        Err(WordsFault::Usage)
    }
}

// Whether the numbers are no greater than those of any layout.
#[tactic(auto, using(crate::proofs::Asking::blocks_beyond, crate::proofs::Asking::journal_beyond, crate::proofs::Asking::meta_beyond, crate::proofs::Asking::data_beyond))]
fn is_in_range(asked: &FormatRequest) -> bool
    ensures blocks { result ≡ true → asked.now.blocks < 2 ^ 32 }
    ensures journal { result ≡ true → asked.now.journal < 2 ^ 32 }
    ensures meta { result ≡ true → asked.now.meta_replicas < 2 ^ 8 }
    ensures data { result ≡ true → asked.now.data_replicas < 2 ^ 8 }
    ensures no { (devices : ℕ) → result ≡ false → is_layout (layout_asked devices asked.now) ≡ false }
{
    if asked.blocks > 1_048_576 {
        return false;
    }
    if asked.journal > 4096 {
        return false;
    }
    if asked.meta_replicas > 3 {
        return false;
    }
    asked.data_replicas <= 3
}

// The same number of blocks for each of so many devices.
fn same_blocks(alloc: Global, blocks: u32, devices: u8) -> Result<Blocks, AllocError>
    ensures { IfOk result (λ all. all ≡ replicate devices blocks) }
{
    Ok(Blocks::from(vec![in alloc; blocks; devices as usize]?))
}
