ghost use Rattle.std.specs.Prelude.{◌≡◌, ℕ, List, IfOk, IfErr, OnOk, true};
ghost use Rattle.dev_model.specs.Frames.{GoOn};
ghost use Rattle.geometry.specs.Layouts.{is_layout_of};
ghost use Rattle.replay.specs.Volumes.{found_in};
ghost use Rattle.shell.specs.Lines.{AreRunLines};
ghost use Rattle.shell.specs.Tasks.{IsRun};
ghost use Rattle.shell.specs.Mounts.{IsOpenedFrom, OnlyReadUnmounted, OpeningKeeps};
ghost use Rattle.shell.specs.Output.{GaveScript, IsTaken, script_limit};
ghost use Rattle.shell.specs.Causes.{EarlyCause, SourceFailed, TextCause};

use crate::early_end::EarlyEnd;
use crate::mounted::mount;
use dev_model::Devices;
use replay::Loaded;
use script_text::{Script, read_script};
use std::alloc::Global;
use text_io::{Source, take_all};
use vol_types::Bytes;

/// The greatest number of bytes in a script: 16 MiB.
pub const SCRIPT_LIMIT: usize = 1 << 24;

/// What a run needs before its first line.
#[derive(Drop)]
pub struct Prepared {
    pub script: Script,
    pub loaded: Loaded,
}

/// Reads the whole script, and opens the volume for its next session. Where the source gives no script, no device is touched.
pub fn prepare<S: Source, D: Devices>(
    alloc: Global,
    source: &mut S,
    devices: &mut D,
) -> Result<Prepared, EarlyEnd>
    ensures opened { IfOk result (λ prepared. IsOpenedFrom D.tells (found_in prepared.loaded) (D.state devices.old)
        (D.state devices.new)) }
    ensures keeps { OpeningKeeps D.tells (D.state devices.old) (D.state devices.new) }
    ensures fits { IfOk result (λ prepared. is_layout_of (D.state devices.new).sizes prepared.loaded.layout
        ≡ true) }
    ensures runs { IfOk result (λ prepared. AreRunLines prepared.script) }
    ensures gave { IfOk result (λ prepared. GaveScript S.tells (S.left source.old) prepared.script) }
    ensures still { OnOk result (S.faults source.new ≡ S.faults source.old) }
    ensures unmounted { OnlyReadUnmounted D.tells (D.state devices.old) (D.state devices.new) }
    ensures goes_on { GoOn (D.state devices.old) (D.state devices.new) }

    // Why a run ends, whatever its arguments are, and what it has touched by then.
    ensures cause { (arguments : List (List ℕ)) → IsRun arguments (D.state devices.old).sizes →
        IfErr result (EarlyCause S.tells D.tells arguments (S.left source.old) (D.state devices.old) (D.state devices.new) devices.old devices.new) }
    ensures source { IfErr result (λ end. SourceFailed end (S.faults source.old)
        (S.faults source.new)) }
{
    let script = read_text(alloc, source)?;
    let loaded = mount(alloc, devices)?;
    Ok(Prepared { script, loaded })
}

// The whole text of the source.
fn take_text<S: Source>(alloc: Global, source: &mut S) -> Result<Bytes, EarlyEnd>
    ensures taken { IfOk result (IsTaken S.tells (S.left source.old)) }
    ensures still { OnOk result (S.faults source.new ≡ S.faults source.old) }
    ensures source { IfErr result (λ end. SourceFailed end (S.faults source.old)
        (S.faults source.new)) }
    ensures early { IfErr result (TextCause S.tells (S.left source.old)) }
{
    Ok(take_all(alloc, source, SCRIPT_LIMIT)?)
}

// The script in the source.
fn read_text<S: Source>(alloc: Global, source: &mut S) -> Result<Script, EarlyEnd>
    ensures runs { IfOk result AreRunLines }
    ensures gave { IfOk result (GaveScript S.tells (S.left source.old)) }
    ensures still { OnOk result (S.faults source.new ≡ S.faults source.old) }
    ensures source { IfErr result (λ end. SourceFailed end (S.faults source.old)
        (S.faults source.new)) }
    ensures early { IfErr result (TextCause S.tells (S.left source.old)) }
{
    let text = take_text(alloc, source)?;
    Ok(read_script(alloc, text.as_slice())?)
}
