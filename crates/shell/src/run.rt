ghost use Rattle.std.specs.Prelude.{◌≡◌, ◌⊎◌, ℕ, [], List, None, Some, length, map, true};
ghost use Rattle.std.specs.Rc.{rc_str_bytes};
ghost use Rattle.vol_types.specs.Layouts.{is_layout};
ghost use Rattle.geometry.specs.Layouts.{is_layout_of};
ghost use Rattle.replay.specs.Volumes.{found_in};
ghost use Rattle.shell.specs.Outcome.{early_line, early_status, formatted_line};
ghost use Rattle.shell.specs.Tasks.{IsAsked, IsRun, task_of};
ghost use Rattle.shell.specs.Lines.{AreRunLines};
ghost use Rattle.shell.specs.Headline.{Headline};
ghost use Rattle.shell.specs.Runs.{run_of};
ghost use Rattle.shell.specs.Phases.{EndsEarly, EndsUnopened, Formats, RunsOpened, TellsFound, TellsNothing};

use crate::early_end::{EarlyEnd, print_early_end, status_of};
use crate::ended::Ended;
use crate::formatting::formatted_line;
use crate::info::info_text;
use crate::page::Page;
use crate::phases::{end_run, run_lines};
use crate::prepare::{Prepared, prepare};
use crate::shorts::Shorts;
use crate::task::{Task, read_task};
use dev_model::{Devices, Gate};
use forest_ops::{Acks, Trace};
use script_text::Script;
use std::alloc::Global;
use std::marker::Brand;
use std::rc::RcStr;
use text_io::{Sink, Source, give_all};
use vol_core::Opening;
use vol_format::format;
use vol_session::{fresh_volumes_may_run, runs_are_safe};
use vol_types::{Bytes, Layout};
use volume::{Calls, Finished, VolState};

/// Does what the arguments ask for, on the devices. Every line, error lines too, goes to the sink.
///
/// `run` reads the script, opens the volume, answers each line, and syncs. `format` makes a new volume of the devices, and
/// doesn't touch the source; nor does `info`, which says what the devices hold, and only reads them. The status is 0 where all went well, 1 for other arguments, or a layout that no volume may have, 2
/// for a script with a line that is no operation or of more than 16 MiB, 3 where no volume is opened, 4 where the source
/// failed, 5 where the sink failed, 6 where a device failed, and 7 where it was out of memory.
pub fn run_words<R, S: Source, K: Sink<D>, D: Devices + Send, G: Gate + Sync>(
    rt: &R,
    alloc: Global,
    words: &[RcStr],
    source: &mut S,
    sink: &mut K,
    devices: D,
    gate: &G,
) -> Ended<D>
    ensures { Headline S.tells K.tells D.tells K.held K.given_at
        (run_of S.left S.faults K.held K.faults D.state (map rc_str_bytes words.now) source.old source.new sink.old sink.new devices result) }
{
    runs_are_safe();
    let read = read_task(alloc, words, devices.count());
    match read {
        Ok(task) => run_task(rt, alloc, task, source, sink, devices, gate),
        Err(fault) => {
            drop(read);
            end_early(alloc, EarlyEnd::from(fault), sink, devices)
        }
    }
}

/// Does a task that arguments asked for, as `run_words` does where these are its arguments. So whoever has judged them, by
/// `read_task`, before it opened the devices, doesn't read them again.
pub fn run_task<R, S: Source, K: Sink<D>, D: Devices + Send, G: Gate + Sync>(
    _rt: &R,
    alloc: Global,
    task: Task,
    source: &mut S,
    sink: &mut K,
    devices: D,
    gate: &G,
) -> Ended<D>
    requires { IsAsked (D.state devices).sizes task }
    ensures { (arguments : List (List ℕ))
        → task_of (length (D.state devices).sizes) arguments ≡ Some task
        → Headline S.tells K.tells D.tells K.held K.given_at
        (run_of S.left S.faults K.held K.faults D.state arguments source.old source.new sink.old sink.new devices result) }
{
    runs_are_safe();
    match task {
        Task::Run => run_script(alloc, source, sink, devices, gate),
        Task::Info => inform(alloc, sink, devices),
        Task::Format(layout) => match formatted_line(alloc, &layout) {
            Ok(line) => {
                let ended = format_devices(alloc, &layout, &line, sink, devices);
                drop(line);
                drop(layout);
                ended
            }
            Err(_) => {
                drop(layout);
                end_early(alloc, EarlyEnd::OutOfMemory, sink, devices)
            }
        },
    }
}

// Nothing was run, told or formatted.
#[tactic(auto, using(crate::proofs::EarlyEnds::given_prefix))]
fn end_early<K: Sink<D>, D: Devices>(
    alloc: Global,
    end: EarlyEnd,
    sink: &mut K,
    devices: D,
) -> Ended<D>
    ensures devices { result.devices ≡ devices }
    ensures early { result.early_end ≡ Some end }
    ensures shorts { result.shorts ≡ [] }
    ensures calls { result.calls ≡ 0 }
    ensures ends { EndsEarly K.tells (early_line end) (early_status end) (K.held sink.old)
        (K.held sink.new) (K.faults sink.old) (K.faults sink.new) result.status result.trace
        result.acks }
{
    let status = status_of(end);
    let is_printed = print_early_end(end, sink, &devices).is_ok();
    Ended {
        status: if is_printed { status } else { 5 },
        early_end: Some(end),
        devices,
        trace: Trace::new(alloc),
        acks: Acks::new(alloc),
        shorts: Shorts::none(alloc),
        calls: Calls::none(),
    }
}

// All that was asked for was done, and this says so.
fn end_told<K: Sink<D>, D: Devices>(
    alloc: Global,
    line: &Bytes,
    sink: &mut K,
    devices: D,
) -> Ended<D>
    ensures devices { result.devices ≡ devices }
    ensures early { result.early_end ≡ None }
    ensures shorts { result.shorts ≡ [] }
    ensures calls { result.calls ≡ 0 }
    ensures ends { EndsEarly K.tells line.now 0 (K.held sink.old) (K.held sink.new)
        (K.faults sink.old) (K.faults sink.new) result.status result.trace result.acks }
{
    let is_printed = give_all(sink, line.as_slice(), &devices).is_ok();
    Ended {
        status: if is_printed { 0 } else { 5 },
        early_end: None,
        devices,
        trace: Trace::new(alloc),
        acks: Acks::new(alloc),
        shorts: Shorts::none(alloc),
        calls: Calls::none(),
    }
}

// Formats the devices, and says so.
fn format_devices<K: Sink<D>, D: Devices>(
    alloc: Global,
    layout: &Layout,
    line: &Bytes,
    sink: &mut K,
    devices: D,
) -> Ended<D>
    requires layout { is_layout layout.now ≡ true }
    requires count { length layout.now.blocks ≡ length (D.state devices).sizes }
    requires line { line.now ≡ formatted_line layout.now }
    ensures formats { Formats K.tells D.tells layout.now (D.state devices) (D.state result.devices)
        (K.held sink.old) (K.held sink.new) (K.faults sink.old) (K.faults sink.new) result.status
        result.early_end result.trace result.acks }
    ensures shorts { result.shorts ≡ [] }
    ensures calls { result.calls ≡ 0 }
{
    fresh_volumes_may_run();
    let mut devices = devices;
    match format(alloc, &mut devices, layout) {
        Ok(()) => end_told(alloc, line, sink, devices),
        Err(fault) => end_early(alloc, EarlyEnd::from(fault), sink, devices),
    }
}

// Says what the devices hold.
fn inform<K: Sink<D>, D: Devices>(alloc: Global, sink: &mut K, devices: D) -> Ended<D>
    ensures informs { TellsFound K.tells D.tells (D.state devices) (D.state result.devices)
        (K.held sink.old) (K.held sink.new) (K.faults sink.old) (K.faults sink.new) result.status
        result.early_end result.trace result.acks ⊎ TellsNothing K.tells D.tells (D.state devices)
        (D.state result.devices) (K.held sink.old) (K.held sink.new) (K.faults sink.old)
        (K.faults sink.new) result.status result.early_end result.trace result.acks }
    ensures shorts { result.shorts ≡ [] }
    ensures calls { result.calls ≡ 0 }
{
    let mut devices = devices;
    match info_text(alloc, &mut devices) {
        Ok(text) => {
            let ended = end_told(alloc, &text, sink, devices);
            drop(text);
            ended
        }
        Err(end) => end_early(alloc, end, sink, devices),
    }
}

// Runs the script of the source.
fn run_script<S: Source, K: Sink<D>, D: Devices, G: Gate>(
    alloc: Global,
    source: &mut S,
    sink: &mut K,
    devices: D,
    gate: &G,
) -> Ended<D>
    ensures { (arguments : List (List ℕ)) → IsRun arguments (D.state devices).sizes
        → Headline S.tells K.tells D.tells K.held K.given_at
        (run_of S.left S.faults K.held K.faults D.state arguments source.old source.new sink.old sink.new devices result) }
{
    runs_are_safe();
    let mut devices = devices;
    let begun = prepare(alloc, source, &mut devices);
    match begun {
        Ok(prepared) => run_prepared::<K, D, G, Brand>(alloc, prepared, sink, devices, gate),
        Err(end) => {
            drop(begun);
            end_early(alloc, end, sink, devices)
        }
    }
}

// Keeps the volume that was opened, and runs the script over it. `O` stands for what was opened, and what the devices show.
fn run_prepared<K: Sink<D>, D: Devices, G: Gate, O: Opening>(
    alloc: Global,
    prepared: Prepared,
    sink: &mut K,
    devices: D,
    gate: &G,
) -> Ended<D>
    requires opening { found_in prepared.loaded ≡ O.found }
    requires start { D.state devices ≡ O.start }
    requires fits { is_layout_of (D.state devices).sizes prepared.loaded.layout ≡ true }
    requires runs { AreRunLines prepared.script }
    ensures ran { RunsOpened D.state D.tells K.tells K.held K.given_at K.faults O.found O.start
        prepared.script sink.old sink.new result.devices result.status result.early_end result.trace
        result.acks result.calls ⊎ EndsUnopened K.tells K.held K.faults devices result.devices sink.old sink.new
        result.status result.early_end result.trace result.acks result.calls }
    ensures shorts { result.shorts ≡ [] }
{
    let Prepared { script, loaded } = prepared;
    match VolState::<D, O>::start(alloc, loaded, devices) {
        Ok(volume) => run_opened(alloc, volume, script, sink, gate),
        Err(unopened) => {
            drop(script);
            end_early(alloc, EarlyEnd::OutOfMemory, sink, unopened.devices)
        }
    }
}

// Runs each line, and then a sync.
fn run_opened<K: Sink<D>, D: Devices, G: Gate, O: Opening>(
    alloc: Global,
    volume: VolState<D, O>,
    script: Script,
    sink: &mut K,
    gate: &G,
) -> Ended<D>
    requires trace { volume.trace ≡ [] }
    requires acks { volume.acks ≡ [] }
    requires calls { volume.calls ≡ 0 }
    requires runs { AreRunLines script }
    ensures ran { RunsOpened D.state D.tells K.tells K.held K.given_at K.faults O.found O.start
        script sink.old sink.new result.devices result.status result.early_end result.trace
        result.acks result.calls }
    ensures shorts { result.shorts ≡ [] }
{
    let mut volume = volume;
    let mut page = Page::new(alloc);
    run_lines(&mut volume, script, gate, &mut page, sink);
    let status = end_run(&mut volume, &mut page, sink);
    drop(page);
    let Finished {
        devices,
        trace,
        acks,
        calls,
        ..
    } = volume.finish();
    Ended {
        status,
        early_end: None,
        devices,
        trace,
        acks,
        shorts: Shorts::none(alloc),
        calls,
    }
}
