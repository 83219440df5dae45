//! The program: judges the arguments, opens the image files, and runs the command that the arguments name. Lines for programs go
//! to standard output; beside an error line, standard error has a sentence for people.
#![tactic(auto)]

ghost use Rattle.std.specs.Prelude.{◌≡◌, ◌≤◌, ℕ, List, IfOk, if◌then◌else◌, is_ok, length, map};
ghost use Rattle.std.specs.Rc.{rc_str_bytes};
ghost use Rattle.bvol.specs.Statuses.{IsStatusFor, IsStatusOfRun};

mod advice;
mod arguments;
mod help;
mod judging;
mod overwriting;
mod refusal;

use advice::{Advice, RefusalAdvice};
use arguments::{help_for, words_and_paths};
use dev_model::{Devices, NoGate};
use file_devices::{FileDevices, open_devices};
use judging::judge_arguments;
use overwriting::say_what_is_lost;
use refusal::NotBegun;
use shell::{Ended, run_task};
use std::alloc::Global;
use std::env;
use std::fs::File;
use std::io::{self, Eprint};
use std::process::ExitCode;
use std::rc::RcStr;
use std::rt::{Env, Files};
use text_io::{Sink, Source, StdSink, StdSource};

/// The status of a program that couldn't print.
const SINK_FAILED: u8 = 5;

fn main(rt: HostRuntime) -> ExitCode {
    let mut source = StdSource::new(rt.stdin());
    let mut sink = StdSink::new(rt.stdout());
    let status = match run(&rt, rt.alloc(), &mut source, &mut sink) {
        Ok(status) => status,
        Err(refusal) => printed(rt.println(refusal), refusal.status()),
    };
    drop(sink);
    drop(source);
    ExitCode::from(status)
}

// The status, or that of a program that couldn't print.
fn printed(answer: io::Result<()>, status: u8) -> u8
    ensures { result ≡ if is_ok answer then status else 5 }
{
    if answer.is_ok() { status } else { SINK_FAILED }
}

// Does what the program's arguments ask for, and gives the status with which it ends.
fn run<
    R: Files<File = File> + Env + AllocGlobal + Print + Eprint,
    S: Source,
    K: Sink<FileDevices<File>>,
>(rt: &R, alloc: Global, source: &mut S, sink: &mut K) -> Result<u8, NotBegun>
    ensures { IfOk result (λ status. (args : List (List ℕ)) × IsStatusFor S.tells K.tells ⟦<FileDevices<File> as Devices>⟧.tells
        S.left S.faults K.held K.given_at K.faults ⟦<FileDevices<File> as Devices>⟧.state
        source.old source.new sink.old sink.new args status) }
{
    let args = match read_arguments(rt, alloc) {
        Ok(args) => args,
        Err(refusal) => return Err(advised(rt, refusal, &[], &[])),
    };
    run_with(rt, alloc, &args, source, sink)
}

// Does what these arguments ask for.
fn run_with<
    R: Files<File = File> + Env + AllocGlobal + Print + Eprint,
    S: Source,
    K: Sink<FileDevices<File>>,
>(rt: &R, alloc: Global, args: &[RcStr], source: &mut S, sink: &mut K) -> Result<u8, NotBegun>
    ensures { IfOk result (IsStatusFor S.tells K.tells ⟦<FileDevices<File> as Devices>⟧.tells
        S.left S.faults K.held K.given_at K.faults ⟦<FileDevices<File> as Devices>⟧.state
        source.old source.new sink.old sink.new (map rc_str_bytes args.now)) }
{
    if let Some(text) = help_for(args) {
        return Ok(printed(rt.print(text), 0));
    }
    let Some((arguments, images)) = words_and_paths(args) else {
        return Err(advised(rt, NotBegun::Usage, args, &[]));
    };
    match run_on(rt, alloc, arguments, images, source, sink) {
        Ok(status) => Ok(status),
        Err(refusal) => Err(advised(rt, refusal, arguments, images)),
    }
}

// The refusal, of which standard error has its sentence.
fn advised<R: Eprint>(rt: &R, refusal: NotBegun, arguments: &[RcStr], images: &[RcStr]) -> NotBegun
    ensures { result ≡ refusal }
{
    drop(rt.eprintln(RefusalAdvice {
        refusal,
        arguments,
        images,
    }));
    refusal
}

// Judges the arguments, opens and locks the images, and does what is asked for on them.
fn run_on<
    R: Files<File = File> + Env + AllocGlobal + Print + Eprint,
    S: Source,
    K: Sink<FileDevices<File>>,
>(
    rt: &R,
    alloc: Global,
    arguments: &[RcStr],
    images: &[RcStr],
    source: &mut S,
    sink: &mut K,
) -> Result<u8, NotBegun>
    requires { (1 ≤ length images.now) × (length images.now ≤ 8) }
    ensures { IfOk result (IsStatusOfRun S.tells K.tells ⟦<FileDevices<File> as Devices>⟧.tells
        S.left S.faults K.held K.given_at K.faults ⟦<FileDevices<File> as Devices>⟧.state
        source.old source.new sink.old sink.new (map rc_str_bytes arguments.now)) }
{
    let task = judge_arguments(alloc, arguments, count_of(images))?;
    let mut devices = open_devices(rt, alloc, images)?;
    say_what_is_lost(rt, &task, &mut devices, images);
    let ended = run_task(rt, alloc, task, source, sink, devices, &NoGate);
    Ok(status_told(rt, ended, arguments, images))
}

// The status of a run; where it ended early, standard error has a sentence on why.
fn status_told<R: Eprint, D: Drop>(
    rt: &R,
    ended: Ended<D>,
    arguments: &[RcStr],
    images: &[RcStr],
) -> u8
    ensures { result ≡ ended.status }
{
    let status = ended.status;
    if let Some(end) = ended.early_end {
        drop(rt.eprintln(Advice {
            end,
            arguments,
            images,
        }));
    }
    drop(ended);
    status
}

// How many images there are.
fn count_of(images: &[RcStr]) -> u8
    requires { length images.now ≤ 8 }
    ensures { result ≡ length images.now }
{
    images.len() as u8
}

// The arguments after the program's name.
fn read_arguments<R: Env + AllocGlobal>(rt: &R, alloc: Global) -> Result<Vec<RcStr>, NotBegun> {
    let mut args = Vec::new(alloc);
    for arg in env::args(rt)?.skip(1) {
        args.push(RcStr::from_string(arg)?)?;
    }
    Ok(args)
}
