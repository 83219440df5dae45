ghost use Rattle.std.specs.Prelude.{◌≡◌, ◌<◌, [], ◌∷◌, Some, true};
ghost use Rattle.std.specs.List.{cons_option};
ghost use Rattle.fs_plan.specs.Plans.{IsBounded, is_planned};
ghost use Rattle.forest_ops.specs.Fits.{entry_if_any};
ghost use Rattle.vol_session.specs.Marks.{forest_found};
ghost use Rattle.shell.specs.Lines.{AreRunLines, IsRunLine};
ghost use Rattle.shell.specs.Outcome.{ack_by};
ghost use Rattle.shell.specs.Phases.{AddsEntries, AreCalled, RunsEnd, RunsLines, RunsSync};

use crate::page::{Page, give_lines, print_end, print_reply};
use dev_model::{BEFORE_COMMIT, Devices, Gate};
use forest_ops::{Op, Reply};
use script_text::{Line, Script};
use text_io::Sink;
use vol_core::Opening;
use volume::VolState;

/// Runs the lines of a script, and prints their replies.
pub fn run_lines<K: Sink<D>, D: Devices, O: Opening, G: Gate>(
    volume: &mut VolState<D, O>,
    script: Script,
    gate: &G,
    page: &mut Page,
    sink: &mut K,
)
    requires { AreRunLines script }
    ensures { RunsLines (forest_found O.found O.start) D.state D.tells K.tells K.held K.given_at
        K.faults script volume.old volume.new page.old page.new sink.old sink.new }
{
    for line in Vec::from(script) {
        run_line(volume, line, gate, page, sink);
    }
}

// Runs a line; a barrier does nothing.
fn run_line<K: Sink<D>, D: Devices, O: Opening, G: Gate>(
    volume: &mut VolState<D, O>,
    line: Line,
    gate: &G,
    page: &mut Page,
    sink: &mut K,
)
    requires { IsRunLine line }
    ensures { RunsLines (forest_found O.found O.start) D.state D.tells K.tells K.held K.given_at
        K.faults (line ∷ []) volume.old volume.new page.old page.new sink.old sink.new }
{
    let Line {
        line: number,
        client,
        op,
    } = line;
    if let Some(op) = op {
        gate.at(client, BEFORE_COMMIT);
        answer(volume, number, client, op, page, sink);
    }
}

// Runs a line with an operation of a client.
fn answer<K: Sink<D>, D: Devices, O: Opening>(
    volume: &mut VolState<D, O>,
    number: u32,
    client: u8,
    op: Op,
    page: &mut Page,
    sink: &mut K,
)
    requires planned { is_planned op ≡ true }
    requires bounded { IsBounded op }
    requires client { client < 16 }
    ensures { RunsLines (forest_found O.found O.start) D.state D.tells K.tells K.held K.given_at
        K.faults (record { line = number; client = client; op = Some op } ∷ []) volume.old volume.new
        page.old page.new sink.old sink.new }
{
    let reply = reply_to(volume, client, op);
    print_reply(page, sink, volume.devices(), client, number, &reply);
    drop(reply);
}

// The reply to an operation of a client.
fn reply_to<D: Devices, O: Opening>(volume: &mut VolState<D, O>, client: u8, op: Op) -> Reply
    requires client { client < 16 }
    requires planned { is_planned op ≡ true }
    requires bounded { IsBounded op }
    ensures adds { AddsEntries (forest_found O.found O.start) D.state volume.old volume.new
        (cons_option (entry_if_any client op result) [])
        (cons_option (ack_by (D.state volume.new.core.devices).moment result) []) }
    ensures called { AreCalled 1 volume.old volume.new }
{
    match volume.call(client, op) {
        Ok(reply) => reply,
        Err(_) => Reply::NoMemory,
    }
}

/// Makes every commit durable, and notes the reply.
pub fn final_sync<D: Devices, O: Opening>(volume: &mut VolState<D, O>, page: &mut Page)
    ensures { RunsSync (forest_found O.found O.start) D.state volume.old volume.new page.old
        page.new }
{
    let reply = reply_to(volume, 0, Op::Sync);
    page.note(&reply);
    drop(reply);
}

/// Gives the lines that have gathered to the sink, makes every commit durable, and prints the last line. The status of the
/// run: 5 where the sink failed, else 7 where it was out of memory, else 6 where a device failed, else 0.
pub fn end_run<K: Sink<D>, D: Devices, O: Opening>(
    volume: &mut VolState<D, O>,
    page: &mut Page,
    sink: &mut K,
) -> u8
    ensures { RunsEnd (forest_found O.found O.start) D.state D.tells K.tells K.held K.given_at
        K.faults volume.old volume.new page.old sink.old sink.new result }
{
    give_lines(page, sink, volume.devices());
    final_sync(volume, page);
    print_end(page, sink, volume.devices(), volume.commits());
    page.status()
}
