ghost use Rattle.std.specs.Prelude.{◌≡◌, ◌<◌, ◌++◌, [], true, false, ℕ, List, length};
ghost use Rattle.script_text.specs.Replies.{reply_line_of, end_line_of};
ghost use Rattle.shell.specs.Outcome.{acknowledges};
ghost use Rattle.shell.specs.Moments.{GainsAt};
ghost use Rattle.shell.specs.Printing.{Prints, has_ended, is_due, lines_after, page_status};
ghost use Rattle.shell.specs.Phases.{tally_with};

use crate::tally::Tally;
use dev_model::Devices;
use forest_ops::Reply;
use script_text::{end_line, reply_line};
use std::alloc::Global;
use text_io::{Sink, give_all};
use vol_types::Bytes;

/// So many bytes of lines may gather before they are given to the sink.
const MOST_GATHERED: usize = 4096;

/// What is being printed: the lines that are still to be given to the sink, how printing has ended, if it has, and the tally
/// of the replies. After a line that was out of memory, or a call of the sink that failed, nothing more is printed, so that
/// what is printed is a prefix of the whole.
#[derive(Drop)]
pub struct Page {
    pub alloc: Global,
    pub lines: Bytes,
    pub is_cut: bool,
    pub has_failed: bool,
    pub tally: Tally,
}

impl Page {
    /// An empty page. It takes no memory.
    pub fn new(alloc: Global) -> Self
        ensures { result ≡ record {
          alloc = alloc;
          lines = [];
          is_cut = false;
          has_failed = false;
          tally = record { lacks_memory = false; has_failed = false; synced = 0 };
        } }
    {
        Page {
            alloc,
            lines: Bytes::new(alloc),
            is_cut: false,
            has_failed: false,
            tally: Tally::new(),
        }
    }

    /// Notes a reply that has no line.
    pub fn note(&mut self, reply: &Reply)
        ensures { self.new ≡ record self.old { tally = tally_with self.old.tally reply.now } }
    {
        self.tally = self.tally.with(reply);
    }

    /// Whether nothing more is printed.
    fn has_ended(&self) -> bool
        ensures { result ≡ has_ended self.now }
    {
        self.is_cut || self.has_failed
    }

    /// The status of a run that has printed this: 5 where the sink failed, else 7 where it was out of memory, else 6 where a
    /// device failed, else 0.
    pub fn status(&self) -> u8
        ensures { result ≡ page_status self.now }
    {
        if self.has_failed {
            return 5;
        }
        if self.tally.lacks_memory || self.is_cut {
            return 7;
        }
        if self.tally.has_failed {
            return 6;
        }
        0
    }
}

/// Gives the lines that have gathered to the sink, unless printing has ended.
pub fn give_lines<K: Sink<D>, D: Devices>(page: &mut Page, sink: &mut K, devices: &D)
    ensures prints { (start : K) (text : List ℕ) → Prints K.tells K.held K.faults start text
        page.old sink.old → Prints K.tells K.held K.faults start text page.new sink.new }
    ensures given { page.new.lines ≡ [] }
    ensures cut { page.new.is_cut ≡ page.old.is_cut }
    ensures gains { K.tells → GainsAt K.held K.given_at sink.old sink.new
        (D.state devices.now).moment }
    ensures tally { page.new.tally ≡ page.old.tally }
    ensures ended { has_ended page.old ≡ true → has_ended page.new ≡ true }
    ensures same { has_ended page.old ≡ true → sink.new ≡ sink.old }
{
    if page.has_ended() {
        page.lines.truncate(0);
        return;
    }
    page.has_failed = give_all(sink, page.lines.as_slice(), devices).is_err();
    page.lines.truncate(0);
}

/// Notes a reply, and prints its line. The lines that have gathered are given to the sink where they are many, and where
/// the reply acknowledges commits: before the next operation begins.
pub fn print_reply<K: Sink<D>, D: Devices>(
    page: &mut Page,
    sink: &mut K,
    devices: &D,
    client: u8,
    line: u32,
    reply: &Reply,
)
    ensures prints { (start : K) (text : List ℕ) → Prints K.tells K.held K.faults start text
        page.old sink.old → Prints K.tells K.held K.faults start
        (text ++ reply_line_of client line reply.now) page.new sink.new }
    ensures gains { K.tells → GainsAt K.held K.given_at sink.old sink.new
        (D.state devices.now).moment }
    ensures tally { page.new.tally ≡ tally_with page.old.tally reply.now }
    ensures waits { has_ended page.new ≡ false → page.new.lines ≡ lines_after page.old.lines
        (reply_line_of client line reply.now) reply.now }
    ensures kept { has_ended page.new ≡ false
        → is_due (length (page.old.lines ++ reply_line_of client line reply.now)) reply.now ≡ false
        → sink.new ≡ sink.old }
    ensures ended { has_ended page.old ≡ true → has_ended page.new ≡ true }
    ensures same { has_ended page.old ≡ true → sink.new ≡ sink.old }
{
    page.note(reply);
    print_line(page, sink, devices, client, line, reply);
}

// Prints the line of a reply.
fn print_line<K: Sink<D>, D: Devices>(
    page: &mut Page,
    sink: &mut K,
    devices: &D,
    client: u8,
    line: u32,
    reply: &Reply,
)
    ensures prints { (start : K) (text : List ℕ) → Prints K.tells K.held K.faults start text
        page.old sink.old → Prints K.tells K.held K.faults start
        (text ++ reply_line_of client line reply.now) page.new sink.new }
    ensures gains { K.tells → GainsAt K.held K.given_at sink.old sink.new
        (D.state devices.now).moment }
    ensures tally { page.new.tally ≡ page.old.tally }
    ensures waits { has_ended page.new ≡ false → page.new.lines ≡ lines_after page.old.lines
        (reply_line_of client line reply.now) reply.now }
    ensures kept { has_ended page.new ≡ false
        → is_due (length (page.old.lines ++ reply_line_of client line reply.now)) reply.now ≡ false
        → sink.new ≡ sink.old }
    ensures ended { has_ended page.old ≡ true → has_ended page.new ≡ true }
    ensures same { has_ended page.old ≡ true → sink.new ≡ sink.old }
{
    if page.has_ended() {
        return;
    }
    let alloc = page.alloc;
    if reply_line(alloc, &mut page.lines, client, line, reply).is_err() {
        cut(page, sink, devices);
        return;
    }
    if are_due(page.lines.len(), reply) {
        give_lines(page, sink, devices);
    }
}

// Whether so many bytes of lines are to be given to the sink: they are many, or the reply acknowledges commits.
fn are_due(gathered: usize, reply: &Reply) -> bool
    ensures { result ≡ is_due gathered reply.now }
{
    acknowledges(reply) || gathered >= MOST_GATHERED
}

// Ends printing at a line that is out of memory: the lines before it are given.
fn cut<K: Sink<D>, D: Devices>(page: &mut Page, sink: &mut K, devices: &D)
    requires { has_ended page.old ≡ false }
    ensures prints { (start : K) (text line : List ℕ) → 0 < length line
        → Prints K.tells K.held K.faults start text page.old sink.old
        → Prints K.tells K.held K.faults start (text ++ line) page.new sink.new }
    ensures gains { K.tells → GainsAt K.held K.given_at sink.old sink.new
        (D.state devices.now).moment }
    ensures tally { page.new.tally ≡ page.old.tally }
    ensures ended { has_ended page.new ≡ true }
{
    give_lines(page, sink, devices);
    page.is_cut = true;
}

/// Prints the last line: how many commits the run made, and the greatest number of them that was acknowledged.
pub fn print_end<K: Sink<D>, D: Devices>(page: &mut Page, sink: &mut K, devices: &D, commits: u64)
    ensures prints { (start : K) (text : List ℕ) → Prints K.tells K.held K.faults start text
        page.old sink.old → Prints K.tells K.held K.faults start
        (text ++ end_line_of commits page.old.tally.synced) page.new sink.new }
    ensures given { has_ended page.new ≡ false → page.new.lines ≡ [] }
    ensures gains { K.tells → GainsAt K.held K.given_at sink.old sink.new
        (D.state devices.now).moment }
    ensures tally { page.new.tally ≡ page.old.tally }
    ensures same { has_ended page.old ≡ true → sink.new ≡ sink.old }
{
    if page.has_ended() {
        return;
    }
    let alloc = page.alloc;
    let synced = page.tally.synced;
    if end_line(alloc, &mut page.lines, commits, synced).is_err() {
        cut(page, sink, devices);
        return;
    }
    give_lines(page, sink, devices);
}

// Whether the reply acknowledges commits.
fn acknowledges(reply: &Reply) -> bool
    ensures { result ≡ acknowledges reply.now }
{
    matches!(reply, Reply::Synced(_))
}
