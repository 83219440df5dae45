ghost use Rattle.std.specs.Prelude.{◌≡◌, ◌≤◌, ◌++◌, IfOk, OnOk, length, string_bytes};
ghost use Rattle.std.specs.List.{flat_map};
ghost use Rattle.vol_info.specs.Lines.{btree_line, btree_name, copies_text, counts_text, device_line, facts_lines, ids_line, journal_line, session_line, sizes_text, volume_line};

use crate::facts::{BtreeFacts, DeviceFacts, Facts, IdFacts, JournalFacts};
use command_line::id_text;
use std::alloc::{AllocError, Global};
use vol_types::{Btree, Bytes, Layout};

/// The lines that say the facts of a volume. They are as long as it has btrees and devices.
pub fn facts_text(alloc: Global, facts: &Facts) -> Result<Bytes, AllocError>
    requires { 1 ≤ length facts.now.layout.blocks }
    ensures { IfOk result (λ text. text ≡ facts_lines facts.now) }
{
    let mut text = Bytes::new(alloc);
    match add_facts(alloc, &mut text, facts) {
        Ok(()) => Ok(text),
        Err(error) => {
            drop(text);
            Err(error)
        }
    }
}

// Adds the lines that say the facts of a volume.
#[tactic(auto, unfolding(crate::specs::Lines::facts_lines))]
fn add_facts(alloc: Global, text: &mut Bytes, facts: &Facts) -> Result<(), AllocError>
    requires { 1 ≤ length facts.now.layout.blocks }
    ensures { OnOk result (text.new ≡ text.old ++ facts_lines facts.now) }
{
    add_volume(alloc, text, &facts.layout)?;
    add_session(
        alloc,
        text,
        facts.session,
        facts.commits,
        facts.journal.sequence,
    )?;
    add_journal(alloc, text, &facts.journal)?;
    add_ids(alloc, text, &facts.ids)?;
    add_btrees(alloc, text, facts.btrees.as_slice())?;
    add_devices(alloc, text, facts.devices.as_slice())?;
    text.extend_from_slice(b"end\n")
}

// Adds a line, and lets it go.
fn add_line(text: &mut Bytes, line: String) -> Result<(), AllocError>
    ensures { OnOk result (text.new ≡ text.old ++ string_bytes line) }
{
    let added = text.extend_from_slice(line.as_bytes());
    drop(line);
    added
}

// Adds the volume's id, and how it lies on its devices.
fn add_volume(alloc: Global, text: &mut Bytes, layout: &Layout) -> Result<(), AllocError>
    requires { 1 ≤ length layout.now.blocks }
    ensures { OnOk result (text.new ≡ text.old ++ volume_line layout.now) }
{
    text.extend_from_slice(b"volume ")?;
    text.extend_from_slice(&id_text(&layout.id))?;
    add_sizes(alloc, text, layout)?;
    add_copies(alloc, text, layout)
}

// Adds how many devices a volume has, and of how many blocks.
#[tactic(auto, unfolding(crate::specs::Lines::sizes_text))]
fn add_sizes(alloc: Global, text: &mut Bytes, layout: &Layout) -> Result<(), AllocError>
    requires { 1 ≤ length layout.now.blocks }
    ensures { OnOk result (text.new ≡ text.old ++ sizes_text layout.now) }
{
    let devices = layout.blocks.len();
    let blocks = layout.blocks.as_slice()[0];
    let journal = layout.journal;
    let line = format!(in alloc; " devices {devices} blocks {blocks} journal {journal}")?;
    add_line(text, line)
}

// Adds how many copies there are.
#[tactic(auto, unfolding(crate::specs::Lines::copies_text))]
fn add_copies(alloc: Global, text: &mut Bytes, layout: &Layout) -> Result<(), AllocError>
    ensures { OnOk result (text.new ≡ text.old ++ copies_text layout.now) }
{
    let data = layout.data_replicas;
    let meta = layout.metadata_replicas;
    let line = format!(in alloc; " data-replicas {data} meta-replicas {meta}\n")?;
    add_line(text, line)
}

// Adds the last session, the commits so far, and the sequence of the newest entry of the journal.
#[tactic(auto, unfolding(crate::specs::Lines::session_line))]
fn add_session(
    alloc: Global,
    text: &mut Bytes,
    session: u64,
    commits: u64,
    sequence: u64,
) -> Result<(), AllocError>
    ensures { OnOk result (text.new ≡ text.old ++ session_line session commits sequence) }
{
    let line = format!(in alloc; "session {session} commits {commits} sequence {sequence}\n")?;
    add_line(text, line)
}

// Adds what of the journal is needed.
#[tactic(auto, unfolding(crate::specs::Lines::journal_line))]
fn add_journal(alloc: Global, text: &mut Bytes, facts: &JournalFacts) -> Result<(), AllocError>
    ensures { OnOk result (text.new ≡ text.old ++ journal_line facts.now) }
{
    let oldest = facts.oldest;
    let entries = facts.entries;
    let blocks = facts.blocks;
    let line = format!(in alloc; "journal from {oldest} entries {entries} blocks {blocks}\n")?;
    add_line(text, line)
}

// Adds how many subvolumes and snapshot ids there are.
#[tactic(auto, unfolding(crate::specs::Lines::ids_line))]
fn add_ids(alloc: Global, text: &mut Bytes, facts: &IdFacts) -> Result<(), AllocError>
    ensures { OnOk result (text.new ≡ text.old ++ ids_line facts.now) }
{
    let subvolumes = facts.subvolumes;
    let ids = facts.ids;
    let dead = facts.dead;
    let line = format!(in alloc; "subvolumes {subvolumes} ids {ids} dead {dead}\n")?;
    add_line(text, line)
}

// Adds the lines of btrees.
fn add_btrees(alloc: Global, text: &mut Bytes, btrees: &[BtreeFacts]) -> Result<(), AllocError>
    ensures { OnOk result (text.new ≡ text.old ++ flat_map btree_line btrees.now) }
{
    for btree in btrees {
        add_btree(alloc, text, btree)?;
    }
    Ok(())
}

// Adds the lines of devices.
fn add_devices(alloc: Global, text: &mut Bytes, devices: &[DeviceFacts]) -> Result<(), AllocError>
    ensures { OnOk result (text.new ≡ text.old ++ flat_map device_line devices.now) }
{
    for device in devices {
        add_device(alloc, text, device)?;
    }
    Ok(())
}

// Adds the line of a btree.
#[tactic(auto, unfolding(crate::specs::Lines::btree_line))]
fn add_btree(alloc: Global, text: &mut Bytes, facts: &BtreeFacts) -> Result<(), AllocError>
    ensures { OnOk result (text.new ≡ text.old ++ btree_line facts.now) }
{
    text.extend_from_slice(b"btree ")?;
    text.extend_from_slice(name_of(facts.btree))?;
    add_counts(alloc, text, facts)
}

// Adds the level of a btree's root, its nodes and its keys.
#[tactic(auto, unfolding(crate::specs::Lines::counts_text))]
fn add_counts(alloc: Global, text: &mut Bytes, facts: &BtreeFacts) -> Result<(), AllocError>
    ensures { OnOk result (text.new ≡ text.old ++ counts_text facts.now) }
{
    let level = facts.level;
    let nodes = facts.nodes;
    let keys = facts.keys;
    let line = format!(in alloc; " level {level} nodes {nodes} keys {keys}\n")?;
    add_line(text, line)
}

// The name of a btree.
fn name_of(btree: Btree) -> &'static [u8]
    ensures { result.now ≡ btree_name btree }
{
    match btree {
        Btree::Extents => b"extents",
        Btree::Inodes => b"inodes",
        Btree::Dirents => b"dirents",
        Btree::Subvols => b"subvols",
        Btree::Snapshots => b"snapshots",
        Btree::Alloc => b"alloc",
        Btree::Backptrs => b"backptrs",
        Btree::Deleted => b"deleted",
        Btree::Counters => b"counters",
    }
}

// Adds the line of a device.
#[tactic(auto, unfolding(crate::specs::Lines::device_line))]
fn add_device(alloc: Global, text: &mut Bytes, facts: &DeviceFacts) -> Result<(), AllocError>
    ensures { OnOk result (text.new ≡ text.old ++ device_line facts.now) }
{
    let dev = facts.dev;
    let buckets = facts.buckets;
    let free = facts.free;
    let used = facts.used;
    let line = format!(in alloc; "device {dev} buckets {buckets} free {free} used {used}\n")?;
    add_line(text, line)
}
