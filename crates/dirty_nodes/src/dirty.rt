ghost use Rattle.std.specs.Option.{option_to_list};
ghost use Rattle.std.specs.Prelude.{◌≡◌, ◌<◌, ◌≤◌, ◌==◌, ◌++◌, [], IfOk, IsSome, OnOk, length};
ghost use Rattle.std.specs.Ordering.{nat_cmp};
ghost use Rattle.dirty_nodes.specs.Dirty.{AreKept, birth_at, changed_nodes, moved_pin, path_of, paths_of, with_pins};
ghost use Rattle.pin_list.specs.Pins.{least_pin};
ghost use Rattle.vol_types.specs.Maps.{IsMap, put_at, value_at};

use btree_map::KeyMap;
use pin_list::PinList;
use std::alloc::{AllocError, Global};
use std::marker::Model;
use vol_types::{Btree, Pos, Update};

/// The nodes that updates change, and those above them.
#[derive(Drop)]
pub struct Paths {
    /// The births of the nodes that are changed, in the order of the updates.
    pub changed: Vec<u64>,
    /// The births of these and of the nodes above them, up to the roots.
    pub over: Vec<u64>,
}

/// The nodes that updates change, and those above them. Each update costs a logarithm for each level of its btree.
pub fn paths_of(alloc: Global, map: &KeyMap, updates: &[Update]) -> Result<Paths, AllocError>
    ensures changed { IfOk result (λ paths. paths.changed.items ≡ changed_nodes map.now.nodes updates.now) }
    ensures over { IfOk result (λ paths. paths.over.items ≡ paths_of map.now.nodes updates.now) }
{
    let mut paths = Paths {
        changed: Vec::new(alloc),
        over: Vec::new(alloc),
    };
    for update in updates {
        add_node(
            map,
            &mut paths.changed,
            update.btree,
            update.level,
            &update.pos,
        )?;
        add_path(map, &mut paths.over, update)?;
    }
    Ok(paths)
}

// Adds the births of the node that an update changes, and of those above it.
fn add_path(map: &KeyMap, births: &mut Vec<u64>, update: &Update) -> Result<(), AllocError>
    ensures { OnOk result (births.new.items ≡ births.old.items ++ path_of map.now.nodes update.now) }
{
    for level in update.level..map.height(update.btree) {
        add_node(map, births, update.btree, level, &update.pos)?;
    }
    Ok(())
}

// Adds the birth of the node of a level of a btree that covers a position, if there is such a level.
fn add_node(
    map: &KeyMap,
    births: &mut Vec<u64>,
    btree: Btree,
    level: u8,
    pos: &Pos,
) -> Result<(), AllocError>
    ensures { OnOk result (births.new.items ≡ births.old.items
        ++ option_to_list (birth_at map.now.nodes btree level pos.now)) }
{
    match map.node_at(btree, level, pos) {
        None => Ok(()),
        Some((_, node)) => {
            births.push(node.birth)?;
            Ok(())
        }
    }
}

/// The dirty nodes of a volume, which have keys of entries that they haven't written, and the marked ones: those that are dirty
/// or have a dirty node under them. Each is known by its birth.
///
/// A dirty node is written while it changes: it is frozen, which settles the keys that are written, and moved to the birth that
/// it is written with. Of each node it is known which entry is the oldest that changed it since it was frozen; of a node that
/// isn't frozen this says nothing.
#[derive(Drop)]
pub struct DirtyNodes {
    pins: PinList,
    marks: PinList,
    later: PinList,
}

impl Model for DirtyNodes {
    ghost use Rattle.dirty_nodes.specs.Dirty.{AreKept, DirtyNodes as TheDirtyNodes};

    ghost Value = { TheDirtyNodes };

    ghost view = { λ dirty. record { pins = dirty.pins; marks = dirty.marks; later = dirty.later } };

    ghost invariant = { λ dirty. AreKept dirty.pins.numbers dirty.marks.numbers dirty.later.numbers };
}

impl DirtyNodes {
    /// No dirty nodes. It takes no memory.
    pub fn new(alloc: Global) -> Result<DirtyNodes, AllocError>
        ensures pins { IfOk result (λ dirty. dirty.pins.numbers ≡ []) }
        ensures marks { IfOk result (λ dirty. dirty.marks.numbers ≡ []) }
        ensures later { IfOk result (λ dirty. dirty.later.numbers ≡ []) }
    {
        let pins = PinList::new(alloc)?;
        let Ok(marks) = PinList::new(alloc) else {
            drop(pins);
            return Err(AllocError);
        };
        let Ok(later) = PinList::new(alloc) else {
            drop(marks);
            drop(pins);
            return Err(AllocError);
        };
        Ok(DirtyNodes { pins, marks, later })
    }

    /// How many nodes are marked.
    pub fn marked(&self) -> usize
        ensures { result ≡ length self.now.marks.numbers }
    {
        self.marks.len()
    }

    /// Whether no node is dirty.
    pub fn is_clean(&self) -> bool
        ensures { result ≡ (length self.now.pins.numbers == 0) }
    {
        self.pins.is_empty()
    }

    /// The oldest entry with keys that a node hasn't written, by its sequence number.
    pub fn oldest(&self) -> Option<u64>
        ensures { result ≡ least_pin self.now.pins.numbers }
    {
        self.pins.oldest()
    }

    /// The oldest entry with keys that the node of this birth hasn't written, by its sequence number, if the node is dirty. It
    /// costs a logarithm of the dirty nodes.
    pub fn pin_of(&self, birth: u64) -> Option<u64>
        ensures entry { result ≡ value_at nat_cmp birth self.now.pins.numbers }
        ensures rise { AreKept self.now.pins.numbers self.now.marks.numbers self.now.later.numbers }
    {
        self.pins.get(birth)
    }

    /// How many nodes will be marked once these are too. It takes memory for each node that isn't marked.
    pub fn marked_with(&self, alloc: Global, paths: &Paths, seq: u64) -> Result<usize, AllocError>
        ensures { IfOk result (λ count. count ≡ length (with_pins seq paths.now.over.items
            self.now.marks.numbers)) }
    {
        let mut fresh = PinList::new(alloc)?;
        let count = count_marked(&self.marks, &paths.over, seq, &mut fresh);
        drop(fresh);
        count
    }

    /// Makes room to dirty these nodes. An `Err` changes no pin and no mark, and takes no room back.
    pub fn reserve(&mut self, paths: &Paths) -> Result<(), AllocError>
        ensures pins { self.new.pins.numbers ≡ self.old.pins.numbers }
        ensures marks { self.new.marks.numbers ≡ self.old.marks.numbers }
        ensures later { self.new.later.numbers ≡ self.old.later.numbers }
        ensures pins_kept { self.old.pins.spare ≤ self.new.pins.spare }
        ensures marks_kept { self.old.marks.spare ≤ self.new.marks.spare }
        ensures later_kept { self.old.later.spare ≤ self.new.later.spare }
        ensures pin_room { OnOk result (length paths.now.changed.items ≤ self.new.pins.spare) }
        ensures mark_room { OnOk result (length paths.now.over.items ≤ self.new.marks.spare) }
        ensures later_room { OnOk result (length paths.now.changed.items ≤ self.new.later.spare) }
    {
        self.pins.reserve(paths.changed.len())?;
        self.marks.reserve(paths.over.len())?;
        self.later.reserve(paths.changed.len())
    }

    /// Says that the entry of this number changes these nodes: they are dirty, and those above them are marked. Each costs a
    /// logarithm of the dirty nodes and one of those that were changed while frozen, and one of the marked ones for each node
    /// above it.
    pub fn dirty(&mut self, paths: &Paths, seq: u64)
        requires pin_room { length paths.now.changed.items ≤ self.old.pins.spare }
        requires mark_room { length paths.now.over.items ≤ self.old.marks.spare }
        requires later_room { length paths.now.changed.items ≤ self.old.later.spare }
        ensures pins { self.new.pins.numbers ≡ with_pins seq paths.now.changed.items
            self.old.pins.numbers }
        ensures marks { self.new.marks.numbers ≡ with_pins seq paths.now.over.items
            self.old.marks.numbers }
        ensures later { self.new.later.numbers ≡ with_pins seq paths.now.changed.items
            self.old.later.numbers }
    {
        pin_all(&mut self.pins, &paths.changed, seq);
        pin_all(&mut self.marks, &paths.over, seq);
        pin_all(&mut self.later, &paths.changed, seq);
    }

    /// Makes room to freeze a node. An `Err` changes nothing.
    pub fn reserve_freeze(&mut self) -> Result<(), AllocError>
        ensures pins { self.new.pins ≡ self.old.pins }
        ensures marks { self.new.marks ≡ self.old.marks }
        ensures later { self.new.later.numbers ≡ self.old.later.numbers }
        ensures later_kept { self.old.later.spare ≤ self.new.later.spare }
        ensures room { OnOk result (0 < self.new.later.spare) }
    {
        self.later.reserve(1)
    }

    /// Says that the node of this birth was frozen, and that this is the oldest entry that changes it and isn't in the frozen
    /// node, if there is one. It takes no memory, and costs a logarithm of the nodes that were changed while frozen.
    pub fn freeze(&mut self, birth: u64, later: Option<u64>)
        requires room { 0 < self.old.later.spare }
        ensures pins { self.new.pins ≡ self.old.pins }
        ensures marks { self.new.marks ≡ self.old.marks }
        ensures later { self.new.later.numbers ≡ put_at nat_cmp birth later self.old.later.numbers }
    {
        put_pin(&mut self.later, birth, later);
    }

    /// Gives the frozen node of a birth, which is its btree's only one, the birth that it was written with. From now on it pins
    /// the oldest entry that changed it since it was frozen; where none did, it is clean. It takes no memory, and costs a
    /// logarithm of the marked nodes.
    pub fn move_to(&mut self, old: u64, fresh: u64)
        requires pinned { IsSome (value_at nat_cmp old self.old.pins.numbers) }
        requires marked { IsSome (value_at nat_cmp old self.old.marks.numbers) }
        ensures pins { self.new.pins.numbers ≡ moved_pin old fresh
            (value_at nat_cmp old self.old.later.numbers) self.old.pins.numbers }
        ensures marks { self.new.marks.numbers ≡ moved_pin old fresh
            (value_at nat_cmp old self.old.later.numbers) self.old.marks.numbers }
        ensures later { self.new.later ≡ self.old.later }
    {
        let later = self.later.get(old);
        move_pin(&mut self.pins, old, fresh, later);
        move_pin(&mut self.marks, old, fresh, later);
    }

    /// Forgets what changed nodes since they were frozen. It gives the memory of it back.
    pub fn forget_later(&mut self)
        ensures pins { self.new.pins ≡ self.old.pins }
        ensures marks { self.new.marks ≡ self.old.marks }
        ensures later { self.new.later.numbers ≡ [] }
    {
        self.later.clear();
    }
}

// How many nodes will be marked once these are too. Those without a mark are pinned in a list of their own, which is empty at first.
fn count_marked(
    marks: &PinList,
    births: &[u64],
    seq: u64,
    fresh: &mut PinList,
) -> Result<usize, AllocError>
    requires rise { IsMap nat_cmp marks.now.numbers }
    requires empty { fresh.old.numbers ≡ [] }
    ensures { IfOk result (λ count. count ≡ length (with_pins seq births.now marks.now.numbers)) }
{
    for birth in births {
        if marks.get(*birth).is_none() {
            fresh.reserve(1)?;
            fresh.pin(*birth, seq);
        }
    }
    // More nodes than can be counted have no room either.
    marks.len().checked_add(fresh.len()).ok_or(AllocError)
}

// Pins nodes at a number.
fn pin_all(pins: &mut PinList, births: &[u64], seq: u64)
    requires rise { IsMap nat_cmp pins.old.numbers }
    requires room { length births.now ≤ pins.old.spare }
    ensures numbers { pins.new.numbers ≡ with_pins seq births.now pins.old.numbers }
    ensures rise { IsMap nat_cmp pins.new.numbers }
{
    for birth in births {
        pins.pin(*birth, seq);
    }
}

// Pins a number for a node in the place of what it pinned, or none.
fn put_pin(pins: &mut PinList, node: u64, number: Option<u64>)
    requires rise { IsMap nat_cmp pins.old.numbers }
    requires room { 0 < pins.old.spare }
    ensures numbers { pins.new.numbers ≡ put_at nat_cmp node number pins.old.numbers }
    ensures rise { IsMap nat_cmp pins.new.numbers }
{
    pins.release(node);
    if let Some(seq) = number {
        pins.pin(node, seq);
    }
}

// Gives a pinned node another birth, under which it pins this number or none.
fn move_pin(pins: &mut PinList, old: u64, fresh: u64, number: Option<u64>)
    requires rise { IsMap nat_cmp pins.old.numbers }
    requires pinned { IsSome (value_at nat_cmp old pins.old.numbers) }
    ensures numbers { pins.new.numbers ≡ moved_pin old fresh number pins.old.numbers }
    ensures rise { IsMap nat_cmp pins.new.numbers }
{
    pins.release(old);
    put_pin(pins, fresh, number);
}
