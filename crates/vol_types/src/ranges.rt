ghost use Rattle.std.specs.Prelude.{◌≡◌, IsTrue, ◌↔◌, ◌%◌, All, map, option_copied, option_map};
ghost use Rattle.std.specs.Ordering.{nat_cmp};
ghost use Rattle.vol_types.specs.Ranges.{IsAbove, IsBucket, IsDevice, IsExtent, IsInode, IsName, IsNode, IsValue, AreLinks, AreSubs, Rise, most_bytes, most_links, name_cmp};

use crate::{BUCKET_BLOCKS, Extent, FileKind, Inode, Link, NodePtr, Place, Pointer, Sub, Value};

impl Value {
    /// Whether its fields are in range. It looks at each of its names, pointers and places.
    pub fn is_in_range(&self) -> bool
        ensures { IsTrue result ↔ IsValue self.now }
    {
        match self {
            Value::Inode(inode) => is_inode(inode),
            Value::Names(links) => are_links(links.as_slice()),
            Value::Extent(extent) => is_extent(extent),
            Value::Hole { blocks } => 1 <= *blocks && *blocks <= 4096,
            Value::White => true,
            Value::Subs(subs) => are_subs(subs.as_slice()),
            Value::Snap(_) => true,
            Value::Live(live) => u32::from(live.blocks) <= BUCKET_BLOCKS,
            Value::Back { .. } => true,
            Value::Gone => true,
            Value::Counter { .. } => true,
            Value::Node(node) => node.is_in_range(),
        }
    }
}

impl FileKind {
    /// The most names that an inode of this kind has.
    pub fn most_links(self) -> u32
        ensures { result ≡ most_links self }
    {
        match self {
            FileKind::File => 255,
            FileKind::Directory => 1,
        }
    }

    /// The greatest size of an inode of this kind, in bytes.
    pub fn most_bytes(self) -> u64
        ensures { result ≡ most_bytes self }
    {
        match self {
            FileKind::File => 16_777_216,
            FileKind::Directory => 0,
        }
    }
}

fn is_inode(inode: &Inode) -> bool
    ensures { IsTrue result ↔ IsInode inode.now }
{
    1 <= inode.links
        && inode.links <= inode.kind.most_links()
        && inode.size <= inode.kind.most_bytes()
}

fn is_name(name: &[u8]) -> bool
    ensures { IsTrue result ↔ IsName name.now }
{
    1 <= name.len() && name.len() <= 255
}

fn are_links(links: &[Link]) -> bool
    ensures { IsTrue result ↔ AreLinks links.now }
{
    if links.is_empty() || links.len() > 8 {
        return false;
    }
    if !have_names(links) {
        return false;
    }
    do_links_rise(links)
}

fn have_names(links: &[Link]) -> bool
    ensures { IsTrue result ↔ All (λ link. IsName link.name) links.now }
{
    links.iter().all(|link| is_name(link.name.as_slice()))
}

// Whether each name is above the one before it.
fn do_links_rise(links: &[Link]) -> bool
    ensures { IsTrue result ↔ Rise name_cmp (map (λ link. link.name) links.now) }
{
    let mut before = None;
    for link in links {
        if !is_link_above(before, link) {
            return false;
        }
        before = Some(link);
    }
    true
}

fn is_link_above(before: Option<&Link>, link: &Link) -> bool
    ensures { IsTrue result ↔ IsAbove name_cmp (option_map (λ l. l.name)
        (option_copied before.entry)) link.now.name }
{
    match before {
        None => true,
        Some(before) => before.name.as_slice().cmp(link.name.as_slice()).is_lt(),
    }
}

fn are_subs(subs: &[Sub]) -> bool
    ensures { IsTrue result ↔ AreSubs subs.now }
{
    if subs.is_empty() || subs.len() > 8 {
        return false;
    }
    if !are_named(subs) {
        return false;
    }
    do_subs_rise(subs)
}

fn are_named(subs: &[Sub]) -> bool
    ensures { IsTrue result ↔ All (λ sub. IsName sub.name) subs.now }
{
    subs.iter().all(|sub| is_name(sub.name.as_slice()))
}

// Whether each name is above the one before it.
fn do_subs_rise(subs: &[Sub]) -> bool
    ensures { IsTrue result ↔ Rise name_cmp (map (λ sub. sub.name) subs.now) }
{
    let mut before = None;
    for sub in subs {
        if !is_sub_above(before, sub) {
            return false;
        }
        before = Some(sub);
    }
    true
}

fn is_sub_above(before: Option<&Sub>, sub: &Sub) -> bool
    ensures { IsTrue result ↔ IsAbove name_cmp (option_map (λ s. s.name)
        (option_copied before.entry)) sub.now.name }
{
    match before {
        None => true,
        Some(before) => before.name.as_slice().cmp(sub.name.as_slice()).is_lt(),
    }
}

fn is_extent(extent: &Extent) -> bool
    ensures { IsTrue result ↔ IsExtent extent.now }
{
    let pointers = extent.pointers.as_slice();
    if extent.digests.is_empty() || extent.digests.len() > 16 {
        return false;
    }
    if pointers.is_empty() || pointers.len() > 3 {
        return false;
    }
    if !are_on_devices(pointers) {
        return false;
    }
    do_devices_rise(pointers)
}

fn are_on_devices(pointers: &[Pointer]) -> bool
    ensures { IsTrue result ↔ All (λ pointer. IsDevice pointer.place.dev) pointers.now }
{
    pointers.iter().all(|pointer| pointer.place.dev < 8)
}

// Whether each device is above the one before it.
fn do_devices_rise(pointers: &[Pointer]) -> bool
    ensures { IsTrue result ↔ Rise nat_cmp (map (λ pointer. pointer.place.dev) pointers.now) }
{
    let mut before = None;
    for pointer in pointers {
        if !is_device_above(before, pointer) {
            return false;
        }
        before = Some(pointer);
    }
    true
}

fn is_device_above(before: Option<&Pointer>, pointer: &Pointer) -> bool
    ensures { IsTrue result ↔ IsAbove nat_cmp (option_map (λ p. p.place.dev)
        (option_copied before.entry)) pointer.now.place.dev }
{
    match before {
        None => true,
        Some(before) => before.place.dev < pointer.place.dev,
    }
}

impl NodePtr {
    /// Whether its level, the number of its places and the places are in range.
    pub fn is_in_range(&self) -> bool
        ensures { IsTrue result ↔ IsNode self.now }
    {
        if self.level > 7 {
            return false;
        }
        if self.places.is_empty() || self.places.len() > 3 {
            return false;
        }
        are_buckets(self.places.as_slice())
    }
}

fn are_buckets(places: &[Place]) -> bool
    ensures { IsTrue result ↔ All IsBucket places.now }
{
    places.iter().all(|place| place.is_bucket())
}

impl Place {
    /// Whether it is the first block of a bucket of one of at most eight devices.
    pub fn is_bucket(&self) -> bool
        ensures { IsTrue result ↔ IsBucket self.now }
    {
        self.dev < 8 && self.block % BUCKET_BLOCKS == 0
    }
}
