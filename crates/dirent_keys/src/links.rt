ghost use Rattle.std.specs.Prelude.{◌≡◌, ◌≤◌, IfOk, length, nat_le};
ghost use Rattle.std.specs.List.{list_any, position, position_or_len};
ghost use Rattle.std.specs.Ordering.{is_eq, is_lt};
ghost use Rattle.dirent_keys.specs.Links.{names_value, with_link, without_name};
ghost use Rattle.key_meaning.specs.Forest.{links_of};
ghost use Rattle.plain_forest.specs.Steps.{names_per_slot};
ghost use Rattle.vol_types.specs.Ranges.{name_cmp};

use std::alloc::{AllocError, Global};
use vol_types::{Bytes, Duplicate, FileKind, Link, LinkList, Value};

/// How many names of a directory may share a slot.
const NAMES_PER_SLOT: usize = 8;

/// The names that a value holds.
pub fn links_of(alloc: Global, value: Option<Value>) -> LinkList
    ensures { result ≡ links_of value }
{
    match value {
        Some(Value::Names(links)) => links,
        _ => LinkList::new(alloc),
    }
}

/// The value that holds some names; none where there is no name.
pub fn names_value(links: LinkList) -> Option<Value>
    ensures { result ≡ names_value links }
{
    if links.is_empty() {
        return None;
    }
    Some(Value::Names(links))
}

/// Whether a name is among these.
pub fn is_among(name: &[u8], links: &[Link]) -> bool
    ensures { result ≡ list_any (λ link. is_eq (name_cmp name.now link.name)) links.now }
{
    links.iter().any(|link| is_named(link, name))
}

/// Whether as many names share a slot as may.
pub fn is_full(links: &[Link]) -> bool
    ensures { result ≡ nat_le names_per_slot (length links.now) }
{
    links.len() >= NAMES_PER_SLOT
}

/// A name that leads to an inode.
pub fn link_to(alloc: Global, name: &Bytes, number: u64, kind: FileKind) -> Result<Link, AllocError>
    ensures { IfOk result (λ link. link ≡ record { number = number; kind = kind; name = name.now }) }
{
    Ok(Link {
        number,
        kind,
        name: name.copy(alloc)?,
    })
}

/// The names with a further one, in their order.
pub fn with_link(links: LinkList, link: Link) -> Result<LinkList, AllocError>
    ensures { IfOk result (λ all. all ≡ with_link link links) }
{
    let place = place_among(link.name.as_slice(), links.as_slice());
    let mut members = Vec::from(links);
    members.insert(place, link)?;
    Ok(LinkList::from(members))
}

/// The names but this one.
pub fn without_name(links: LinkList, name: &[u8]) -> LinkList
    ensures { result ≡ without_name name.now links }
{
    let mut members = Vec::from(links);
    members.retain(|link| !is_named(link, name));
    LinkList::from(members)
}

// The place of the first name that is above this one, or behind all.
#[tactic(auto, using(crate::proofs::Listed::place_or_end, crate::proofs::Listed::place_within))]
fn place_among(name: &[u8], links: &[Link]) -> usize
    ensures place { result ≡ position_or_len (λ link. is_lt (name_cmp name.now link.name)) links.now }
    ensures within { result ≤ length links.now }
{
    first_above(name, links).unwrap_or(links.len())
}

fn first_above(name: &[u8], links: &[Link]) -> Option<usize>
    ensures { result ≡ position (λ link. is_lt (name_cmp name.now link.name)) links.now }
{
    links.iter().position(|link| is_below(name, link))
}

/// Whether a name is this one.
pub fn is_named(link: &Link, name: &[u8]) -> bool
    ensures { result ≡ is_eq (name_cmp name.now link.now.name) }
{
    name.cmp(link.name.as_slice()).is_eq()
}

// Whether a name is below another.
fn is_below(name: &[u8], link: &Link) -> bool
    ensures { result ≡ is_lt (name_cmp name.now link.now.name) }
{
    name.cmp(link.name.as_slice()).is_lt()
}
