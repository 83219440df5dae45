ghost use Rattle.std.specs.Prelude.{◌≡◌, ◌<◌, ◌^◌, ◌++◌, length, drop, OnOk};
ghost use Rattle.vol_types.specs.Ranges.{IsExtent, IsNode};
ghost use Rattle.vol_types.specs.Widths.{PosFits, ExtentFits, SnapFits, NodeFits};
ghost use Rattle.key_codec.specs.Kinds.{position, inode_fields, extent_fields, snap_fields, live_fields, node_fields};
ghost use Rattle.key_codec.specs.Reading.{Gives};

use crate::KeyFault;
use crate::fields::{
    file_kind_at, put_u8, put_u32, put_u64, snap_state_at, u8_within, u32_at, u32_within, u64_at,
    u64_up_to,
};
use crate::items::{counted_at, items_at, put_counted, put_items};
use std::alloc::{AllocError, Global};
use vol_types::{Bytes, Extent, FileKind, Inode, Live, NodePtr, Pos, Snap};

/// The position at the start, and the rest.
#[tactic(auto, unfolding(crate::specs::Kinds::position))]
pub fn position_at(bytes: &[u8]) -> Result<(Pos, &[u8]), KeyFault>
    ensures { Gives (λ x. (x.0, x.1.now)) result (position.read bytes.now) }
{
    let (inode, rest) = u64_at(bytes)?;
    let (offset, rest) = u64_at(rest)?;
    let (snapshot, rest) = u32_at(rest)?;
    Ok((
        Pos {
            inode,
            offset,
            snapshot,
        },
        rest,
    ))
}

/// Appends the position.
#[tactic(auto, using(crate::specs::Appending::appending), unfolding(crate::specs::Kinds::position))]
pub fn put_position(into: &mut Bytes, pos: &Pos) -> Result<(), AllocError>
    ensures ok { OnOk result (into.new ≡ into.old ++ position.encode pos.now) }
    ensures width { OnOk result (PosFits pos.now) }
    ensures kept { into.new ≡ into.old ++ drop (length into.old) into.new }
{
    put_u64(into, pos.inode)?;
    put_u64(into, pos.offset)?;
    put_u32(into, pos.snapshot)
}

/// The inode at the start, and the rest.
#[tactic(auto, unfolding(crate::specs::Kinds::inode_fields))]
pub(crate) fn inode_at(bytes: &[u8]) -> Result<(Inode, &[u8]), KeyFault>
    ensures { Gives (λ x. (x.0, x.1.now)) result (inode_fields.read bytes.now) }
{
    let (kind, rest) = file_kind_at(1, bytes)?;
    let (links, rest) = u32_within(2, 1, kind.most_links(), rest)?;
    let (size, rest) = u64_up_to(3, kind.most_bytes(), rest)?;
    Ok((Inode { kind, links, size }, rest))
}

/// Appends the inode.
#[tactic(auto, using(crate::specs::Appending::appending), unfolding(crate::specs::Kinds::inode_fields, crate::specs::Kinds::file_kind, crate::specs::Formats::ranged))]
pub(crate) fn put_inode(into: &mut Bytes, inode: &Inode) -> Result<(), AllocError>
    ensures ok { OnOk result (into.new ≡ into.old ++ inode_fields.encode inode.now) }
    ensures kept { into.new ≡ into.old ++ drop (length into.old) into.new }
{
    put_u8(into, inode.kind.code())?;
    put_u32(into, inode.links)?;
    put_u64(into, inode.size)
}

/// The extent at the start, and the rest.
#[tactic(auto, unfolding(crate::specs::Kinds::extent_fields))]
pub(crate) fn extent_at(alloc: Global, bytes: &[u8]) -> Result<(Extent, &[u8]), KeyFault>
    ensures { Gives (λ x. (x.0, x.1.now)) result (extent_fields.read bytes.now) }
{
    let (blocks, rest) = u8_within(1, 1, 16, bytes)?;
    let (pointers, rest) = counted_at(alloc, 2, 3, rest)?;
    let (digests, rest) = items_at(alloc, blocks, rest)?;
    Ok((Extent { pointers, digests }, rest))
}

/// Appends the extent.
#[tactic(auto, using(crate::specs::Appending::appending), unfolding(crate::specs::Kinds::extent_fields, crate::specs::Formats::counted, crate::specs::Formats::ranged))]
pub(crate) fn put_extent(into: &mut Bytes, extent: &Extent) -> Result<(), AllocError>
    requires { IsExtent extent.now }
    ensures ok { OnOk result (into.new ≡ into.old ++ extent_fields.encode extent.now) }
    ensures width { OnOk result (ExtentFits extent.now) }
    ensures kept { into.new ≡ into.old ++ drop (length into.old) into.new }
{
    put_u8(into, extent.digests.len() as u8)?;
    put_counted(into, extent.pointers.as_slice())?;
    put_items(into, extent.digests.as_slice())
}

/// The snapshot id at the start, and the rest.
#[tactic(auto, unfolding(crate::specs::Kinds::snap_fields))]
pub(crate) fn snap_at(bytes: &[u8]) -> Result<(Snap, &[u8]), KeyFault>
    ensures { Gives (λ x. (x.0, x.1.now)) result (snap_fields.read bytes.now) }
{
    let (parent, rest) = u32_at(bytes)?;
    let (first_child, rest) = u32_at(rest)?;
    let (second_child, rest) = u32_at(rest)?;
    let (state, rest) = snap_state_at(4, rest)?;
    Ok((
        Snap {
            parent,
            first_child,
            second_child,
            state,
        },
        rest,
    ))
}

/// Appends the snapshot id.
#[tactic(auto, using(crate::specs::Appending::appending), unfolding(crate::specs::Kinds::snap_fields, crate::specs::Kinds::snap_state, crate::specs::Formats::ranged))]
pub(crate) fn put_snap(into: &mut Bytes, snap: &Snap) -> Result<(), AllocError>
    ensures ok { OnOk result (into.new ≡ into.old ++ snap_fields.encode snap.now) }
    ensures width { OnOk result (SnapFits snap.now) }
    ensures kept { into.new ≡ into.old ++ drop (length into.old) into.new }
{
    put_u32(into, snap.parent)?;
    put_u32(into, snap.first_child)?;
    put_u32(into, snap.second_child)?;
    put_u8(into, snap.state.code())
}

/// The bucket at the start, and the rest.
#[tactic(auto, unfolding(crate::specs::Kinds::live_fields))]
pub(crate) fn live_at(bytes: &[u8]) -> Result<(Live, &[u8]), KeyFault>
    ensures { Gives (λ x. (x.0, x.1.now)) result (live_fields.read bytes.now) }
{
    let (generation, rest) = u32_at(bytes)?;
    let (blocks, rest) = u8_within(2, 0, 16, rest)?;
    Ok((Live { generation, blocks }, rest))
}

/// Appends the bucket.
#[tactic(auto, using(crate::specs::Appending::appending), unfolding(crate::specs::Kinds::live_fields, crate::specs::Formats::ranged))]
pub(crate) fn put_live(into: &mut Bytes, live: &Live) -> Result<(), AllocError>
    ensures ok { OnOk result (into.new ≡ into.old ++ live_fields.encode live.now) }
    ensures width { OnOk result (live.now.generation < 2 ^ 32) }
    ensures kept { into.new ≡ into.old ++ drop (length into.old) into.new }
{
    put_u32(into, live.generation)?;
    put_u8(into, live.blocks)
}

/// The pointer to a node at the start, and the rest.
#[tactic(auto, unfolding(crate::specs::Kinds::node_fields))]
pub fn node_at(alloc: Global, bytes: &[u8]) -> Result<(NodePtr, &[u8]), KeyFault>
    ensures { Gives (λ x. (x.0, x.1.now)) result (node_fields.read bytes.now) }
{
    let (birth, rest) = u64_at(bytes)?;
    let (level, rest) = u8_within(2, 0, 7, rest)?;
    let (places, rest) = counted_at(alloc, 3, 3, rest)?;
    Ok((
        NodePtr {
            birth,
            level,
            places,
        },
        rest,
    ))
}

/// Appends the pointer to a node.
#[tactic(auto, using(crate::specs::Appending::appending), unfolding(crate::specs::Kinds::node_fields, crate::specs::Formats::counted, crate::specs::Formats::ranged))]
pub fn put_node(into: &mut Bytes, node: &NodePtr) -> Result<(), AllocError>
    requires { IsNode node.now }
    ensures ok { OnOk result (into.new ≡ into.old ++ node_fields.encode node.now) }
    ensures width { OnOk result (NodeFits node.now) }
    ensures kept { into.new ≡ into.old ++ drop (length into.old) into.new }
{
    put_u64(into, node.birth)?;
    put_u8(into, node.level)?;
    put_counted(into, node.places.as_slice())
}
