ghost use Rattle.std.specs.Prelude.{◌≡◌, ◌<◌, List, Some, true, IfErr, IfOk, IfSome};
ghost use Rattle.fs_plan.specs.Outcomes.{answered, changed, moved, plan_of};
ghost use Rattle.fs_plan.specs.Plans.{IsBounded, IsOfItsClass, IsPlanOf, is_planned};
ghost use Rattle.path_plan.specs.Given.{IsGiven};
ghost use Rattle.key_meaning.specs.Checks.{IsSound};
ghost use Rattle.key_meaning.specs.Tidy.{IsTidy};
ghost use Rattle.key_view.specs.Holds.{IsCause};
ghost use Rattle.key_view.specs.Seen.{GoesOn};
ghost use Rattle.vol_types.specs.KeyMaps.{KeyMap};
ghost use Rattle.vol_types.specs.declared.layout.Layout.{Layout};
ghost use Rattle.vol_types.specs.declared.pointers.Place.{Place};

use crate::Plan;
use crate::listing::list;
use crate::planned::Outcome;
use crate::status::stat;
use crate::syncing::sync_at;
use forest_ops::{Cause, Op, Reply};
use key_view::{Hold, View};
use name_plan::{link, make, remove_directory, rename, unlink};
use std::alloc::Global;
use subvol_ops::{list_subvolumes, make_snapshot, make_subvolume, remove_subvolume};
use vol_types::{FileKind, Updates};

/// Whether an operation is one of those that can be planned so far.
pub fn is_planned(op: &Op) -> bool
    ensures { result ≡ is_planned op.now }
{
    matches!(
        op,
        Op::Mkdir { .. }
            | Op::Mkfile { .. }
            | Op::Link { .. }
            | Op::Unlink { .. }
            | Op::Rmdir { .. }
            | Op::Rename { .. }
            | Op::Ls { .. }
            | Op::Stat { .. }
            | Op::Subvol { .. }
            | Op::Snap { .. }
            | Op::Delsub { .. }
            | Op::Subs
            | Op::Sync
            | Op::Fsync { .. }
    )
}

/// The plan of an operation of a client. It holds for every sound and tidy key map that gives the looks which the view has made
/// then, and whose snapshot ids are those that it has told.
///
/// A path costs the looks of `nearest` at an inode and at a slot for each of its names, and a look for its subvolume. A listing, a
/// count of a directory's names (`stat`) and the test whether it is empty (`rmdir`) cost one look more than twice those of the names'
/// slots; the test ends at the first name that shows, and a listing alone takes memory for its names. A new inode costs a look at its
/// client's counter; each name that comes or goes costs the looks of `nearest` at its slot, and memory for the names of the slot. Such a
/// change has three updates at most. A sync makes no look, and an `fsync` those of its path.
///
/// A subvolume that is made, copied or removed costs a look at the slot of each name of the operation, one at the counter of ids where
/// it draws some, and one at its client's counter where it gets a root, whatever its tree holds: a new one has five updates, a snapshot
/// six at most, and a removal two. A listing of the subvolumes costs a look for each slot that has some, and one more, and takes memory
/// for their names.
///
/// An `Err` is the view's, or comes where memory ends.
pub fn plan<V: View>(alloc: Global, view: &mut V, client: u8, op: Op) -> Result<Plan, Hold>
    requires client { client < 16 }
    requires planned { is_planned op ≡ true }
    requires bounded { IsBounded op }
    ensures op { IfOk result (λ plan. plan.op ≡ op) }
    ensures plan { IfOk result (λ plan. (keys : KeyMap) (nodes : List Place) (layout : Layout)
        → IsGiven keys (V.made view.new) (V.told view.new) → IsSound keys nodes layout → IsTidy keys
        → IsPlanOf keys nodes layout client plan) }
    ensures class { IfOk result IsOfItsClass }
    ensures looks { GoesOn (V.made view.old) (V.made view.new) }
    ensures ids { IfSome (V.told view.old) (λ tree. V.told view.new ≡ Some tree) }
    ensures cause { IfErr result (IsCause (V.held view.new)) }
{
    match outcome(alloc, view, client, &op) {
        Ok(outcome) => {
            let Outcome {
                updates,
                reply,
                commits,
            } = outcome;
            Ok(Plan {
                op,
                updates,
                reply,
                commits,
            })
        }
        Err(hold) => {
            drop(op);
            Err(hold)
        }
    }
}

// What the plan of an operation comes to.
fn outcome<V: View>(alloc: Global, view: &mut V, client: u8, op: &Op) -> Result<Outcome, Hold>
    requires client { client < 16 }
    requires planned { is_planned op.now ≡ true }
    ensures plan { IfOk result (λ outcome. (keys : KeyMap) (nodes : List Place) (layout : Layout)
        → IsGiven keys (V.made view.new) (V.told view.new) → IsSound keys nodes layout → IsTidy keys
        → IsPlanOf keys nodes layout client (plan_of op.now outcome)) }
    ensures class { IfOk result (λ outcome. IsOfItsClass (plan_of op.now outcome)) }
    ensures looks { GoesOn (V.made view.old) (V.made view.new) }
    ensures ids { IfSome (V.told view.old) (λ tree. V.told view.new ≡ Some tree) }
    ensures cause { IfErr result (IsCause (V.held view.new)) }
{
    match op {
        Op::Mkdir { path } => {
            let made = make(alloc, view, client, FileKind::Directory, path)?;
            Ok(changed(alloc, made))
        }
        Op::Mkfile { path } => {
            let made = make(alloc, view, client, FileKind::File, path)?;
            Ok(changed(alloc, made))
        }
        Op::Link { from, to } => Ok(changed(alloc, link(alloc, view, from, to)?)),
        Op::Unlink { path } => Ok(changed(alloc, unlink(alloc, view, path)?)),
        Op::Rmdir { path } => Ok(changed(alloc, remove_directory(alloc, view, path)?)),
        Op::Rename { from, to } => Ok(moved(alloc, rename(alloc, view, from, to)?)),
        Op::Ls { path } => Ok(answered(alloc, list(alloc, view, path)?)),
        Op::Stat { path } => Ok(answered(alloc, stat(view, path)?)),
        Op::Subvol { name } => Ok(changed(alloc, make_subvolume(alloc, view, client, name)?)),
        Op::Snap {
            source,
            copy,
            locked,
        } => {
            let made = make_snapshot(alloc, view, source, copy, *locked)?;
            Ok(changed(alloc, made))
        }
        Op::Delsub { name } => Ok(changed(alloc, remove_subvolume(alloc, view, name)?)),
        Op::Subs => {
            let names = list_subvolumes(alloc, view)?;
            Ok(answered(alloc, Reply::SubNames(names)))
        }
        Op::Sync => Ok(answered(alloc, Reply::Synced(0))),
        Op::Fsync { path } => Ok(answered(alloc, sync_at(view, path)?)),
        _ => unreachable!(),
    }
}

// What is only answered.
fn answered(alloc: Global, reply: Reply) -> Outcome
    ensures { result ≡ answered reply }
{
    Outcome {
        updates: Updates::new(alloc),
        reply,
        commits: false,
    }
}

// What a change comes to: a commit of its updates, or a refusal.
fn changed(alloc: Global, made: Result<Updates, Cause>) -> Outcome
    ensures { result ≡ changed made }
{
    match made {
        Ok(updates) => Outcome {
            updates,
            reply: Reply::Okay,
            commits: true,
        },
        Err(cause) => answered(alloc, Reply::Refused(cause)),
    }
}

// What a rename comes to: where there is nothing to move it is done, and is no commit.
fn moved(alloc: Global, made: Result<Option<Updates>, Cause>) -> Outcome
    ensures { result ≡ moved made }
{
    match made {
        Ok(Some(updates)) => changed(alloc, Ok(updates)),
        Ok(None) => answered(alloc, Reply::Okay),
        Err(cause) => answered(alloc, Reply::Refused(cause)),
    }
}
