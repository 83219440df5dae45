ghost use Rattle.std.specs.Prelude.{◌≡◌, ◌+◌, ◌<◌, Some, length, slice_index, OnOk, OnErr, IfOk};
ghost use Rattle.plain_forest.specs.Maps.{name_cmp, value_at};
ghost use Rattle.plain_forest.specs.Forest.{fresh, Tree};
ghost use Rattle.forest_ops.specs.Trees.{with_file, with_directory};
ghost use Rattle.forest_ops.specs.Places.{changed, Fits};
ghost use Rattle.forest_ops.specs.History.{is_idle, has_size, commits};
ghost use Rattle.forest_ops.specs.Walking.{file_at};
ghost use Rattle.forest_ops.specs.Names.{same_path};
ghost use Rattle.forest_ops.specs.Steps.{numbers_per_client, in_subvolume, drawn, forest_or, reply_or, forest_after, answer_of, refusal_of, came_to, made, written, truncated, content, listed, status, linked, unlinked_at, removed, renamed, with_subvolume, with_snapshot, subvolume_goes, without_subvolume, fsynced};

use crate::content::cut_size;
use crate::finding::{are_same_names, is_same_name};
use crate::names::good_subvolume;
use crate::place::Change;
use crate::subvolume::Subvolume;
use crate::subvolumes::Subvolumes;
use crate::{Cause, Class, Op, Reply};
use plain_forest::Path;
use std::alloc::{AllocError, Global};
use std::marker::Model;
use vol_digest::slot;
use vol_types::{Bytes, Duplicate};

/// What a volume means: for each subvolume a file tree of its own.
#[derive(Drop)]
pub struct Forest {
    pub(crate) alloc: Global,
    pub(crate) subvolumes: Subvolumes,
    // For each client the next of its inode numbers, counted from 1.
    pub(crate) next: [u64; 16],
    // How many snapshot ids are left.
    pub(crate) ids_left: u64,
}

impl Model for Forest {
    ghost use Rattle.std.specs.Prelude.{All, ◌≤◌, ◌^◌};
    ghost use Rattle.plain_forest.specs.Forest as model;

    ghost Value = { model.Forest };

    ghost coded = { model.forest_code };

    ghost view = { λ f. record { subvolumes = f.subvolumes; next = f.next; ids_left = f.ids_left } };

    ghost invariant = { λ f. All (λ next. next ≤ 2 ^ 48) f.next };
}

impl Forest {
    /// A forest with the subvolume `main`, whose root is empty.
    pub fn fresh(alloc: Global) -> Result<Self, AllocError>
        ensures { IfOk result (λ forest. forest ≡ fresh) }
    {
        let main = Bytes::from_slice(alloc, b"main")?;
        let mut subvolumes = Subvolumes::new(alloc);
        subvolumes.insert(
            alloc,
            &main,
            slot(main.as_slice()),
            Subvolume::empty(alloc, 1)?,
        )?;
        Ok(Forest {
            alloc,
            subvolumes,
            next: [2, 1, 1, 1, 1, 1, 1, 1, 1, 1, 1, 1, 1, 1, 1, 1],
            ids_left: 4_294_967_294,
        })
    }

    /// An equal forest. It goes over all that the forest holds, the bytes of each file too.
    pub fn copy(&self) -> Result<Self, AllocError>
        ensures { IfOk result (λ forest. forest ≡ self.now) }
    {
        Duplicate::copy(self, self.alloc)
    }

    /// The step of an operation of a client. An `Err` changes nothing. A sync answers with 0 commits, since a forest has
    /// no history, and the blocks that are used count as 0, since a forest has no devices.
    ///
    /// A step costs at most two digests of a name that comes, and one of a name that goes, a number of steps that grows
    /// with the logarithms of the sizes of its tree, and the bytes that it puts, reads or makes a file longer by; where a
    /// file grows, all its bytes may move. A listing goes over what it lists. A snapshot copies its tree whole, and
    /// `delsub` drops one, which costs the whole tree.
    ///
    /// An `Err` comes where memory ends. It would also come where a count of names is at the end of `u32`, which no forest
    /// made by `fresh` and `apply` reaches.
    pub fn apply(&mut self, client: u8, op: &Op) -> Result<Reply, AllocError>
        requires { client < 16 }
        ensures forest { OnOk result (self.new ≡ forest_after client op.now self.old) }
        ensures reply { IfOk result (λ reply. reply ≡ answer_of client op.now self.old) }
        ensures err { OnErr result (self.new ≡ self.old) }
    {
        match op {
            Op::Mkdir { path } => self.make_directory(client, path),
            Op::Mkfile { path } => self.make_file(client, path),
            Op::Write {
                path,
                offset,
                bytes,
            } => self.write(path, *offset, bytes),
            Op::Trunc { path, size } => self.truncate(path, *size),
            Op::Read { path, offset, len } => self.read(path, *offset, *len),
            Op::Ls { path } => self.list(path),
            Op::Stat { path } => Ok(self.status(path)),
            Op::Link { from, to } => self.link(from, to),
            Op::Unlink { path } => self.unlink(path),
            Op::Rmdir { path } => self.remove_directory(path),
            Op::Rename { from, to } => self.rename(from, to),
            Op::Subvol { name } => self.make_subvolume(client, name),
            Op::Snap {
                source,
                copy,
                locked,
            } => self.snapshot(source, copy, *locked),
            Op::Delsub { name } => Ok(self.remove_subvolume(name)),
            Op::Subs => Ok(Reply::SubNames(self.subvolumes.list(self.alloc)?)),
            Op::Sync => Ok(Reply::Synced(0)),
            Op::Fsync { path } => Ok(self.fsync(path)),
            Op::Sweep { .. } => Ok(Reply::Okay),
            Op::Usage => Ok(Reply::Used(0)),
        }
    }

    /// Why the forest refuses the operation of a client, if it does. It takes no memory.
    pub fn refusal(&self, client: u8, op: &Op) -> Option<Cause>
        requires { client < 16 }
        ensures { result ≡ refusal_of client op.now self.now }
    {
        match op {
            Op::Mkdir { path } | Op::Mkfile { path } => self.new_place(client, path).err(),
            Op::Write {
                path,
                offset,
                bytes,
            } => self
                .sized_file(path, u128::from(*offset) + bytes.len() as u128)
                .err(),
            Op::Trunc { path, size } => self.sized_file(path, u128::from(*size)).err(),
            Op::Read { path, .. } => self.file_at(path).err(),
            Op::Ls { path } => self.directory_at(path).err(),
            Op::Stat { path } | Op::Fsync { path } => self.inode_at(path).err(),
            Op::Link { from, to } => self.link_place(from, to).err(),
            Op::Unlink { path } => self.unlink_place(path).err(),
            Op::Rmdir { path } => self.rmdir_place(path).err(),
            Op::Rename { from, to } => self.move_of(from, to).err(),
            Op::Subvol { name } => self.subvolume_fits(client, name).err(),
            Op::Snap { source, copy, .. } => self.snapshot_source(source, copy).err(),
            Op::Delsub { name } => self.subvolume_goes(name).err(),
            Op::Subs | Op::Sync | Op::Sweep { .. } | Op::Usage => None,
        }
    }

    /// Whether an operation with its reply is a commit in this forest. A rename with equal paths isn't, nor is a
    /// truncation to the size that the file has.
    pub fn commits(&self, op: &Op, reply: &Reply) -> bool
        ensures { result ≡ commits op.now reply.now self.now }
    {
        if op.class() != Class::Changes {
            return false;
        }
        if !reply.is_done() {
            return false;
        }
        !self.is_idle(op)
    }

    // Whether an operation would change nothing.
    fn is_idle(&self, op: &Op) -> bool
        ensures { result ≡ is_idle op.now self.now }
    {
        match op {
            Op::Rename { from, to } => are_same_paths(from, to),
            Op::Trunc { path, size } => self.has_size(path, *size),
            _ => false,
        }
    }

    // Whether there is a file of this size at a path.
    fn has_size(&self, path: &Path, size: u64) -> bool
        ensures { result ≡ has_size size (file_at path.now self.now) }
    {
        match self.file_at(path) {
            Ok(file) => file.content.len() as u64 == size,
            Err(_) => false,
        }
    }

    // Makes a change of a tree.
    fn change(&mut self, sub: &Bytes, change: &Change<'_>) -> Result<(), AllocError>
        requires { (tree : Tree) → value_at name_cmp sub.now self.old.subvolumes ≡ Some tree → Fits change.now tree }
        ensures ok { OnOk result (self.new ≡ in_subvolume sub.now (changed change.now) self.old) }
        ensures err { OnErr result (self.new ≡ self.old) }
    {
        self.subvolumes.change(self.alloc, sub, change)
    }

    // Makes a change of a tree by which a client uses a number.
    fn make(&mut self, client: u8, sub: &Bytes, change: &Change<'_>) -> Result<(), AllocError>
        requires client { client < 16 }
        requires room { slice_index self.old.next client < numbers_per_client }
        requires fits { (tree : Tree) → value_at name_cmp sub.now self.old.subvolumes ≡ Some tree → Fits change.now tree }
        ensures ok { OnOk result (self.new ≡ drawn client (in_subvolume sub.now (changed change.now) self.old)) }
        ensures err { OnErr result (self.new ≡ self.old) }
    {
        self.subvolumes.change(self.alloc, sub, change)?;
        self.next[client as usize] += 1;
        Ok(())
    }

    // Makes a file.
    fn make_file(&mut self, client: u8, path: &Path) -> Result<Reply, AllocError>
        requires { client < 16 }
        ensures forest { OnOk result (self.new ≡ forest_or self.old (made with_file client path.now self.old)) }
        ensures reply { IfOk result (λ reply. reply ≡ reply_or (made with_file client path.now self.old)) }
        ensures err { OnErr result (self.new ≡ self.old) }
    {
        match self.new_place(client, path) {
            Ok(place) => {
                self.make(client, &path.sub, &Change::MakeFile(place))?;
                Ok(Reply::Okay)
            }
            Err(cause) => Ok(Reply::Refused(cause)),
        }
    }

    // Makes a directory.
    fn make_directory(&mut self, client: u8, path: &Path) -> Result<Reply, AllocError>
        requires { client < 16 }
        ensures forest { OnOk result (self.new ≡ forest_or self.old (made with_directory client path.now self.old)) }
        ensures reply { IfOk result (λ reply. reply ≡ reply_or (made with_directory client path.now self.old)) }
        ensures err { OnErr result (self.new ≡ self.old) }
    {
        match self.new_place(client, path) {
            Ok(place) => {
                self.make(client, &path.sub, &Change::MakeDirectory(place))?;
                Ok(Reply::Okay)
            }
            Err(cause) => Ok(Reply::Refused(cause)),
        }
    }

    // Puts bytes into a file.
    fn write(&mut self, path: &Path, offset: u64, bytes: &Bytes) -> Result<Reply, AllocError>
        ensures forest { OnOk result (self.new ≡ forest_or self.old (written path.now offset bytes.now self.old)) }
        ensures reply { IfOk result (λ reply. reply ≡ reply_or (written path.now offset bytes.now self.old)) }
        ensures err { OnErr result (self.new ≡ self.old) }
    {
        match self.sized_file(path, u128::from(offset) + bytes.len() as u128) {
            Ok(file) => {
                let number = file.number;
                self.change(
                    &path.sub,
                    &Change::Put {
                        number,
                        offset,
                        bytes,
                    },
                )?;
                Ok(Reply::Okay)
            }
            Err(cause) => Ok(Reply::Refused(cause)),
        }
    }

    // Truncates a file once.
    fn truncate(&mut self, path: &Path, wanted: u64) -> Result<Reply, AllocError>
        ensures forest { OnOk result (self.new ≡ forest_or self.old (truncated path.now wanted self.old)) }
        ensures reply { IfOk result (λ reply. reply ≡ reply_or (truncated path.now wanted self.old)) }
        ensures err { OnErr result (self.new ≡ self.old) }
    {
        match self.sized_file(path, u128::from(wanted)) {
            Ok(file) => {
                let number = file.number;
                let size = cut_size(file.content.len() as u64, wanted);
                self.change(&path.sub, &Change::Resize { number, size })?;
                Ok(came_to(size, wanted))
            }
            Err(cause) => Ok(Reply::Refused(cause)),
        }
    }

    // Bytes of a file.
    fn read(&self, path: &Path, offset: u64, len: u64) -> Result<Reply, AllocError>
        ensures { IfOk result (λ reply. reply ≡ reply_or (content path.now offset len self.now)) }
    {
        match self.file_at(path) {
            Ok(file) => Ok(Reply::Content(file.content.read(self.alloc, offset, len)?)),
            Err(cause) => Ok(Reply::Refused(cause)),
        }
    }

    // The names of a directory with their kinds.
    fn list(&self, path: &Path) -> Result<Reply, AllocError>
        ensures { IfOk result (λ reply. reply ≡ reply_or (listed path.now self.now)) }
    {
        match self.directory_at(path) {
            Ok(found) => Ok(Reply::List(found.tree.list(self.alloc, found.names)?)),
            Err(cause) => Ok(Reply::Refused(cause)),
        }
    }

    // What stands at a path.
    fn status(&self, path: &Path) -> Reply
        ensures { result ≡ reply_or (status path.now self.now) }
    {
        match self.inode_at(path) {
            Ok(inode) => inode.tree.status(inode.number),
            Err(cause) => Reply::Refused(cause),
        }
    }

    // A sync where something stands at a path.
    fn fsync(&self, path: &Path) -> Reply
        ensures { result ≡ reply_or (fsynced path.now self.now) }
    {
        match self.inode_at(path) {
            Ok(_) => Reply::Synced(0),
            Err(cause) => Reply::Refused(cause),
        }
    }

    // Gives a file one more name.
    fn link(&mut self, from: &Path, to: &Path) -> Result<Reply, AllocError>
        ensures forest { OnOk result (self.new ≡ forest_or self.old (linked from.now to.now self.old)) }
        ensures reply { IfOk result (λ reply. reply ≡ reply_or (linked from.now to.now self.old)) }
        ensures err { OnErr result (self.new ≡ self.old) }
    {
        match self.link_place(from, to) {
            Ok(place) => {
                self.change(&from.sub, &Change::AddName(place))?;
                Ok(Reply::Okay)
            }
            Err(cause) => Ok(Reply::Refused(cause)),
        }
    }

    // Takes one name of a file away.
    fn unlink(&mut self, path: &Path) -> Result<Reply, AllocError>
        ensures forest { OnOk result (self.new ≡ forest_or self.old (unlinked_at path.now self.old)) }
        ensures reply { IfOk result (λ reply. reply ≡ reply_or (unlinked_at path.now self.old)) }
        ensures err { OnErr result (self.new ≡ self.old) }
    {
        match self.unlink_place(path) {
            Ok(place) => {
                self.change(&path.sub, &Change::Unlink(place))?;
                Ok(Reply::Okay)
            }
            Err(cause) => Ok(Reply::Refused(cause)),
        }
    }

    // Removes a directory.
    fn remove_directory(&mut self, path: &Path) -> Result<Reply, AllocError>
        ensures forest { OnOk result (self.new ≡ forest_or self.old (removed path.now self.old)) }
        ensures reply { IfOk result (λ reply. reply ≡ reply_or (removed path.now self.old)) }
        ensures err { OnErr result (self.new ≡ self.old) }
    {
        match self.rmdir_place(path) {
            Ok(place) => {
                self.change(&path.sub, &Change::RemoveDirectory(place))?;
                Ok(Reply::Okay)
            }
            Err(cause) => Ok(Reply::Refused(cause)),
        }
    }

    // Moves a name.
    fn rename(&mut self, from: &Path, to: &Path) -> Result<Reply, AllocError>
        ensures forest { OnOk result (self.new ≡ forest_or self.old (renamed from.now to.now self.old)) }
        ensures reply { IfOk result (λ reply. reply ≡ reply_or (renamed from.now to.now self.old)) }
        ensures err { OnErr result (self.new ≡ self.old) }
    {
        match self.move_of(from, to) {
            Ok(Some((old, new))) => {
                self.change(&from.sub, &Change::Move { old, new })?;
                Ok(Reply::Okay)
            }
            Ok(None) => Ok(Reply::Okay),
            Err(cause) => Ok(Reply::Refused(cause)),
        }
    }

    // Makes an empty subvolume.
    fn make_subvolume(&mut self, client: u8, name: &Bytes) -> Result<Reply, AllocError>
        requires { client < 16 }
        ensures forest { OnOk result (self.new ≡ forest_or self.old (with_subvolume client name.now self.old)) }
        ensures reply { IfOk result (λ reply. reply ≡ reply_or (with_subvolume client name.now self.old)) }
        ensures err { OnErr result (self.new ≡ self.old) }
    {
        match self.subvolume_fits(client, name) {
            Ok(()) => {
                let tree = Subvolume::empty(self.alloc, self.next_number(client))?;
                self.subvolumes
                    .insert(self.alloc, name, slot(name.as_slice()), tree)?;
                self.next[client as usize] += 1;
                self.ids_left -= 1;
                Ok(Reply::Okay)
            }
            Err(cause) => Ok(Reply::Refused(cause)),
        }
    }

    // Makes a subvolume whose tree is a copy of another's.
    fn snapshot(&mut self, source: &Bytes, copy: &Bytes, locked: bool) -> Result<Reply, AllocError>
        ensures forest { OnOk result (self.new ≡ forest_or self.old (with_snapshot source.now copy.now locked self.old)) }
        ensures reply { IfOk result (λ reply. reply ≡ reply_or (with_snapshot source.now copy.now locked self.old)) }
        ensures err { OnErr result (self.new ≡ self.old) }
    {
        match self.snapshot_source(source, copy) {
            Ok(tree) => {
                let tree = tree.snapshot(self.alloc, locked)?;
                self.subvolumes
                    .insert(self.alloc, copy, slot(copy.as_slice()), tree)?;
                self.ids_left -= 2;
                Ok(Reply::Okay)
            }
            Err(cause) => Ok(Reply::Refused(cause)),
        }
    }

    // Whether a subvolume can be removed.
    fn subvolume_goes(&self, name: &Bytes) -> Result<(), Cause>
        ensures { result ≡ subvolume_goes name.now self.now }
    {
        good_subvolume(name)?;
        self.tree_named(name)?;
        Ok(())
    }

    // Removes a subvolume.
    fn remove_subvolume(&mut self, name: &Bytes) -> Reply
        ensures forest { self.new ≡ forest_or self.old (without_subvolume name.now self.old) }
        ensures reply { result ≡ reply_or (without_subvolume name.now self.old) }
    {
        match self.subvolume_goes(name) {
            Ok(()) => {
                self.subvolumes.remove(name, slot(name.as_slice()));
                Reply::Okay
            }
            Err(cause) => Reply::Refused(cause),
        }
    }
}

impl Duplicate for Forest {
    fn copy(&self, alloc: Global) -> Result<Self, AllocError> {
        Ok(Forest {
            alloc,
            subvolumes: self.subvolumes.copy(alloc)?,
            next: self.next,
            ids_left: self.ids_left,
        })
    }
}

// Whether two paths are equal.
fn are_same_paths(one: &Path, other: &Path) -> bool
    ensures { result ≡ same_path one.now other.now }
{
    if !is_same_name(&one.sub, &other.sub) {
        return false;
    }
    are_same_names(one.names.as_slice(), other.names.as_slice())
}

// The reply of a truncation that came to a size.
fn came_to(size: u64, wanted: u64) -> Reply
    ensures { result ≡ came_to size wanted }
{
    if size == wanted {
        Reply::Okay
    } else {
        Reply::More(size)
    }
}
