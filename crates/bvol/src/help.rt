/// What `bvol --version` prints.
pub const VERSION: &str = "bvol 0.1.0, of format version 1\n";

/// What `bvol --help` prints.
pub const HELP: &str = "\
bvol keeps files in a copy-on-write volume over one to eight image files.

usage:
  bvol format OPTIONS -- IMAGE..   make a new volume of the IMAGEs
  bvol run -- IMAGE.. < SCRIPT     run a script on the volume in the IMAGEs
  bvol info -- IMAGE..             say what the IMAGEs hold, without a write
  bvol help format                 the options, and the statuses
  bvol help run                    the script, its replies and the statuses
  bvol help info                   the lines, and the statuses
  bvol help, bvol --help, bvol -h  this text; behind a command, its own help
  bvol --version                   the program's version

An IMAGE is a file that can be read and written. A volume is run with all files
that it was made of, in the same order. The script comes from standard input;
replies and errors go to standard output, for programs; where a command does
nothing, standard error says in a sentence what happened and what to do.

example:
  touch a.img b.img
  bvol format --id 00000000-0000-4000-8000-000000000001 --blocks 1024 \\
    --meta-replicas 2 -- a.img b.img
  printf 'mkdir main:/d\\nmkfile main:/d/a\\nls main:/d\\n' | bvol run -- a.img b.img
prints
  formatted 00000000-0000-4000-8000-000000000001 devices 2 blocks 1024 journal 256
  @0 1 ok
  @0 2 ok
  @0 3 list a
  end commits 2 synced 2
";

/// What `bvol help format` prints.
pub const FORMAT_HELP: &str = "\
bvol format OPTIONS -- IMAGE..

Makes a new, empty volume of the IMAGEs, one to eight files. A shorter file is
made as long as it has to be; whatever the files held is lost. After a crash
the files hold the volume that was there, or none that mounts, or the new one.

options, each as `--NAME VALUE` or `--NAME=VALUE`, in any order:
  --id U              the volume's id, a UUID in any of its forms; needed
  --blocks N          the blocks of each file, of 4,096 bytes each; needed.
                      1024 to 1048576, a multiple of 16, at least 2 x (J + 16)
  --journal J         the blocks of the journal; 256 to 4096, a multiple of 16;
                      256 where it is left out. It is a ring, which a run uses
                      again and again; a longer one is cleared less often
  --data-replicas R   the copies of each extent of data, 1 to 3, at most one for
                      each file; 1 where it is left out
  --meta-replicas M   the first files, so many, each keep the journal and the
                      btrees; 1 to 3, at most one for each file; 1 where it is
                      left out

prints
  formatted U devices D blocks N journal J

exit status:
  0  the files hold the new volume
  1  error 1 usage: other arguments, or numbers that no volume may have; nothing
     was touched
  5  standard output couldn't be written
  6  error 6 device D: file D, from 0, isn't there, is in use, or can't be read
     and written
  7  error 7 memory: out of memory

example:
  touch a.img b.img
  bvol format --id 00000000-0000-4000-8000-000000000001 --blocks 1024 \\
    --meta-replicas 2 -- a.img b.img
prints
  formatted 00000000-0000-4000-8000-000000000001 devices 2 blocks 1024 journal 256
";

/// What `bvol help info` prints.
pub const INFO_HELP: &str = "\
bvol info -- IMAGE..

Says what the volume in the IMAGEs holds, and writes nothing. `info` has no
options, and reads no input. The IMAGEs are all files that `bvol format` made the
volume of, in the same order. They are read whole as far as the volume uses them:
what `bvol run` refuses, `info` refuses too.

prints
  volume U devices D blocks N journal J data-replicas R meta-replicas M
                     as `bvol format` made it
  session S commits C sequence Q
                     S: the last run that opened it (1: `format` alone); C commits
                     since it was made; Q: the newest entry of its journal
  journal from O entries E blocks B
                     entries O to Q are needed, E of them; they take B blocks
                     of the J
  subvolumes N ids I dead D
                     there are N subvolumes, snapshots among them; they and what
                     they were copied from have I snapshot ids, D of which
                     were those of removed ones, whose keys aren't cleared yet
  btree NAME level L nodes N keys K
                     for each of nine btrees: its root is of level L (0: it is one
                     leaf); K counts the keys that the journal alone has yet. Those
                     of `deleted` note unlinked files, and aren't cleared yet
  device D buckets B free F used U
                     for each file, from 0: of its B buckets of 16 blocks F are
                     free, and in U a btree node or blocks of files lie; the
                     others have the superblocks and the journal, or are retired
  end                all was said

exit status:
  0  it was
  1  error 1 usage: other arguments than `info -- IMAGE..`
  3  mount refused ..: no volume is found; `bvol help run` has the reasons
  5  standard output couldn't be written
  6  error 6 device D: file D, from 0, isn't there, is in use, or can't be read
     and written
  7  error 7 memory: out of memory

example:
  touch a.img b.img
  bvol format --id 00000000-0000-4000-8000-000000000001 --blocks 1024 \\
    --meta-replicas 2 -- a.img b.img
  bvol info -- a.img b.img
prints
  formatted 00000000-0000-4000-8000-000000000001 devices 2 blocks 1024 journal 256
  volume 00000000-0000-4000-8000-000000000001 devices 2 blocks 1024 journal 256 data-replicas 1 meta-replicas 2
  session 1 commits 0 sequence 1
  journal from 1 entries 1 blocks 1
  subvolumes 1 ids 1 dead 0
  btree extents level 0 nodes 1 keys 0
  btree inodes level 0 nodes 1 keys 1
  btree dirents level 0 nodes 1 keys 0
  btree subvols level 0 nodes 1 keys 1
  btree snapshots level 0 nodes 1 keys 1
  btree alloc level 0 nodes 1 keys 0
  btree backptrs level 0 nodes 1 keys 0
  btree deleted level 0 nodes 1 keys 0
  btree counters level 0 nodes 1 keys 17
  device 0 buckets 64 free 38 used 9
  device 1 buckets 64 free 38 used 9
  end
";

/// What `bvol help run` prints.
pub const RUN_HELP: &str = "\
bvol run -- IMAGE.. < SCRIPT

Reads the whole script, mounts the volume in the IMAGEs, answers each line, and
then makes all changes durable. `run` has no options. The IMAGEs are all files
that `bvol format` made the volume of, in the same order. A script that has a bad
line changes nothing, nor does a run whose volume isn't mounted. Whenever the run
is killed, or the machine crashes, the IMAGEs have the volume after some first
part of its commits, with all that a `sync` had acknowledged.

A volume's btrees are one node each today, which bounds it: up to 1,397 files
and directories, of whose names each counts its bytes and 32 more, 47,560 bytes
in all. A snapshot counts none of them again; what it and its source change from
then on does. In its life a volume takes 698 snapshots: each takes two of 1,398
ids, a `subvol` takes one, and none is given back yet. A file whose last name is
unlinked leaves a note, which isn't cleared yet either, so that a volume takes
2,264 of these in its life. What would be more is `err no-space need 0`; all
other lines go on, and a new `format` alone makes room.

script lines, each ended by a line feed, which the last one may lack (a carriage
return before it is a bad byte of the line):
  mkdir P              make an empty directory
  mkfile P             make an empty file
  link P Q             give the file P the further name Q
  unlink P             take a name of a file away, and the file with its last one
  rmdir P              remove an empty directory
  rename P Q           move the file or directory P to Q, which must not be there,
                       or be P itself: then nothing is done
  ls P                 list a directory, its names in order of their bytes; a byte
                       above 127 is written as % and two hex digits
  stat P               say what stands at P
  subvol N             make an empty subvolume
  snap N M             make a snapshot of the subvolume N: M has what N has now, and
                       from then on each goes its own way. It copies nothing
  snap N M ro          the same, and M may only be read
  delsub N             remove a subvolume; what others have of it stays
  subs                 list the subvolumes
  sync                 make all commits so far durable
  fsync P              the same, where something stands at P
  barrier              nothing yet: lines run one after the other anyhow
  # TEXT               a comment; it is skipped, as an empty line is
P and Q are paths: main:/ is the root of the subvolume main, and main:/a/b the
name b in its directory a; at most 32 names, and no / at the end but the root's.
N and M are names of subvolumes, which have no `:`. `..` and `.` aren't names. A
name has 1 to 255 bytes. Each stands for itself if it is from ! to ~ but neither /
nor %, or above 127; any other is % and two hex digits, as %20 for a space. One
space stands between two words, and nowhere else.
`@C `, with C from 0 to 15, may stand before a verb: the line is client C's, who
draws inode numbers of its own.

replies, one a line, with the client and the number of the script's line:
  @0 1 ok                    done
  @0 2 list a b d/           the names; a directory's has / after it
  @0 3 file 2 0 1            a file: its inode number, its bytes, its names
  @0 3 dir 1 3               a directory: its inode number, its names
  @0 3 subs rw:main ro:s     the subvolumes; one with ro may only be read
  @0 4 ok 2                  two commits of this run are on the disks, by `sync`
                             or `fsync`
  @0 3 err exists            the new name is there already, or is a root
  @0 3 err bad-path          a name is empty, as behind a / at the end, or too long,
                             or has a byte that no name has; or a path has more
                             than 32 names
  @0 3 err no-subvolume      no subvolume has that name
  @0 3 err not-found         a name on the path isn't there
  @0 3 err not-dir           a file stands where a directory should
  @0 3 err is-dir            a directory stands where a file should
  @0 3 err read-only         the subvolume may only be read
  @0 3 err not-empty         the directory has names
  @0 3 err loop              a directory can't be moved below itself, and a root
                             neither moved nor removed
  @0 3 err cross             the two paths name different subvolumes
  @0 3 err links-full        the file has 255 names
  @0 3 err crowded           eight names of that directory, or eight subvolumes, have
                             the slot of the new one, a piece of its digest;
                             another name goes
  @0 3 err too-many          there are 4,096 subvolumes
  @0 3 err ids-spent         the client has drawn all of its inode numbers, or the
                             volume all of its snapshot ids
  @0 3 err no-space need 0   the volume has no room for this change
  @0 3 err device 0          file 0 couldn't be written, and the run halts: from
                             here on it changes and writes nothing
  @0 4 err halted 0          it has halted; `ls` and `stat` go on
  @0 3 err spent             one of the volume's numbers is used up
  @0 3 err no-memory         out of memory
The last line is `end commits N synced M`: the run made N commits, and M of them
are known to be on the disks.

exit status:
  0  the script ran, and all its commits are on the disks
  1  error 1 usage: other arguments than `run -- IMAGE..`
  2  error 2 line L bad-verb: line L has none of the verbs above
     error 2 line L bad-args: it has too few words, or too many, or one where
     `ro` belongs
     error 2 line L bad-path: it has no path, or no name, where one belongs
     error 2 line L bad-client: it begins with @, and not with @0 to @15
     error 2 too-long: the script has more than 16 MiB
  3  mount refused 1: a file has no superblock, so it isn't formatted
     mount refused 2: a superblock has another version
     mount refused 3: the files aren't those of one volume in their order
     mount refused 4: a superblock has a number out of its range, or a file is
     shorter than it says
     mount refused 5: the journal has no whole entry, or no session is named, or
     no number is left for another
     mount refused 6 seq S: entry S of the journal is needed, and is on no file
     mount refused 7 at D:B: a node of a btree, in block B of file D, is damaged
     or couldn't be read, and no other file makes it up
  4  error 4 source: standard input couldn't be read
  5  standard output couldn't be written
  6  error 6 device D: file D, from 0, isn't there, is in use, or can't be read
     and written
     without that line: the last changes couldn't be written, as the replies
     or M in the last line say
  7  error 7 memory: out of memory; after the replies without that line

example:
  touch a.img b.img
  bvol format --id 00000000-0000-4000-8000-000000000001 --blocks 1024 \\
    --meta-replicas 2 -- a.img b.img
  printf 'mkfile main:/a\\nsnap main old ro\\nrename main:/a main:/b\\nls main:/\\n' \\
    | bvol run -- a.img b.img
  printf 'subs\\nls old:/\\nunlink old:/a\\n' | bvol run -- a.img b.img
prints
  formatted 00000000-0000-4000-8000-000000000001 devices 2 blocks 1024 journal 256
  @0 1 ok
  @0 2 ok
  @0 3 ok
  @0 4 list b
  end commits 3 synced 3
  @0 1 subs rw:main ro:old
  @0 2 list a
  @0 3 err read-only
  end commits 0 synced 0
";
