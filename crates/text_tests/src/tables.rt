//! Tables of scripts and the lines that answer them.

use crate::examples::is_answered;

/// Where two causes hold, the first one of the verb's row is told. Each script begins with a directory `d` that holds a
/// file, a file `f`, and a subvolume `ro` that may only be read.
static ORDER: [(&str, &str); 6] = [
    (
        "\
mkdir main:/d
mkfile main:/d/x
mkfile main:/f
snap main ro ro
mkdir none:/.
mkdir none:/x/y
mkdir ro:/x/y
mkdir ro:/f/y
mkdir ro:/f/y/z
mkdir ro:/f
mkdir ro:/
mkdir main:/f
mkdir main:/
mkfile none:/.
mkfile ro:/f
mkfile main:/d
",
        "\
@0 1 ok
@0 2 ok
@0 3 ok
@0 4 ok
@0 5 err bad-path
@0 6 err no-subvolume
@0 7 err not-found
@0 8 err not-dir
@0 9 err not-dir
@0 10 err read-only
@0 11 err read-only
@0 12 err exists
@0 13 err exists
@0 14 err bad-path
@0 15 err read-only
@0 16 err exists
",
    ),
    (
        "\
mkdir main:/d
mkfile main:/d/x
mkfile main:/f
snap main ro ro
write none:/. 0 61
write none:/x 0 61
write ro:/x 16777216 61
write ro:/d 16777216 61
write ro:/f 16777216 61
write main:/f 16777216 61
write main:/f 18446744073709551615 61
trunc none:/. 0
trunc ro:/d 16777217
trunc ro:/f 16777217
trunc main:/f 16777217
read none:/. 0 0
read none:/x 0 0
read ro:/f/x 0 0
read ro:/ 0 0
",
        "\
@0 1 ok
@0 2 ok
@0 3 ok
@0 4 ok
@0 5 err bad-path
@0 6 err no-subvolume
@0 7 err not-found
@0 8 err is-dir
@0 9 err read-only
@0 10 err too-big
@0 11 err too-big
@0 12 err bad-path
@0 13 err is-dir
@0 14 err read-only
@0 15 err too-big
@0 16 err bad-path
@0 17 err no-subvolume
@0 18 err not-dir
@0 19 err is-dir
",
    ),
    (
        "\
mkdir main:/d
mkfile main:/d/x
mkfile main:/f
snap main ro ro
ls none:/.
ls main:/x
ls ro:/f
stat none:/.
stat none:/x
stat main:/d/y
fsync none:/.
fsync main:/f/x
",
        "\
@0 1 ok
@0 2 ok
@0 3 ok
@0 4 ok
@0 5 err bad-path
@0 6 err not-found
@0 7 err not-dir
@0 8 err bad-path
@0 9 err no-subvolume
@0 10 err not-found
@0 11 err bad-path
@0 12 err not-dir
",
    ),
    (
        "\
mkdir main:/d
mkfile main:/d/x
mkfile main:/f
snap main ro ro
link main:/. none:/x
link none:/x main:/.
link none:/x main:/x
link none:/x none:/y
link ro:/x ro:/f/y
link ro:/d ro:/f/y
link ro:/f ro:/f/y
link ro:/f ro:/d
link main:/f main:/
unlink none:/.
unlink none:/x
unlink ro:/x
unlink ro:/d
unlink main:/
",
        "\
@0 1 ok
@0 2 ok
@0 3 ok
@0 4 ok
@0 5 err bad-path
@0 6 err bad-path
@0 7 err cross
@0 8 err no-subvolume
@0 9 err not-found
@0 10 err is-dir
@0 11 err not-dir
@0 12 err read-only
@0 13 err exists
@0 14 err bad-path
@0 15 err no-subvolume
@0 16 err not-found
@0 17 err is-dir
@0 18 err is-dir
",
    ),
    (
        "\
mkdir main:/d
mkfile main:/d/x
mkfile main:/f
snap main ro ro
rmdir none:/.
rmdir ro:/f
rmdir ro:/
rmdir main:/
rmdir main:/d
rename main:/. none:/x
rename none:/x main:/y
rename main:/x main:/f/y
rename ro:/d ro:/f/y
rename ro:/d ro:/d
rename main:/ main:/d
rename main:/d main:/d/x
rename main:/f main:/
rename main:/f main:/d
rename main:/ main:/
",
        "\
@0 1 ok
@0 2 ok
@0 3 ok
@0 4 ok
@0 5 err bad-path
@0 6 err not-dir
@0 7 err read-only
@0 8 err loop
@0 9 err not-empty
@0 10 err bad-path
@0 11 err cross
@0 12 err not-found
@0 13 err not-dir
@0 14 err read-only
@0 15 err loop
@0 16 err loop
@0 17 err exists
@0 18 err exists
@0 19 ok
",
    ),
    (
        "\
mkdir main:/d
mkfile main:/d/x
mkfile main:/f
snap main ro ro
subvol a:b
subvol ro
snap none a:b
snap none ro
snap ro main
delsub ..
delsub none
",
        "\
@0 1 ok
@0 2 ok
@0 3 ok
@0 4 ok
@0 5 err bad-path
@0 6 err exists
@0 7 err bad-path
@0 8 err no-subvolume
@0 9 err exists
@0 10 err bad-path
@0 11 err no-subvolume
",
    ),
];

/// Files, their bytes and their names, and truncations in steps.
static FILES: [(&str, &str); 2] = [
    (
        "\
mkfile main:/a
write main:/a 0 6869
write main:/a 4 6a
read main:/a 0 10
write main:/a 1 6f
read main:/a 0 3
trunc main:/a 1
trunc main:/a 3
read main:/a 0 10
read main:/a 3 10
read main:/a 18446744073709551615 65536
read main:/a 0 0
link main:/a main:/b
stat main:/b
write main:/b 2 21
read main:/a 1 2
unlink main:/a
stat main:/a
stat main:/b
unlink main:/b
ls main:/
mkfile main:/b
stat main:/b
",
        "\
@0 1 ok
@0 2 ok
@0 3 ok
@0 4 data 686900006a
@0 5 ok
@0 6 data 686f00
@0 7 ok
@0 8 ok
@0 9 data 680000
@0 10 data
@0 11 data
@0 12 data
@0 13 ok
@0 14 file 2 3 2
@0 15 ok
@0 16 data 0021
@0 17 ok
@0 18 err not-found
@0 19 file 2 3 1
@0 20 ok
@0 21 list
@0 22 ok
@0 23 file 3 0 1
",
    ),
    (
        "\
mkfile main:/b
stat main:/b
write main:/b 2457599 7a
trunc main:/b 5000
trunc main:/b 5000
trunc main:/b 5000
stat main:/b
trunc main:/b 1052673
trunc main:/b 1
trunc main:/b 1052672
trunc main:/b 1
write main:/b 16777215 7a
stat main:/b
",
        "\
@0 1 ok
@0 2 file 2 0 1
@0 3 ok
@0 4 more 1409024
@0 5 more 360448
@0 6 ok
@0 7 file 2 5000 1
@0 8 ok
@0 9 more 8192
@0 10 ok
@0 11 ok
@0 12 ok
@0 13 file 2 16777216 1
",
    ),
];

/// Directories, renames and subvolumes.
static TREES: (&str, &str) = (
    "\
mkdir main:/d
mkdir main:/d/e
rename main:/d main:/d/e/f
rename main:/d main:/d
mkfile main:/d/f
ls main:/d
stat main:/d
rename main:/d/f main:/d/e/g
rename main:/d/e main:/b
ls main:/
ls main:/b
stat main:/b/g
rename main:/b main:/d/b
rename main:/d/b/g main:/g
rmdir main:/d
rmdir main:/d/b
rmdir main:/d
rmdir main:/d
ls main:/
write main:/g 0 6f6e65
snap main s
write main:/g 0 74776f
read s:/g 0 3
snap s r ro
unlink s:/g
ls s:/
read r:/g 0 3
unlink r:/g
snap r w
link w:/g w:/h
mkfile w:/i
stat w:/i
ls w:/
ls r:/
subvol n
stat n:/
delsub main
ls main:/
subs
subvol main
stat main:/
sync
fsync w:/g
sweep 1
usage
",
    "\
@0 1 ok
@0 2 ok
@0 3 err loop
@0 4 ok
@0 5 ok
@0 6 list e/ f
@0 7 dir 2 2
@0 8 ok
@0 9 ok
@0 10 list b/ d/
@0 11 list g
@0 12 file 4 0 1
@0 13 ok
@0 14 ok
@0 15 err not-empty
@0 16 ok
@0 17 ok
@0 18 err not-found
@0 19 list g
@0 20 ok
@0 21 ok
@0 22 ok
@0 23 data 6f6e65
@0 24 ok
@0 25 ok
@0 26 list
@0 27 data 6f6e65
@0 28 err read-only
@0 29 ok
@0 30 ok
@0 31 ok
@0 32 file 5 0 1
@0 33 list g h i
@0 34 list g
@0 35 ok
@0 36 dir 6 0
@0 37 ok
@0 38 err no-subvolume
@0 39 subs rw:n ro:r rw:s rw:w
@0 40 ok
@0 41 dir 7 0
@0 42 ok 20
@0 43 ok 20
@0 44 ok
@0 45 usage 0
",
);

/// Each operation with the number of commits after it: what changes nothing is none.
static COMMITS: (&str, &str) = (
    "\
mkfile main:/f
sync
mkfile main:/f
sync
rename main:/f main:/f
sync
rename main:/f main:/g
sync
trunc main:/g 0
sync
trunc main:/g 5
sync
trunc main:/g 5
sync
write main:/g 0 68656c6c6f
sync
write main:/g 0 68656c6c6f
sync
write main:/g 2457599 7a
sync
trunc main:/g 5
sync
read main:/g 0 5
sync
fsync main:/g
sync
sweep 1
sync
snap main s ro
sync
unlink s:/g
sync
delsub s
sync
",
    "\
@0 1 ok
@0 2 ok 1
@0 3 err exists
@0 4 ok 1
@0 5 ok
@0 6 ok 1
@0 7 ok
@0 8 ok 2
@0 9 ok
@0 10 ok 2
@0 11 ok
@0 12 ok 3
@0 13 ok
@0 14 ok 3
@0 15 ok
@0 16 ok 4
@0 17 ok
@0 18 ok 5
@0 19 ok
@0 20 ok 6
@0 21 more 1409024
@0 22 ok 7
@0 23 data 68656c6c6f
@0 24 ok 7
@0 25 ok 7
@0 26 ok 7
@0 27 ok
@0 28 ok 7
@0 29 ok
@0 30 ok 8
@0 31 err read-only
@0 32 ok 8
@0 33 ok
@0 34 ok 9
",
);

#[test]
fn refusals_come_in_their_order(rt: HostRuntime) {
    let alloc = rt.alloc();
    for (script, replies) in ORDER.iter() {
        assert!(rt; is_answered(alloc, script, replies), "at {script:?}");
    }
}

#[test]
fn files_hold_what_was_put(rt: HostRuntime) {
    let alloc = rt.alloc();
    for (script, replies) in FILES.iter() {
        assert!(rt; is_answered(alloc, script, replies), "at {script:?}");
    }
}

#[test]
fn trees_change(rt: HostRuntime) {
    let (script, replies) = TREES;
    assert!(rt; is_answered(rt.alloc(), script, replies));
}

#[test]
fn idle_operations_are_no_commits(rt: HostRuntime) {
    let (script, replies) = COMMITS;
    assert!(rt; is_answered(rt.alloc(), script, replies));
}
