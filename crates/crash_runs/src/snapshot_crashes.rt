//! Three sessions one after the other, each of which makes a snapshot and crashes in its only sync: the entry of its commits is left, or it is lost.

use crate::steps::{ALL_WRITTEN, NONE_WRITTEN, Start, Step, other_row};
use crate::trials::{EMPTY_RUN, Trial};
use crate::volumes::MOUNTING;
use dev_model::Pick;
use std::test::Fail;

// How many calls there are before the first line where two entries are needed: each is read once more on both devices.
const MOUNTING_WITH_TWO: u64 = 2 * MOUNTING + 2;

// Both devices are flushed, the entry is written on both, and both are flushed. The first write fails, or the last flush.
const LOSE: Step<'static> = Step::Fail {
    call: 2 * MOUNTING + 2,
    stays: true,
};

const KEEP: Step<'static> = Step::Fail {
    call: 2 * MOUNTING + 5,
    stays: true,
};

// The same where two entries are needed.
const LOSE_THIRD: Step<'static> = Step::Fail {
    call: MOUNTING_WITH_TWO + 2,
    stays: true,
};

const KEEP_THIRD: Step<'static> = Step::Fail {
    call: MOUNTING_WITH_TWO + 5,
    stays: true,
};

const TORN: Step<'static> = Step::Restart(Pick::Torn);

// A run whose sync fails.
const CRASHED: Trial<'static> = Trial {
    status: Some(6),
    printed: Some(b"@0 1 ok\n@0 2 ok\n@0 3 ok\nend commits 3 synced 0\n"),
    acks: Some(&[]),
    ..EMPTY_RUN
};

const FIRST: Step<'static> = Step::Run(Trial {
    script: b"mkfile main:/f1\nsnap main s1 ro\nmkfile main:/g1\n",
    ..CRASHED
});

const SECOND: Step<'static> = Step::Run(Trial {
    script: b"mkfile main:/f2\nsnap main s2 ro\nmkfile main:/g2\n",
    ..CRASHED
});

const THIRD: Step<'static> = Step::Run(Trial {
    script: b"mkfile main:/f3\nsnap main s3 ro\nmkfile main:/g3\n",
    ..CRASHED
});

// What the next run finds. Each session that is left has drawn two numbers, from 2 on.
const LOOKING: Trial<'static> = Trial {
    script: b"subs\nls main:/\nls s1:/\nls s2:/\nls s3:/\nunlink s2:/f2\nmkfile main:/z\nstat main:/z\n",
    status: Some(0),
    acks: Some(&[1]),
    ..EMPTY_RUN
};

const HAS_SECOND: Step<'static> = Step::Run(Trial {
    printed: Some(
        b"@0 1 subs rw:main ro:s2\n@0 2 list f2 g2\n@0 3 err no-subvolume\n@0 4 list f2\n@0 5 err no-subvolume\n@0 6 err read-only\n@0 7 ok\n@0 8 file 4 0 1\nend commits 1 synced 1\n",
    ),
    ..LOOKING
});

const HAS_FIRST_AND_THIRD: Step<'static> = Step::Run(Trial {
    printed: Some(
        b"@0 1 subs rw:main ro:s1 ro:s3\n@0 2 list f1 f3 g1 g3\n@0 3 list f1\n@0 4 err no-subvolume\n@0 5 list f1 f3 g1\n@0 6 err no-subvolume\n@0 7 ok\n@0 8 file 6 0 1\nend commits 1 synced 1\n",
    ),
    ..LOOKING
});

const HAS_FIRST_TWO: Step<'static> = Step::Run(Trial {
    printed: Some(
        b"@0 1 subs rw:main ro:s1 ro:s2\n@0 2 list f1 f2 g1 g2\n@0 3 list f1\n@0 4 list f1 f2 g1\n@0 5 err no-subvolume\n@0 6 err read-only\n@0 7 ok\n@0 8 file 6 0 1\nend commits 1 synced 1\n",
    ),
    ..LOOKING
});

const HAS_ALL: Step<'static> = Step::Run(Trial {
    printed: Some(
        b"@0 1 subs rw:main ro:s1 ro:s2 ro:s3\n@0 2 list f1 f2 f3 g1 g2 g3\n@0 3 list f1\n@0 4 list f1 f2 g1\n@0 5 list f1 f2 f3 g1 g2\n@0 6 err read-only\n@0 7 ok\n@0 8 file 8 0 1\nend commits 1 synced 1\n",
    ),
    ..LOOKING
});

// Three sessions, each with where it fails and how the devices are restarted behind it, and what is found then.
static THREE_DEEP: [&[Step]; 4] = [
    &[
        LOSE,
        FIRST,
        NONE_WRITTEN,
        KEEP,
        SECOND,
        ALL_WRITTEN,
        LOSE,
        THIRD,
        TORN,
        HAS_SECOND,
    ],
    &[
        KEEP,
        FIRST,
        ALL_WRITTEN,
        LOSE,
        SECOND,
        TORN,
        KEEP,
        THIRD,
        ALL_WRITTEN,
        HAS_FIRST_AND_THIRD,
    ],
    &[
        KEEP,
        FIRST,
        ALL_WRITTEN,
        KEEP,
        SECOND,
        ALL_WRITTEN,
        LOSE_THIRD,
        THIRD,
        NONE_WRITTEN,
        HAS_FIRST_TWO,
    ],
    &[
        KEEP,
        FIRST,
        ALL_WRITTEN,
        KEEP,
        SECOND,
        ALL_WRITTEN,
        KEEP_THIRD,
        THIRD,
        ALL_WRITTEN,
        HAS_ALL,
    ],
];

#[test]
fn snapshots_are_left_of_three_sessions_that_crash(rt: HostRuntime) -> Result<(), Fail> {
    assert!(rt; other_row(rt.alloc(), Start::Two, &THREE_DEEP)? == None);
    Ok(())
}
