use crate::steps::{Start, Step, other_step};
use crate::trials::{EMPTY_RUN, Trial};
use crate::volumes::MOUNTING;
use std::test::Fail;

// Each sync says how many commits of the run are durable, and costs the write of an entry and a flush behind it, and the first of a run
// a flush before it; where all are durable it costs nothing. The next run counts its own commits alone. It needs two entries, and so
// reads one more of them as it mends the journal.
static STEPS: [Step; 2] = [
    Step::Run(Trial {
        script: b"sync\nmkfile main:/a\nsync\nsync\nmkfile main:/b\nls main:/\n",
        status: Some(0),
        printed: Some(
            b"@0 1 ok 0\n@0 2 ok\n@0 3 ok 1\n@0 4 ok 1\n@0 5 ok\n@0 6 list a b\nend commits 2 synced 2\n",
        ),
        history: Some(b"s0mks1s1mkl2s2"),
        acks: Some(&[0, 1, 1, 2]),
        calls: Some(MOUNTING + 5),
        ..EMPTY_RUN
    }),
    Step::Run(Trial {
        script: b"mkfile main:/a\nmkfile main:/c\nsync\nls main:/\n",
        status: Some(0),
        printed: Some(
            b"@0 1 err exists\n@0 2 ok\n@0 3 ok 1\n@0 4 list a b c\nend commits 1 synced 1\n",
        ),
        history: Some(b"memks1l3s1"),
        acks: Some(&[1, 1]),
        calls: Some(MOUNTING + 4),
        ..EMPTY_RUN
    }),
];

#[test]
fn each_sync_is_acknowledged(rt: HostRuntime) -> Result<(), Fail> {
    assert!(rt; other_step(rt.alloc(), Start::One, &STEPS)? == None);
    Ok(())
}
