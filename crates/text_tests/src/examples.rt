//! The examples of docs/SEMANTICS.md, over a forest without devices.

use crate::reading::said;
use forest_ops::{Cause, Forest, Op, Reply};
use script_text::{ReadFault, fault_word, is_line_skipped, read_client, reply_line};
use std::alloc::{AllocError, Global};
use vol_types::{Bytes, Duplicate};

/// The examples of docs/SEMANTICS.md: scripts, and the lines that answer them.
static EXAMPLES: [(&str, &str); 20] = [
    (
        "\
# two clients

mkfile main:/a%20b
@3 mkfile main:/c
barrier
@3 stat main:/c
ls main:/
",
        "\
@0 3 ok
@3 4 ok
@3 6 file 844424930131969 0 1
@0 7 list a%20b c
",
    ),
    (
        "\
mkdir main:/d
mkdir main:/d/e
mkdir main:/d
mkdir main:/x/y
ls main:/d
",
        "\
@0 1 ok
@0 2 ok
@0 3 err exists
@0 4 err not-found
@0 5 list e/
",
    ),
    (
        "\
mkfile main:/a
mkfile main:/a
mkfile main:/a/b
mkfile main:/..
stat main:/a
",
        "\
@0 1 ok
@0 2 err exists
@0 3 err not-dir
@0 4 err bad-path
@0 5 file 2 0 1
",
    ),
    (
        "\
mkfile main:/a
write main:/a 0 6869
read main:/a 0 10
write main:/a 4 6A
read main:/a 0 10
write main:/a 16777216 61
",
        "\
@0 1 ok
@0 2 ok
@0 3 data 6869
@0 4 ok
@0 5 data 686900006a
@0 6 err too-big
",
    ),
    (
        "\
mkfile main:/a
trunc main:/a 16777216
trunc main:/a 0
trunc main:/a 16777217
",
        "\
@0 1 ok
@0 2 ok
@0 3 more 15728640
@0 4 err too-big
",
    ),
    (
        "\
mkfile main:/a
write main:/a 0 6869
write main:/a 4096 6a
snap main s1
trunc s1:/a 1
trunc s1:/a 8192
read s1:/a 0 2
read s1:/a 4095 3
read main:/a 4095 3
read main:/a 4097 3
",
        "\
@0 1 ok
@0 2 ok
@0 3 ok
@0 4 ok
@0 5 ok
@0 6 ok
@0 7 data 6800
@0 8 data 000000
@0 9 data 006a
@0 10 data
",
    ),
    (
        "\
mkdir main:/d
mkfile main:/b
mkfile main:/%c3%a9
ls main:/
ls main:/d
ls main:/b
",
        "\
@0 1 ok
@0 2 ok
@0 3 ok
@0 4 list b d/ %C3%A9
@0 5 list
@0 6 err not-dir
",
    ),
    (
        "\
mkfile main:/a
write main:/a 0 6869
mkdir main:/d
stat main:/a
stat main:/d
stat main:/
",
        "\
@0 1 ok
@0 2 ok
@0 3 ok
@0 4 file 2 2 1
@0 5 dir 3 0
@0 6 dir 1 2
",
    ),
    (
        "\
mkfile main:/a
link main:/a main:/b
stat main:/b
unlink main:/a
stat main:/b
snap main s1 ro
write s1:/b 0 61
subs
",
        "\
@0 1 ok
@0 2 ok
@0 3 file 2 0 2
@0 4 ok
@0 5 file 2 0 1
@0 6 ok
@0 7 err read-only
@0 8 subs rw:main ro:s1
",
    ),
    (
        "\
mkfile main:/a
snap main s1
unlink main:/a
ls s1:/
read main:/a 0 1
",
        "\
@0 1 ok
@0 2 ok
@0 3 ok
@0 4 list a
@0 5 err not-found
",
    ),
    (
        "\
mkdir main:/d
mkdir main:/d/e
rmdir main:/d
rmdir main:/d/e
rmdir main:/d
rmdir main:/
",
        "\
@0 1 ok
@0 2 ok
@0 3 err not-empty
@0 4 ok
@0 5 ok
@0 6 err loop
",
    ),
    (
        "\
mkdir main:/d
mkdir main:/d/e
rename main:/d main:/d/e/f
rename main:/d main:/d
sync
rename main:/d/e main:/e
ls main:/
",
        "\
@0 1 ok
@0 2 ok
@0 3 err loop
@0 4 ok
@0 5 ok 2
@0 6 ok
@0 7 list d/ e/
",
    ),
    (
        "\
subvol s
stat s:/
mkfile s:/a
ls main:/
link s:/a main:/a
subvol main
",
        "\
@0 1 ok
@0 2 dir 2 0
@0 3 ok
@0 4 list
@0 5 err cross
@0 6 err exists
",
    ),
    (
        "\
mkfile main:/a
write main:/a 0 6869
read main:/a 0 10
snap main s1
write main:/a 0 4a
read main:/a 0 10
read s1:/a 0 10
",
        "\
@0 1 ok
@0 2 ok
@0 3 data 6869
@0 4 ok
@0 5 ok
@0 6 data 4a69
@0 7 data 6869
",
    ),
    (
        "\
mkfile main:/a
snap main s1
delsub main
ls main:/
ls s1:/
delsub main
",
        "\
@0 1 ok
@0 2 ok
@0 3 ok
@0 4 err no-subvolume
@0 5 list a
@0 6 err no-subvolume
",
    ),
    (
        "\
subvol s
snap s r ro
subs
",
        "\
@0 1 ok
@0 2 ok
@0 3 subs rw:main ro:r rw:s
",
    ),
    (
        "\
mkfile main:/a
mkfile main:/b
mkfile main:/c
sync
mkfile main:/d
",
        "\
@0 1 ok
@0 2 ok
@0 3 ok
@0 4 ok 3
@0 5 ok
",
    ),
    (
        "\
mkfile main:/a
trunc main:/a 0
fsync main:/a
fsync main:/b
",
        "\
@0 1 ok
@0 2 ok
@0 3 ok 1
@0 4 err not-found
",
    ),
    (
        "\
mkfile main:/a
write main:/a 0 6869
snap main s1
delsub main
sweep 1
read s1:/a 0 10
sweep 100
read s1:/a 0 10
",
        "\
@0 1 ok
@0 2 ok
@0 3 ok
@0 4 ok
@0 5 ok
@0 6 data 6869
@0 7 ok
@0 8 data 6869
",
    ),
    (
        "\
usage
",
        "\
@0 1 usage 0
",
    ),
];

/// Lines of docs/SEMANTICS.md that can't be run, and the words for their faults.
static BAD_LINES: [(&str, &str); 13] = [
    ("@16 sync", "bad-client"),
    ("@01 frob", "bad-client"),
    ("@3", "bad-verb"),
    ("frob main:/a", "bad-verb"),
    (" sync", "bad-verb"),
    ("sync ", "bad-args"),
    ("read main 0", "bad-args"),
    ("read main 0 x", "bad-path"),
    ("read main:/a 01 1", "bad-args"),
    ("write main:/a 0 616", "bad-args"),
    ("mkfile main:/a%2", "bad-path"),
    ("delsub a/b", "bad-path"),
    ("snap main s1 rw", "bad-args"),
];

/// A session over a forest without devices.
#[derive(Drop)]
pub(crate) struct Session {
    pub forest: Forest,
    /// How many commits it has made.
    pub commits: u64,
    /// The lines of its replies.
    pub answered: Bytes,
}

impl Session {
    /// A session over a forest.
    pub fn over(alloc: Global, forest: Forest) -> Self {
        Session {
            forest,
            commits: 0,
            answered: Bytes::new(alloc),
        }
    }

    // Runs the line of this number.
    fn run(&mut self, alloc: Global, number: u32, line: &[u8]) -> Result<(), ReadFault> {
        let (client, op) = said_by(alloc, line)?;
        let answered = self.answer_line(alloc, client, number, op.as_ref());
        // By a call: at the end of the block it takes a minute to prove.
        drop(op);
        answered?;
        Ok(())
    }

    // Answers what a line of a client says.
    fn answer_line(
        &mut self,
        alloc: Global,
        client: u8,
        number: u32,
        op: Option<&Op>,
    ) -> Result<(), AllocError> {
        match op {
            Some(op) => self.answer(alloc, client, number, op),
            None => Ok(()),
        }
    }

    // Answers a copy of an operation of a client.
    fn answer(
        &mut self,
        alloc: Global,
        client: u8,
        number: u32,
        op: &Op,
    ) -> Result<(), AllocError> {
        let op = op.copy(alloc)?;
        let answered = self.answer_copy(alloc, client, number, &op);
        drop(op);
        answered
    }

    fn answer_copy(
        &mut self,
        alloc: Global,
        client: u8,
        number: u32,
        op: &Op,
    ) -> Result<(), AllocError> {
        let (reply, is_commit) = applied(&mut self.forest, client, op)?;
        if is_commit {
            self.commits = self.commits.saturating_add(1);
        }
        let reply = with_count(self.commits, reply);
        let put = reply_line(alloc, &mut self.answered, client, number, &reply);
        drop(reply);
        put
    }

    // Runs the lines of a script.
    pub fn run_all(&mut self, alloc: Global, script: &str) -> Result<(), ReadFault> {
        let mut number: u32 = 0;
        for line in script.split('\n') {
            number = number.saturating_add(1);
            if !is_line_skipped(line.as_bytes()) {
                self.run(alloc, number, line.as_bytes())?;
            }
        }
        Ok(())
    }
}

// The cause of a refusal.
fn cause_of(reply: &Reply) -> Option<Cause> {
    match reply {
        Reply::Refused(cause) => Some(*cause),
        _ => None,
    }
}

// The reply to an operation of a client, and whether it is a commit. It fails where a refusal wasn't told before.
fn applied(forest: &mut Forest, client: u8, op: &Op) -> Result<(Reply, bool), AllocError> {
    // Whoever was read is below 16 already.
    let client = client % 16;
    let refusal = forest.refusal(client, op);
    let may_commit = forest.commits(op, &Reply::Okay);
    let reply = forest.apply(client, op)?;
    if cause_of(&reply) != refusal {
        drop(reply);
        return Err(AllocError);
    }
    let is_commit = may_commit && reply.is_done();
    Ok((reply, is_commit))
}

// A reply with the number of commits that a forest doesn't know.
fn with_count(commits: u64, reply: Reply) -> Reply {
    match reply {
        Reply::Synced(_) => Reply::Synced(commits),
        reply => reply,
    }
}

// Whose a line is and what it says, also where the program doesn't run its verb.
fn said_by(alloc: Global, line: &[u8]) -> Result<(u8, Option<Op>), ReadFault> {
    let (client, rest) = read_client(line)?;
    let op = said(alloc, rest.unwrap_or(b"".as_slice()))?;
    Ok((client, op))
}

// Whether a script is answered so in a session.
pub(crate) fn is_answered_in(
    session: &mut Session,
    alloc: Global,
    script: &str,
    replies: &str,
) -> bool {
    session.answered.truncate(0);
    session.run_all(alloc, script).is_ok() && session.answered.as_slice() == replies.as_bytes()
}

// Whether a script is answered so.
pub(crate) fn is_answered(alloc: Global, script: &str, replies: &str) -> bool {
    match Forest::fresh(alloc) {
        Ok(forest) => {
            let mut session = Session::over(alloc, forest);
            let answered = is_answered_in(&mut session, alloc, script, replies);
            drop(session);
            answered
        }
        Err(_) => false,
    }
}

// Whether one line of client 0 is done in a session.
pub(crate) fn is_done(session: &mut Session, alloc: Global, line: &[u8]) -> bool {
    session.answered.truncate(0);
    session.run(alloc, 1, line).is_ok() && session.answered.as_slice() == b"@0 1 ok\n".as_slice()
}

// The fault of a line.
fn fault_of(alloc: Global, line: &str) -> Option<ReadFault> {
    said_by(alloc, line.as_bytes()).err()
}

// Whether a line has the fault with this word.
fn is_faulty(alloc: Global, line: &str, word: &str) -> bool {
    match fault_of(alloc, line) {
        Some(ReadFault::Faulty(fault)) => fault_word(fault) == word,
        _ => false,
    }
}

#[test]
fn examples_are_answered(rt: HostRuntime) {
    let alloc = rt.alloc();
    for (script, replies) in EXAMPLES.iter() {
        assert!(rt; is_answered(alloc, script, replies), "at {script:?}");
    }
}

#[test]
fn bad_lines_have_their_faults(rt: HostRuntime) {
    let alloc = rt.alloc();
    for (line, word) in BAD_LINES.iter() {
        assert!(rt; is_faulty(alloc, line, word), "at {line:?}");
    }
}
