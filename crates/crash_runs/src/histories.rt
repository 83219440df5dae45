//! Histories as letters, and acknowledgements as numbers.

use forest_ops::{Ack, Cause, Entry, Op, Reply};

/// Whether the history is the one of these letters, two for each entry. The first is the operation: `m` makes a file, `l` lists, and
/// `s` syncs. The second is the reply: `k` for Okay, `e` for a name that exists, `b` for a bad path, `d` and `D` for device 0 and 1
/// that failed, `h` and `H` for a session that has halted since, and the number of names of a listing or of commits of a sync.
pub fn is_history(entries: &[Entry], letters: &[u8]) -> bool {
    let mut left = letters.iter();
    for entry in entries {
        if left.next().copied() != Some(letter_of(&entry.op))
            || left.next().copied() != Some(letter(&entry.reply))
        {
            return false;
        }
    }
    left.next().is_none()
}

fn letter_of(op: &Op) -> u8 {
    match op {
        Op::Mkfile { .. } => b'm',
        Op::Ls { .. } => b'l',
        Op::Sync => b's',
        _ => b'?',
    }
}

fn letter(reply: &Reply) -> u8 {
    match reply {
        Reply::Okay => b'k',
        Reply::Refused(Cause::Exists) => b'e',
        Reply::Refused(Cause::BadPath) => b'b',
        Reply::DeviceFault(0) => b'd',
        Reply::DeviceFault(1) => b'D',
        Reply::Halted { dev: 0, .. } => b'h',
        Reply::Halted { dev: 1, .. } => b'H',
        Reply::List(names) if names.len() < 10 => b'0' + names.len() as u8,
        Reply::Synced(count) if *count < 10 => b'0' + *count as u8,
        _ => b'?',
    }
}

/// Whether these acknowledgements are of just these numbers of commits, in this order, at moments that don't fall.
pub fn has_acks(acks: &[Ack], counts: &[u64]) -> bool {
    let mut moment = 0;
    let mut left = acks.iter();
    for count in counts {
        match left.next() {
            Some(ack) if ack.commits == *count && ack.moment >= moment => moment = ack.moment,
            _ => return false,
        }
    }
    left.next().is_none()
}
