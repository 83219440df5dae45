//! What a script means and what its replies look like: reading the lines of a script, and writing the lines that
//! answer them.
//!
//! LF ends a line, and the last line may lack it. A line that is empty or begins with `#` is skipped, but counted. One
//! space stands between two words. `@C`, with C from 0 to 15, may come first and says whose line it is; without it it is
//! client 0's. Then come a verb and its arguments:
//!
//! | line | what it asks for |
//! |---|---|
//! | `mkdir P`, `mkfile P`, `unlink P`, `rmdir P`, `ls P`, `stat P`, `fsync P` | the operation on a path |
//! | `write P OFFSET HEX` | 1 to 65,536 bytes are written |
//! | `read P OFFSET LEN` | at most LEN bytes are read; LEN is 0 to 65,536 |
//! | `trunc P SIZE` | the file gets this size |
//! | `link P Q`, `rename P Q` | from P to Q |
//! | `subvol N`, `delsub N` | the operation on a subvolume |
//! | `snap N M`, `snap N M ro` | a copy M of N, which with `ro` may only be read |
//! | `subs`, `sync`, `usage` | |
//! | `sweep STEPS` | at most that many steps |
//! | `barrier` | what stands before it comes before what stands behind it |
//!
//! A number is decimal digits without a leading zero, and below 2^64. In a name a byte from 33 to 126 other than `%` and `/`
//! or a byte above 127 stands for itself, and `%` with two hex digits for the byte that they write. A path is a
//! subvolume's name, `:/`, and names with `/` between them.
//!
//! Of the verbs the program runs `mkfile`, `ls`, `sync` and `barrier` today; each other one is a fault of its line until it
//! runs it.
//!
//! The fault of a line is that of its client, else of its verb, else that its words are too few or too many, else that of the
//! first argument that is none.
//!
//! The line of a reply is `@CLIENT LINE TEXT`, with the number of the line that it answers. In the names of a listing each byte
//! from 33 to 126 other than `%` is printed as it is, and each other one as `%` and two upper-case hex digits.
#![tactic(auto)]

mod arguments;
mod client;
mod cuts;
mod laws;
mod names;
mod operations;
mod reading;
mod verb;
mod words;
mod writing;

pub use client::read_client;
pub use cuts::{cut_at, is_line_skipped};
pub use laws::{
    clients_are_below_16, one_fault, one_operation, one_reading, one_script, printed_names_are_read,
};
pub use operations::read_operation;
pub use reading::{Line, LineFault, ReadFault, Script, ScriptFault, read_script};
pub use verb::Verb;
pub use words::{read_bytes, read_path};
pub use writing::{end_line, fault_word, reply_line};
