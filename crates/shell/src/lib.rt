//! The top call of the program: from the arguments and the script that come in to the lines that go out.
#![tactic(auto)]

mod early_end;
mod ended;
mod formatting;
mod info;
mod mounted;
mod page;
mod phases;
mod prepare;
mod run;
mod shorts;
mod tally;
mod task;

pub use early_end::{EarlyEnd, MountRefusal};
pub use ended::Ended;
pub use run::{run_task, run_words};
pub use shorts::Shorts;
pub use task::{Task, read_task};
