//! What the arguments on the command line ask for.
//!
//! The arguments are a command and its options. `run` and `info` have no options. `format` has `--id U` and `--blocks N`, which it needs,
//! and `--journal J`, `--data-replicas R` and `--meta-replicas M`, which it may leave out. An option is `--NAME VALUE` or
//! `--NAME=VALUE`, in any order, each at most once, and its name is never shortened. A VALUE that is an argument of its own
//! doesn't begin with `-`. A number is decimal digits without a sign or a leading zero, at most 2^64 - 1, and the id has
//! any form that the crate `uuid` reads.
//!
//! `clap` reads the arguments. What they mean is said without it, in `specs/Options.antt` and `specs/Requests.antt`.
#![tactic(auto)]

mod format;
mod id;
mod number;
mod request;

pub use id::id_text;
pub use number::read_number;
pub use request::{FormatRequest, Request, WordsFault, read_words};
