//! A session: a script of commands in, a reply to each out.
#![tactic(auto)]

mod answers;
mod content;
mod create;
mod kernel;
mod line_reader;
mod lines;
mod reply;
mod session;

pub use kernel::Kernel;
pub use reply::Reply;
pub use session::{Status, file_faults_count, one_cut, run};

#[cfg(test)]
mod tests;
