//! What lies under the tables: frames of items that are counted, and a meter of the work that is done.
#![tactic(auto)]

mod fills;
mod frame;
mod meter;
mod pool;

pub use meter::Meter;
pub use pool::{FrameNo, NoMemory, Pool};

#[cfg(test)]
mod tests;
