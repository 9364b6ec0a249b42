// Rows that stand for trees.
use frame_pool::Pool;
use name_pool::NamePool;
use node_table::NodeTable;
use tree_model::{Axis, Row, Test};

/// The rows of trees, which walks over them borrow, with their names.
#[derive(Clone, Copy)]
pub struct Trees<'t> {
    pub table: &'t NodeTable,
    pub pool: &'t Pool<Row>,
    pub names: &'t NamePool,
}

// A step, with its test borrowed.
#[derive(Clone, Copy)]
pub(crate) struct Step<'s> {
    pub axis: Axis,
    pub test: &'s Test,
}
