// Rows with names and values of their own.
use name_pool::NamePool;
use tree_model::Row;
use value_heap::ValueHeap;

/// Sibling trees, or attributes, as rows with their own names and values: the name numbers of the rows are in use in
/// `names`, and their references lie inside `heap`.
#[derive(Drop)]
pub struct Part {
    pub names: NamePool,
    pub heap: ValueHeap,
    pub rows: Vec<Row>,
}
