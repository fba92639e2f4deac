use plain_data::Items;

/// How the items of several scattered lists make jobs (CWL v1.2, Workflow, "ScatterMethod"). One list alone has the
/// same jobs, gathered alike, under each of them.
#[derive(Clone, Copy, Debug, PartialEq, Eq)]
pub enum Method {
    /// The first items together, the second items together, and so on: one list.
    Dotproduct,
    /// Each item of a list with each of the others: lists in lists, the first input outermost.
    NestedCrossproduct,
    /// Each item of a list with each of the others: one list.
    FlatCrossproduct,
}

/// What decides the tuples of a scattered step and the form of what is gathered.
#[derive(Debug, Drop, PartialEq)]
pub struct Shape {
    pub method: Method,
    /// How many items each scattered input has, in the order in which the step names them.
    pub lengths: Items<usize>,
}
