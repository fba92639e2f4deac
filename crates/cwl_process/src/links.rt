//! How inputs of steps and outputs of workflows are linked to what others give.
use plain_data::{Items, Text};

/// What a link leads to.
#[derive(Drop)]
pub struct Source {
    /// The step that gives the value, or none for an input of the workflow.
    pub step: Option<Text>,
    /// The step's output, or the workflow's input.
    pub name: Text,
}

/// What a parameter is linked to.
#[derive(Drop)]
pub struct Links {
    /// In the order of the document; none where the document names no source, which differs from an empty list.
    pub sources: Option<Items<Source>>,
    /// How the values of several links become one.
    pub merge: Option<Merge>,
    /// Which of the values are taken.
    pub pick: Option<Pick>,
}

/// How the values of several links become one (CWL v1.2, Workflow, `LinkMergeMethod`).
#[derive(Clone, Copy, Debug, Drop, PartialEq, Eq)]
pub enum Merge {
    /// `merge_nested`: a list with one item for each link.
    Nested,
    /// `merge_flattened`: one list; in place of a list its items.
    Flattened,
}

/// Which of several values are taken (CWL v1.2, Workflow, `PickValueMethod`).
#[derive(Clone, Copy, Debug, Drop, PartialEq, Eq)]
pub enum Pick {
    /// `first_non_null`: the first that is not null.
    FirstNonNull,
    /// `the_only_non_null`: the one that is not null.
    TheOnlyNonNull,
    /// `all_non_null`: a list of those that are not null.
    AllNonNull,
}
