//! What holds of all lengths: each law is the contract of a function that does nothing.

ghost use Rattle.scatter_shape.specs.Laws.{AnyOrderOfEnds, AreLimited, EachValueAtItsTuple, TuplesAreAllBelow};

/// A crossproduct's list has every tuple below the lengths exactly once and nothing else, and the list rises
/// by the tuples' first differing entry.
pub fn tuples_are_all_below()
    ensures { TuplesAreAllBelow }
{}

/// Where each tuple has its value, what is gathered is the shape with that value at each tuple.
pub fn each_value_at_its_tuple()
    ensures { EachValueAtItsTuple }
{}

/// For every order in which values are put under their tuples' numbers, each tuple has its own in the end.
pub fn any_order_of_ends()
    ensures { AnyOrderOfEnds }
{}

/// A scatter has at most 16,384 tuples.
pub fn tuples_are_limited()
    ensures { AreLimited }
{}
