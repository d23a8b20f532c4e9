//! The sorts of nodes.
ghost use Rattle.std.specs.Prelude.{◌≡◌};
ghost use Rattle.circuit_table.specs.Sorts.{same_sort, are_one, is_arrays, element_of, is_width_up_to};

use circuit_nodes::SortOf;

/// Whether two sorts are one.
fn same_sort(a: SortOf, b: SortOf) -> bool
    ensures { result ≡ same_sort a b }
{
    match (a, b) {
        (SortOf::Words(a), SortOf::Words(b)) => a == b,
        (SortOf::Arrays(i, a), SortOf::Arrays(j, b)) => i == j && a == b,
        _ => false,
    }
}

/// Whether two sorts stand and are one.
pub fn are_one(a: Option<SortOf>, b: Option<SortOf>) -> bool
    ensures { result ≡ are_one a b }
{
    match (a, b) {
        (Some(a), Some(b)) => same_sort(a, b),
        _ => false,
    }
}

/// Whether a sort is one of arrays.
pub fn is_arrays(sort: SortOf) -> bool
    ensures { result ≡ is_arrays sort }
{
    matches!(sort, SortOf::Arrays(_, _))
}

/// The sort of the words of arrays.
pub fn element_of(sort: SortOf) -> Option<SortOf>
    ensures { result ≡ element_of sort }
{
    match sort {
        SortOf::Arrays(_, width) => Some(SortOf::Words(width)),
        SortOf::Words(_) => None,
    }
}

/// Whether a width is 1 up to some number.
pub fn is_width_up_to(most: u8, width: u8) -> bool
    ensures { result ≡ is_width_up_to most width }
{
    1 <= width && width <= most
}
