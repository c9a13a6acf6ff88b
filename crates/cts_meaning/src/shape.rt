use crate::QueryForm;

/// What a node of a query's JSON is to be.
#[derive(Clone, Copy, Debug)]
pub enum Shape {
    /// An object of one member, which is named after a form.
    Query,
    /// The argument object of a form.
    Argument(QueryForm),
    /// An array of queries.
    Queries,
    /// A string, or an array of strings.
    Texts,
    Text,
    /// A scalar, or an array of scalars.
    Scalars,
    Scalar,
    /// A number or a string, or an array of these.
    Comparables,
    Comparable,
    /// A sign by which range queries compare.
    Compare,
    Distance,
    Depth,
    /// An array of options.
    Options(OptionKind),
    Option(OptionKind),
}

/// Which options a query takes.
#[derive(Clone, Copy, Debug, PartialEq, Eq)]
pub enum OptionKind {
    /// Those for case.
    Word,
    /// Those for case, and `exact`.
    Value,
    /// Those for order.
    Near,
}
