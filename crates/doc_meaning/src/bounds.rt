/// Two tests of a query by what an index knows. Of a query that keeps its rules: where `sure` is true the document
/// satisfies it, and where the document satisfies it `maybe` is true.
#[derive(Clone, Copy, Debug)]
pub struct Bounds {
    pub sure: bool,
    pub maybe: bool,
}
