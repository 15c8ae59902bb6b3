//! Relations of two words.

/// A comparison of two words of one size: equal or not, and the orders, unsigned and signed.
#[derive(Clone, Copy, Debug, PartialEq, Eq, Drop)]
pub enum Rel {
    Eq,
    Neq,
    ULt,
    ULe,
    UGt,
    UGe,
    SLt,
    SLe,
    SGt,
    SGe,
}
