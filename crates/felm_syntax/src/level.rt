//! Levels of operators.

/// The kinds of phrases that are chains: parts with operators between them, which group to the left.
#[derive(Clone, Copy, Debug, PartialEq, Eq)]
pub enum Level {
    /// Conjunctions joined by `||`.
    Or,
    /// Comparisons joined by `&&`.
    And,
    /// Products joined by `+` and `-`.
    Sum,
    /// Operands joined by `*`, `//` and `%`.
    Product,
}
