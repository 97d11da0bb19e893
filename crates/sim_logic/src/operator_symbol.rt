//! The relational and binary logical operators of expressions (IEEE 1076-2008, 9.2).

/// A relational operator (9.2.3).
#[derive(Clone, Copy, Debug, PartialEq, Eq)]
pub enum Relational {
    Equal,
    Unequal,
}

/// A binary logical operator (9.2.2).
#[derive(Clone, Copy, Debug, PartialEq, Eq)]
pub enum Logical {
    And,
    Or,
    Xor,
    Xnor,
    Nand,
    Nor,
}
