//! What an expression is made of.

/// The number of a variable.
pub type VariableNumber = u8;

/// Up to four letters, by their codes: those before `count` are meant. A plain record of fixed
/// size: a count above four may be given, and is refused.
#[derive(Clone, Copy)]
pub struct Letters {
    pub count: u8,
    pub codes: [u8; 4],
}

/// An operator between two values.
#[derive(Clone, Copy)]
pub enum BinaryOperator {
    Add,
    Subtract,
    Multiply,
    Divide,
}

/// An operator before one value.
#[derive(Clone, Copy)]
pub enum UnaryOperator {
    Plus,
    Minus,
}

/// One node of an expression in postfix order. A function goes by its code, a number, since one
/// that no function has may be given, and is refused.
#[derive(Clone, Copy)]
pub enum Node {
    Number(f64),
    Name {
        variable: VariableNumber,
        letters: Letters,
    },
    Binary(BinaryOperator),
    Unary(UnaryOperator),
    Call {
        code: u8,
        arguments: u8,
    },
}
