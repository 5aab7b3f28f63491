//! The rewriting rules by their numbers: those that a move names, those of each operation, and which undo each other.

use fx_expr::Expr;

/// `a + b` to `b + a`.
pub const EXCHANGE_TERMS: u8 = 1;
/// `(a + b) + c` to `a + (b + c)`.
pub const GROUP_TERMS_RIGHT: u8 = 2;
/// `a + (b + c)` to `(a + b) + c`.
pub const GROUP_TERMS_LEFT: u8 = 3;
/// `a * b` to `b * a`.
pub const EXCHANGE_FACTORS: u8 = 4;
/// `(a * b) * c` to `a * (b * c)`.
pub const GROUP_FACTORS_RIGHT: u8 = 5;
/// `a * (b * c)` to `(a * b) * c`.
pub const GROUP_FACTORS_LEFT: u8 = 6;
/// `a * c + b * c` to `(a + b) * c`.
pub const FACTOR_OF_SUM: u8 = 12;
/// `a * c - b * c` to `(a - b) * c`.
pub const FACTOR_OF_DIFFERENCE: u8 = 14;
/// `a - b` to `a + -b`.
pub const ADD_NEGATION: u8 = 15;
/// `a + -b` to `a - b`.
pub const SUBTRACT: u8 = 16;
/// `--a` to `a`.
pub const DROP_NEGATIONS: u8 = 17;
/// `-(a * b)` to `-a * b`.
pub const NEGATE_FACTOR: u8 = 18;
/// `-a * b` to `-(a * b)`.
pub const TAKE_NEGATION: u8 = 19;
/// `-(a + b)` to `-a + -b`.
pub const NEGATE_TERMS: u8 = 20;

/// The product of two literals to a literal.
pub const FOLD_PRODUCT: u8 = 28;

/// The rules that leave less to compute, folding before a division by a literal becomes a product.
pub const CLEANING: [u8; 7] = [DROP_NEGATIONS, 26, 27, FOLD_PRODUCT, 29, 30, 25];

/// The rules that may match a tree, by its operation.
pub fn rules_of(e: &Expr) -> &'static [u8] {
    match e {
        Expr::Add(_, _) => &[1, 2, 3, 11, 12, 16, 22, 26],
        Expr::Sub(_, _) => &[13, 14, 15, 27],
        Expr::Mul(_, _) => &[4, 5, 6, 7, 8, 9, 10, 19, 28],
        Expr::Div(_, _) => &[21, 23, 24, 25, 29],
        Expr::Neg(_) => &[17, 18, 20, 30],
        _ => &[],
    }
}

/// The rule that undoes this one at the same tree, if there is one.
pub fn inverse(rule: u8) -> Option<u8> {
    Some(match rule {
        1 => 1,
        2 => 3,
        3 => 2,
        4 => 4,
        5 => 6,
        6 => 5,
        7 => 11,
        8 => 12,
        9 => 13,
        10 => 14,
        11 => 7,
        12 => 8,
        13 => 9,
        14 => 10,
        15 => 16,
        16 => 15,
        18 => 19,
        19 => 18,
        21 => 22,
        22 => 21,
        23 => 24,
        24 => 23,
        _ => return None,
    })
}
