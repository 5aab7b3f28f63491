//! Trees that are being read, with their height and the nodes that they make.
//!
//! A tree that is too high is no tree: its operands are dropped as they come, so that nothing deep is ever built.
ghost use Rattle.std.specs.Prelude.{◌≡◌, ◌+◌, ◌<◌, min, max, option_map, Ok};
ghost use Rattle.fx_lexer.specs.Faults.{GivesParsed};
ghost use Rattle.fx_grammar.specs.Expressions.{literal};
ghost use Rattle.fx_expressions.specs.Views.{operand_of};
ghost use Rattle.fx_expr.specs.TreeOf.{tree};
ghost use Rattle.fx_grammar.specs.Operands.{operation, both, combined_operand, negation, negation_of, leaf, is_high, tree_or};

use fx_cursor::Names;
use fx_expr::Expr;
use fx_fraction::{Decimal, to_fraction};
use fx_grammar::Head;
use fx_lexer::SourceFault;
use fx_num::{HEIGHT_LIMIT, NODE_LIMIT};
use std::alloc::Global;

/// The names of inputs, states and temps in a row, and where the text ends.
#[derive(Drop)]
pub struct Context<'n> {
    /// What trees are kept in.
    pub alloc: Global,
    /// The names: first the inputs, then the states, then the temps so far.
    pub names: &'n Names<'n>,
    /// How many inputs there are.
    pub inputs: u32,
    /// How many states there are.
    pub states: u32,
    /// The length of the text.
    pub end: u32,
}

/// What was read: an expression, or none where it is too high; its height and its nodes.
#[derive(Debug, Drop)]
pub struct Operand {
    /// The expression, if it isn't too high.
    pub expr: Option<Expr>,
    /// Its height, of which 201 stands for each that is too high.
    pub height: u32,
    /// Its nodes, of which 4,001 stands for each greater count.
    pub nodes: u32,
}

fn higher(a: u32, b: u32) -> u32
    ensures { result ≡ min 201 (1 + max a b) }
{
    let most = if a < b { b } else { a };
    if most <= HEIGHT_LIMIT {
        most + 1
    } else {
        HEIGHT_LIMIT + 1
    }
}

fn more_nodes(a: u32, b: u32) -> u32
    ensures { result ≡ min 4001 (1 + a + b) }
{
    if a <= NODE_LIMIT && b <= NODE_LIMIT && 1 + a + b <= NODE_LIMIT {
        1 + a + b
    } else {
        NODE_LIMIT + 1
    }
}

fn operation(alloc: Global, op: Head, left: Expr, right: Expr) -> Result<Expr, SourceFault>
    ensures { GivesParsed tree result (Ok (operation op (tree left) (tree right))) }
{
    let left = Box::new(alloc, left)?;
    let right = Box::new(alloc, right)?;
    Ok(match op {
        Head::Plus => Expr::Add(left, right),
        Head::Minus => Expr::Sub(left, right),
        Head::Star => Expr::Mul(left, right),
        _ => Expr::Div(left, right),
    })
}

fn both(
    alloc: Global,
    op: Head,
    left: Option<Expr>,
    right: Option<Expr>,
) -> Result<Option<Expr>, SourceFault>
    ensures { GivesParsed (λ x. option_map tree x) result
        (Ok (both op (option_map tree left) (option_map tree right))) }
{
    let Some(left) = left else {
        return Ok(None);
    };
    let Some(right) = right else {
        return Ok(None);
    };
    Ok(Some(operation(alloc, op, left, right)?))
}

pub fn joined(
    alloc: Global,
    op: Head,
    left: Operand,
    right: Operand,
) -> Result<Operand, SourceFault>
    ensures { GivesParsed operand_of result (Ok (combined_operand op (operand_of left) (operand_of right))) }
{
    let height = higher(left.height, right.height);
    let nodes = more_nodes(left.nodes, right.nodes);
    if height > HEIGHT_LIMIT {
        return Ok(Operand {
            expr: None,
            height,
            nodes,
        });
    }
    let expr = both(alloc, op, left.expr, right.expr)?;
    Ok(Operand {
        expr,
        height,
        nodes,
    })
}

fn negation_of(alloc: Global, expr: Option<Expr>) -> Result<Option<Expr>, SourceFault>
    ensures { GivesParsed (λ x. option_map tree x) result (Ok (negation_of (option_map tree expr))) }
{
    let Some(expr) = expr else {
        return Ok(None);
    };
    Ok(Some(Expr::Neg(Box::new(alloc, expr)?)))
}

pub fn negation(alloc: Global, x: Operand) -> Result<Operand, SourceFault>
    ensures { GivesParsed operand_of result (Ok (negation (operand_of x))) }
{
    let height = if x.height <= HEIGHT_LIMIT {
        x.height + 1
    } else {
        HEIGHT_LIMIT + 1
    };
    let nodes = if x.nodes <= NODE_LIMIT {
        x.nodes + 1
    } else {
        NODE_LIMIT + 1
    };
    if height > HEIGHT_LIMIT {
        return Ok(Operand {
            expr: None,
            height,
            nodes,
        });
    }
    let expr = negation_of(alloc, x.expr)?;
    Ok(Operand {
        expr,
        height,
        nodes,
    })
}

pub fn leaf(expr: Expr, nodes: u32) -> Operand
    ensures { operand_of result ≡ leaf (tree expr) nodes }
{
    Operand {
        expr: Some(expr),
        height: 1,
        nodes,
    }
}

/// A literal, the fraction in lowest terms.
pub fn literal(value: Decimal) -> Operand
    ensures { operand_of result ≡ literal value }
{
    leaf(Expr::Lit(to_fraction(value)), 1)
}

/// Whether it is too high.
pub fn is_high(x: &Operand) -> bool
    ensures { result ≡ is_high (operand_of x.now) }
{
    x.height == HEIGHT_LIMIT + 1
}

/// The expression, which is there where it isn't too high.
#[tactic(auto, using(crate::proofs::Zero::zero_is))]
pub fn tree_or(expr: Option<Expr>) -> Expr
    ensures { tree result ≡ tree_or (option_map tree expr) }
{
    match expr {
        Some(expr) => expr,
        None => Expr::Lit(to_fraction(Decimal { a: 0, b: 0 })),
    }
}
