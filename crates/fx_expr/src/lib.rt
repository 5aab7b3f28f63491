//! Functions of the source language: what a user's formula is once it is read.
//!
//! # Contract
//!
//! A `Function` is lawful by its type (`specs/LawfulFunction.antt`): its trees refer to what is there, its ranges
//! aren't empty and its errors aren't negative, it has an input and an output, and it keeps the limits. Contracts see
//! it as the record of `fx_model`, whose meaning is `exact`. `same` compares trees, `Expr::copy` and `Function::copy`
//! give an equal value. A `Function` keeps the count of its nodes (`nodes`); `Function::new` makes it of lawful parts,
//! and `replace` exchanges a subtree for another by place and path.
//!
//! # Inside
//!
//! Whoever takes a `Function` asks for nothing more. The trap: a tree keeps its operands in boxes, whose places `≡`
//! would compare; so every clause speaks of `tree e`, never of `e`.
#![tactic(auto)]

mod count;
mod expr;
mod function;
mod items;
mod parts;
mod place;
mod size;
mod trees;

pub use expr::{Expr, same};
pub use function::Function;
pub use items::Items;
pub use parts::{Demand, Input, State, Temp};
pub use place::{at, exchange, operand};
pub use size::Size;
