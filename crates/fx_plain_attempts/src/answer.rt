//! One certified program against another, by their bounds.
ghost use Rattle.std.specs.Prelude.{◌≡◌, ◌↔◌, Some, false, IsTrue};
ghost use Rattle.fx_plain_attempts.specs.Bounds.{attempted, AreNoGreater, AreSmaller};
ghost use Rattle.fx_plain_attempts.specs.Turns.{AreForOne, IsTaken};
ghost use Rattle.fx_model.specs.Function.{outputs};

use fx_checker::Certified;
use fx_num::{Dyadic, Memory, dle};
use std::alloc::Global;

// How many outputs the function has.
fn outputs_of(certified: &Certified) -> u32
    ensures count { result ≡ outputs certified.now.function }
    ensures same { result ≡ certified.now.program.outputs }
{
    certified.certified();
    certified.program().outputs
}

// Whether the bound of `a` is at most that of `b` at each output.
fn are_no_greater(a: &Certified, b: &Certified) -> bool
    requires { a.now.function ≡ b.now.function }
    ensures { IsTrue result ↔ AreNoGreater b.now.function (attempted a.now) (attempted b.now) }
{
    let outputs = outputs_of(a).min(outputs_of(b));
    for j in 0..outputs {
        if !dle(a.bound(j), b.bound(j)) {
            return false;
        }
    }
    true
}

// Whether no bound of `a` is greater than that of `b`, and one is smaller.
fn is_better(a: &Certified, b: &Certified) -> bool
    requires { a.now.function ≡ b.now.function }
    ensures taken { IsTrue result → AreNoGreater b.now.function (attempted a.now) (attempted b.now) }
    ensures left { result ≡ false → ¬ AreSmaller b.now.function (attempted a.now) (attempted b.now) }
{
    b.function().keeps();
    if are_no_greater(b, a) {
        return false;
    }
    are_no_greater(a, b)
}

// The candidate where it is better, else the answer.
fn better(answer: Certified, candidate: Certified) -> Certified
    requires { AreForOne (Some answer) (Some candidate) }
    ensures { IsTaken (Some answer) (Some candidate) (Some result) }
{
    if is_better(&candidate, &answer) {
        drop(answer);
        candidate
    } else {
        drop(candidate);
        answer
    }
}

// The better of an answer and a candidate, where there may be none.
fn better_of(answer: Certified, candidate: Option<Certified>) -> Certified
    requires { AreForOne (Some answer) candidate }
    ensures { IsTaken (Some answer) candidate (Some result) }
{
    match candidate {
        Some(candidate) => better(answer, candidate),
        None => answer,
    }
}

/// The candidate, where there is one and no answer yet, or one that is no worse at any output and better at some; else
/// the answer.
pub fn take_better(answer: Option<Certified>, candidate: Option<Certified>) -> Option<Certified>
    requires { AreForOne answer candidate }
    ensures { IsTaken answer candidate result }
{
    match answer {
        Some(answer) => Some(better_of(answer, candidate)),
        None => candidate,
    }
}

/// The bounds of an answer, one for each output, or none where there is no answer.
pub fn bounds_of(alloc: Global, answer: &Option<Certified>) -> Result<Vec<Dyadic>, Memory> {
    let mut bounds = Vec::new(alloc);
    if let Some(certified) = answer {
        for j in 0..outputs_of(certified) {
            bounds.push(certified.bound(j))?;
        }
    }
    Ok(bounds)
}
