//! The demonstration: its source, a program for it, and the run of its rows.
ghost use Rattle.std.specs.Prelude.{◌≡◌, ◌≤◌, None, Ok, IfOk};
ghost use Rattle.fx_grammar.specs.Sources.{parsed};
ghost use Rattle.fx_weight.specs.PlainClass.{obstacle_of};
ghost use Rattle.fx_demo.specs.Source.{demo_source};
ghost use Rattle.fx_demo.specs.Demonstration.{IsDemonstration, IsProgram, IsRun};
ghost use Rattle.fx_demo.specs.LastLine.{HasTwoLines, IsLastLine};

use crate::last::last_line;
use crate::rows::rows_text;
use crate::source::function_of;
use fx_base::{BytesOut, CleanIn};
use fx_checker::Certified;
use fx_expr::Function;
use fx_num::Memory;
use fx_run::{RunFault, run_rows};
use fx_synth::{SynthFault, synthesise};
use fx_wanted::{Round, Wanted};
use fx_weight::find_obstacle;
use std::alloc::Global;

// The function of the source of number `n`, which the plain plan serves at 32 bits.
fn served_function(alloc: Global, n: u32) -> Result<Function, Memory>
    requires { n ≤ 500 }
    ensures meant { IfOk result (λ fn. parsed (demo_source n) None ≡ Ok fn) }
    ensures served { IfOk result (λ fn. obstacle_of 32 fn ≡ None) }
{
    let function = function_of(alloc, n)?;
    let obstacle = find_obstacle(alloc, &function, 32)?;
    if obstacle.is_some() {
        // the plain plan serves every such function, as `.ci/checks/demos` shows of each number
        return Err(Memory);
    }
    Ok(function)
}

// A certified program for the source.
fn program_of(alloc: Global, n: u32) -> Result<Certified, Memory>
    requires { n ≤ 500 }
    ensures { IfOk result (IsProgram n) }
{
    let function = served_function(alloc, n)?;
    let wanted = Wanted {
        width: 32,
        tries: 200,
        round: Round::Floor,
    };
    match synthesise(alloc, &function, wanted, 0) {
        Ok(certified) => {
            certified.certified();
            Ok(certified)
        }
        Err(SynthFault::Memory) => Err(Memory),
        // the plain plan serves the function
        Err(SynthFault::NotFound { .. }) => unreachable!(),
    }
}

// The page of its rows.
fn page_of(alloc: Global, certified: &Certified) -> Result<BytesOut, Memory>
    ensures { IfOk result (λ sink. IsRun certified.now sink.taken) }
{
    let text = rows_text(alloc)?;
    let limit = text.len() as u64;
    let mut rows = CleanIn::new(text);
    let mut page = BytesOut::new(Vec::new(alloc));
    match run_rows(alloc, certified, &mut rows, &mut page, limit) {
        Ok(_) => Ok(page),
        Err(RunFault::Memory) => Err(Memory),
        // a page in memory refuses a write where memory is wanting
        Err(RunFault::WriteFault) => Err(Memory),
        // every row is good, as `.ci/checks/demos` shows of each number: no proof says which ranges its source has
        Err(RunFault::Row { .. }) => Err(Memory),
        // rows in memory never fail to come, and the limit is all of them
        Err(RunFault::ReadFault) => unreachable!(),
        Err(RunFault::TooLong) => unreachable!(),
    }
}

// The last line of a page, as a text of its own.
fn last_of(alloc: Global, page: &[u8]) -> Result<Vec<u8>, Memory>
    requires { HasTwoLines page.now }
    ensures { IfOk result (λ line. IsLastLine page.now line.items) }
{
    match last_line(page) {
        Some(line) => match line.to_vec(alloc) {
            Ok(line) => Ok(line),
            Err(_) => Err(Memory),
        },
        None => unreachable!(),
    }
}

/// Makes the source of number `n`, finds a program for it and runs its rows. Gives the program and the last line that
/// it prints.
pub fn demonstrate(alloc: Global, n: u32) -> Result<(Certified, Vec<u8>), Memory>
    requires { n ≤ 500 }
    ensures { IfOk result (λ d. IsDemonstration n d.0 d.1.items) }
{
    let certified = program_of(alloc, n)?;
    let page = page_of(alloc, &certified)?;
    let last = last_of(alloc, page.bytes())?;
    Ok((certified, last))
}
