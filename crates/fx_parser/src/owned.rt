//! The wanted function, with names of its own.
//!
//! Only this one is copied out of the text. That it is lawful is no test here: every function that the grammar reads
//! is.
ghost use Rattle.std.specs.Prelude.{◌≡◌, map, Ok, IfOk, IfErr};
ghost use Rattle.std.specs.List.{All};
ghost use Rattle.fx_model.specs.Names.{IsName};
ghost use Rattle.fx_expr.specs.Parts as parts;
ghost use Rattle.fx_grammar.specs.Ranges.{declared_input};
ghost use Rattle.std.specs.Option.{option_map};
ghost use Rattle.fx_cursor.specs.Texts.{numeral_decimal};
ghost use Rattle.fx_lexer.specs.Faults.{source_memory, GivesParsed};
ghost use Rattle.fx_parser.specs.LawfulNames.{IsLawfulAndNamed};
ghost use Rattle.fx_requirements.specs.Views.{subject_of, demand_value};
ghost use Rattle.fx_parser.specs.Views.{state_value, temp_value, source_function_of};

use crate::function::SourceFunction;
use crate::{body, front};
use fx_cursor::{Numeral, numeral_value};
use fx_expr::{Demand, Function, Input, Items, State, Temp};
use fx_fraction::Decimal;
use fx_lexer::SourceFault;
use fx_name::Name;
use fx_requirements::{Demanded, Subject, or_zero};
use std::alloc::Global;

fn owned_name(alloc: Global, text: &str) -> Result<Name, SourceFault>
    requires { IsName text.now }
    ensures { GivesParsed (λ name. name) result (Ok text.now) }
{
    Ok(Name::new(String::from_str(alloc, text)?))
}

fn owned_inputs(alloc: Global, subjects: &[Subject<'_>]) -> Result<Vec<Input>, SourceFault>
    requires { All (λ s. IsName s.name.now) subjects.now }
    ensures { GivesParsed (λ v. map parts.input_of v.items) result
        (Ok (map declared_input (map subject_of subjects.now))) }
{
    let mut inputs = Vec::new(alloc);
    for subject in subjects {
        inputs.push(Input {
            name: owned_name(alloc, subject.name)?,
            lo: or_zero(subject.lo),
            hi: or_zero(subject.hi),
            err: or_zero(subject.err),
        })?;
    }
    Ok(inputs)
}

fn owned_states(alloc: Global, states: &[front::State<'_>]) -> Result<Vec<State>, SourceFault>
    requires { All (λ s. IsName s.name.now) states.now }
    ensures { GivesParsed (λ v. map parts.state_of v.items) result (Ok (map state_value states.now)) }
{
    let mut owned = Vec::new(alloc);
    for state in states {
        owned.push(State {
            name: owned_name(alloc, state.name)?,
            start: numeral_value(&state.start),
        })?;
    }
    Ok(owned)
}

fn owned_temps(alloc: Global, temps: Vec<body::Temp<'_>>) -> Result<Vec<Temp>, SourceFault>
    requires { All (λ t. IsName t.name.now) temps.items }
    ensures { GivesParsed (λ v. map parts.temp_of v.items) result (Ok (map temp_value temps.entry.items)) }
{
    let mut owned = Vec::new(alloc);
    for temp in temps {
        let body::Temp { name, expr } = temp;
        let name = owned_name(alloc, name)?;
        owned.push(Temp { name, expr })?;
    }
    Ok(owned)
}

fn owned_number(number: Option<Numeral<'_>>) -> Option<Decimal>
    ensures { result ≡ option_map numeral_decimal number.entry }
{
    match number {
        Some(number) => Some(numeral_value(&number)),
        None => None,
    }
}

fn owned_demands(alloc: Global, demands: &[Demanded<'_>]) -> Result<Vec<Demand>, SourceFault>
    ensures { GivesParsed (λ v. map parts.demand_of v.items) result (Ok (map demand_value demands.now)) }
{
    let mut owned = Vec::new(alloc);
    for demanded in demands {
        owned.push(Demand {
            err: owned_number(demanded.err),
            lo: owned_number(demanded.lo),
            hi: owned_number(demanded.hi),
        })?;
    }
    Ok(owned)
}

/// What a function declares, with names of its own.
#[derive(Drop)]
struct Declarations {
    name: Name,
    inputs: Vec<Input>,
    states: Vec<State>,
    demands: Vec<Demand>,
}

fn declared(
    alloc: Global,
    name: &str,
    inputs: &[Subject<'_>],
    states: &[front::State<'_>],
    demands: &[Demanded<'_>],
) -> Result<Declarations, SourceFault>
    requires name { IsName name.now }
    requires inputs { All (λ s. IsName s.name.now) inputs.now }
    requires states { All (λ s. IsName s.name.now) states.now }
    ensures name { IfOk result (λ d. d.name ≡ name.now) }
    ensures inputs { IfOk result
        (λ d. map parts.input_of d.inputs.items ≡ map declared_input (map subject_of inputs.now)) }
    ensures states { IfOk result (λ d. map parts.state_of d.states.items ≡ map state_value states.now) }
    ensures demands { IfOk result (λ d. map parts.demand_of d.demands.items ≡ map demand_value demands.now) }
    ensures failed { IfErr result (λ e. e ≡ source_memory) }
{
    let name = owned_name(alloc, name)?;
    let inputs = owned_inputs(alloc, inputs)?;
    let states = owned_states(alloc, states)?;
    let demands = owned_demands(alloc, demands)?;
    Ok(Declarations {
        name,
        inputs,
        states,
        demands,
    })
}

/// The function that was read.
pub fn owned(alloc: Global, source_function: SourceFunction<'_>) -> Result<Function, SourceFault>
    requires { IsLawfulAndNamed (source_function_of source_function) }
    ensures { GivesParsed (λ f. f) result (Ok (source_function_of source_function.entry)) }
{
    let SourceFunction {
        name,
        inputs,
        states,
        temps,
        results,
        demands,
    } = source_function;
    let temps = owned_temps(alloc, temps)?;
    let Declarations {
        name,
        inputs,
        states,
        demands,
    } = declared(alloc, name, &inputs, &states, &demands)?;
    Ok(Function::new(
        name,
        Items::from_vec(inputs),
        Items::from_vec(states),
        Items::from_vec(temps),
        Items::from_vec(results),
        Items::from_vec(demands),
    ))
}
