//! A certified program with the registers of each of its units.
//!
//! All registers are made at once, before the first row, so that a turn takes no memory and refuses nothing.
ghost use Rattle.std.specs.Prelude.{◌≡◌, ◌<◌, ◌≤◌, ◌++◌, ◌∷◌, [], List, pos, length, map, replicate, IfOk};
ghost use Rattle.std.specs.Fmt.{decimal};
ghost use Rattle.fx_rational.specs.Rational.{Rational};
ghost use Rattle.fx_rational.specs.Decimal.{decimal_value};
ghost use Rattle.fx_model.specs.Machine.{output_points};
ghost use Rattle.fx_model.specs.Rows.{IsInRange, IsTrueOf};
ghost use Rattle.fx_model.specs.Tree.{at};
ghost use Rattle.fx_inequalities.specs.Near.{IsNear};
ghost use Rattle.fx_sound.specs.Soundness.{StepIsNear};
ghost use Rattle.fx_machine.specs.Steps.{step_taken};
ghost use Rattle.fx_stream.specs.Rooms.{HasLineRoom, HasRoom};
ghost use Rattle.fx_node.specs.NodePage.{node_head, unit_line};
ghost use Rattle.fx_node.specs.Units.{first_registers, first_units, registers_of, IsTurned};

use fx_checker::{Certified, certified_step};
use fx_fraction::Decimal;
use fx_machine::Registers;
use fx_num::Memory;
use fx_program::Program;
use fx_run::{put_header, put_words};
use fx_stream::Page;
use itoa::Buffer;
use std::alloc::Global;
use std::marker::Model;

// The registers of one unit before its first row.
fn first_of<const B: u32>(alloc: Global, program: &Program) -> Result<Registers<B>, Memory>
    requires { program.now.width ≡ B }
    ensures { IfOk result (λ registers. registers ≡ first_registers program.now) }
{
    Registers::<B>::new(alloc, program)
}

// The registers of so many units.
fn first_registers<const B: u32>(
    alloc: Global,
    program: &Program,
    units: u32,
) -> Result<Vec<Registers<B>>, Memory>
    requires { program.now.width ≡ B }
    ensures { IfOk result (λ registers. registers.items ≡ replicate units (first_registers program.now)) }
{
    let mut registers = Vec::with_capacity(alloc, units as usize)?;
    for _ in 0..units {
        registers.push(first_of::<B>(alloc, program)?)?;
    }
    Ok(registers)
}

// Puts the header of the page of units.
fn put_names(page: &mut Page, program: &Program)
    requires room { HasRoom page.old }
    ensures { page.new ≡ page.old ++ node_head program.now }
{
    program.keeps();
    page.put(b"unit,");
    put_header(page, program);
}

// Puts the number of a unit, and a comma.
fn put_number(page: &mut Page, unit: u32)
    requires room { HasRoom page.old }
    ensures written { page.new ≡ page.old ++ (decimal unit ++ 44 ∷ []) }
    ensures room { HasLineRoom page.new }
{
    let mut buffer = Buffer::new();
    page.put(buffer.format(unit).as_bytes());
    page.put(b",");
}

// Puts the number of a unit, and the last outputs among its words.
fn put_unit<const B: u32>(page: &mut Page, program: &Program, unit: u32, registers: &Registers<B>)
    requires words { length registers.now.words ≡ length program.now.codes }
    requires room { HasRoom page.old }
    ensures { page.new ≡ page.old ++ unit_line program.now unit (step_taken program.now registers.now.words).outputs }
{
    program.keeps();
    put_number(page, unit);
    put_words(page, program, registers);
}

/// The runs of several units by one certified program, side by side.
#[derive(Drop)]
pub struct UnitRuns<'a, const B: u32> {
    certified: &'a Certified,
    registers: Vec<Registers<B>>,
}

impl<'a, const B: u32> Model for UnitRuns<'a, B> {
    ghost use Rattle.std.specs.Coded.{codes};
    ghost use Rattle.fx_expr.specs.Coding.{function_code};
    ghost use Rattle.fx_node.specs.Units.{Units, IsNode};

    ghost Value = { Units };

    ghost coded = { Prim.hlevel (codes, function_code) };

    ghost view = { λ n. record { accepted = n.certified.now; registers = n.registers.items } };

    ghost invariant = { λ n. IsNode B record { accepted = n.certified.now; registers = n.registers.items } };
}

impl<'a, const B: u32> UnitRuns<'a, B> {
    /// A node of `count` units before their first rows. All room is made here.
    pub fn new(
        alloc: Global,
        certified: &'a Certified,
        units: u32,
    ) -> Result<UnitRuns<'a, B>, Memory>
        requires width { certified.now.program.width ≡ B }
        requires some { 1 ≤ units }
        requires few { units ≤ 1024 }
        ensures { IfOk result (λ node. node ≡ first_units certified.now units) }
    {
        certified.certified();
        let registers = first_registers::<B>(alloc, certified.program(), units)?;
        Ok(UnitRuns {
            certified,
            registers,
        })
    }

    /// Steps one unit on its next row, and leaves all others as they are.
    pub fn turn(&mut self, unit: u32, row: &[Decimal])
        requires unit { unit < length self.old.registers }
        requires in_range { IsInRange self.old.accepted.function.inputs (map decimal_value row.now) }
        ensures turned { IsTurned unit (map decimal_value row.now) self.old self.new }
        ensures near { (true_row state : List Rational) →
            IsTrueOf self.old.accepted.function.inputs (map decimal_value row.now) true_row →
            IsNear self.old.accepted.function self.old.accepted.program self.old.accepted.certificate
            (registers_of self.old unit).states state →
            StepIsNear self.old.accepted.function self.old.accepted.program self.old.accepted.certificate
            (map decimal_value row.now) true_row (registers_of self.old unit).states state }
    {
        certified_step::<B>(self.certified, &mut self.registers[unit as usize], row);
    }

    /// The word of output `j` of a unit, which is 0 before its first row, and its point.
    pub fn unit_output(&self, unit: u32, j: u32) -> (i64, i32)
        requires unit { unit < length self.now.registers }
        requires within { j < self.now.accepted.program.outputs }
        ensures word { result.0
            ≡ at (pos 0) (step_taken self.now.accepted.program (registers_of self.now unit).words).outputs j }
        ensures point { result.1 ≡ at (pos 0) (output_points self.now.accepted.program) j }
    {
        self.registers[unit as usize].output(self.certified.program(), j)
    }

    // What is certified.
    pub(crate) fn certified(&self) -> &'a Certified
        ensures { result.now ≡ self.now.accepted }
    {
        self.certified
    }

    // Puts the header of the page.
    pub(crate) fn put_head(&self, page: &mut Page)
        requires room { HasRoom page.old }
        ensures { page.new ≡ page.old ++ node_head self.now.accepted.program }
    {
        put_names(page, self.certified.program());
    }

    // Puts the line of a unit's last outputs.
    pub(crate) fn put_line(&self, unit: u32, page: &mut Page)
        requires unit { unit < length self.now.registers }
        requires room { HasRoom page.old }
        ensures { page.new ≡ page.old ++ unit_line self.now.accepted.program unit
            (step_taken self.now.accepted.program (registers_of self.now unit).words).outputs }
    {
        put_unit::<B>(
            page,
            self.certified.program(),
            unit,
            &self.registers[unit as usize],
        );
    }
}
