//! The header and the line of a step's outputs, put on a page field by field.
ghost use Rattle.std.specs.Prelude.{◌≡◌, ◌+◌, ◌≤◌, ◌<◌, ℤ, List, pos, [], ◌∷◌, ◌++◌, length, codes, decimal};
ghost use Rattle.fx_model.specs.Machine.{output_points};
ghost use Rattle.fx_model.specs.LawfulProgram.{IsLawfulProgram, IsPoint};
ghost use Rattle.fx_model.specs.Page.{line_of, names_from, word_texts};
ghost use Rattle.fx_model.specs.WordText.{decimal_text};
ghost use Rattle.fx_machine.specs.Steps.{step_taken};
ghost use Rattle.fx_stream.specs.Rooms.{HasLineRoom, line_room, page_room};
ghost use Rattle.fx_lanes.specs.RowsSideBySide.{lane};
ghost use Rattle.fx_model.specs.Tree.{at};
ghost use Rattle.fx_run.specs.Lines.{mark};

use fx_lanes::{LaneRegisters, SideBySide};
use fx_machine::Registers;
use fx_program::Program;
use fx_stream::Page;
use itoa::Buffer;

// Puts the byte behind a field: a comma, or a line feed behind the last.
fn put_mark(page: &mut Page, is_last: bool)
    requires { length page.old + 1 ≤ page_room }
    ensures { page.new ≡ page.old ++ mark is_last ∷ [] }
{
    if is_last {
        page.put(b"\n");
    } else {
        page.put(b",");
    }
}

// Puts the name of an output, and what stands behind it.
fn put_name(page: &mut Page, number: u32, is_last: bool)
    requires { length page.old + 129 ≤ page_room }
    ensures written { page.new ≡ page.old ++ (codes "out" ++ decimal number) ++ mark is_last ∷ [] }
    ensures short { length page.new ≤ length page.old + 129 }
{
    let mut buffer = Buffer::new();
    page.put(b"out");
    page.put(buffer.format(number).as_bytes());
    put_mark(page, is_last);
}

// Puts the text of a word, and what stands behind it.
fn put_word(page: &mut Page, word: i64, point: i32, is_last: bool)
    requires point { IsPoint point }
    requires room { length page.old + 129 ≤ page_room }
    ensures written { page.new ≡ page.old ++ decimal_text word point ++ mark is_last ∷ [] }
    ensures short { length page.new ≤ length page.old + 129 }
{
    page.put_decimal(word, point);
    put_mark(page, is_last);
}

// Puts the header of so many outputs.
fn put_names(page: &mut Page, count: u32)
    requires some { 1 ≤ count }
    requires few { count ≤ 64 }
    requires room { HasLineRoom page.old }
    ensures { page.new ≡ page.old ++ line_of (names_from 1 count) }
{
    for j in 0..count {
        put_name(page, j + 1, j + 1 == count);
    }
}

// How many outputs a program has, which is lawful.
fn output_count(program: &Program) -> u32
    ensures value { result ≡ program.now.outputs }
    ensures lawful { IsLawfulProgram program.now }
{
    program.outputs
}

/// Puts the header of a program's outputs.
pub fn put_header(page: &mut Page, program: &Program)
    requires room { HasLineRoom page.old }
    ensures { page.new ≡ page.old ++ line_of (names_from 1 program.now.outputs) }
{
    put_names(page, output_count(program));
}

/// The words of a step.
pub trait StepWords {
    ghost words: { Self → List ℤ };

    /// The word of output `j`, and its point.
    fn output_at(&self, program: &Program, j: u32) -> (i64, i32)
        requires words { length (words self.now) ≡ length program.now.codes }
        requires within { j < program.now.outputs }
        ensures word { result.0 ≡ at (pos 0) (step_taken program.now (words self.now)).outputs j }
        ensures point { result.1 ≡ at (pos 0) (output_points program.now) j };
}

impl<const B: u32> StepWords for Registers<B> {
    ghost words = { λ r. r.words };

    fn output_at(&self, program: &Program, j: u32) -> (i64, i32) {
        self.output(program, j)
    }
}

/// One of sixteen rows that went through a program side by side.
#[derive(Drop)]
pub(crate) struct Lane<'a, const B: u32, L: SideBySide<B>> {
    pub(crate) registers: &'a LaneRegisters<B, L>,
    pub(crate) k: usize,
    ghost within: { k < 16 },
}

impl<'a, const B: u32, L: SideBySide<B>> StepWords for Lane<'a, B, L> {
    ghost use Rattle.fx_lanes.specs.RowsSideBySide.{lane};

    ghost words = { λ l. lane l.k l.registers.now };

    fn output_at(&self, program: &Program, j: u32) -> (i64, i32) {
        self.registers.output(program, j, self.k)
    }
}

/// Puts the line of a step's outputs.
pub fn put_words<W: StepWords>(page: &mut Page, program: &Program, step: &W)
    requires words { length (W.words step.now) ≡ length program.now.codes }
    requires room { HasLineRoom page.old }
    ensures line { page.new ≡ page.old
        ++ line_of (word_texts (step_taken program.now (W.words step.now)).outputs (output_points program.now)) }
    ensures short { length page.new ≤ length page.old + line_room }
{
    let count = output_count(program);
    for j in 0..count {
        let (word, point) = step.output_at(program, j);
        put_word(page, word, point, j + 1 == count);
    }
}
