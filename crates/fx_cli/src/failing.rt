//! Each call of a device failing in turn, through the call `fixd`, where each call gives or takes two bytes at most.
//!
//! That a status has its cause is proved; here it is tried which call is the cause. A run ends with 6 or 7 exactly
//! where the failing call was made, and else as it does where nothing fails.
ghost use Rattle.std.specs.Prelude.{◌≤◌, [], None, length};
ghost use Rattle.fx_base.specs.Causes.{Rose};

use crate::tests::HALF;
use fx_base::{Failed, Shelf, Sink, Source};
use fx_command::fixd;
use std::alloc::Global;
use std::test::Fail;

/// How many bytes a call gives or takes at most.
const PIECE: usize = 2;

/// The calls that were made of a device, and the number of the one that fails; none does where that is 0.
#[derive(Clone, Copy, Debug)]
struct Calls {
    made: u64,
    fails: u64,
}

impl Calls {
    /// The call of this number fails.
    fn new(fails: u64) -> Calls {
        Calls { made: 0, fails }
    }

    /// One call more. Whether it is the one that fails.
    fn next_fails(&mut self) -> bool {
        self.made = self.made.saturating_add(1);
        self.made == self.fails
    }

    /// Whether the one that fails was made.
    fn failed(&self) -> bool {
        0 < self.fails && self.fails <= self.made
    }
}

/// One fault more.
fn counted(faults: &mut u64) -> Failed
    ensures rose { Rose faults.old faults.new }
    ensures later { faults.old ≤ faults.new }
{
    *faults = faults.saturating_add(1);
    Failed
}

/// Puts a piece of what is left into the front of a buffer.
fn give(left: &[u8], buf: &mut [u8]) -> usize
    ensures { result ≤ length buf.new }
{
    let count = left.len().min(buf.len()).min(PIECE);
    buf[..count].copy_from_slice(&left[..count]);
    count
}

/// What stands from a place on.
fn behind(bytes: &[u8], at: usize) -> &[u8] {
    if at <= bytes.len() { &bytes[at..] } else { &[] }
}

/// A shelf whose every file holds these bytes.
#[derive(Drop)]
struct ShortShelf<'a> {
    file: &'a [u8],
    calls: Calls,
    faults: u64,
}

impl<'a> Shelf for ShortShelf<'a> {
    ghost seen = { λ s. record { files = None; asked = []; faults = s.faults } };

    fn read_at(&mut self, _name: &str, at: u64, buf: &mut [u8]) -> Result<usize, Failed> {
        if self.calls.next_fails() {
            return Err(counted(&mut self.faults));
        }
        match usize::try_from(at) {
            Ok(at) => Ok(give(behind(self.file, at), buf)),
            Err(_) => Ok(0),
        }
    }
}

/// An input of these bytes.
#[derive(Drop)]
struct ShortInput<'a> {
    left: &'a [u8],
    calls: Calls,
    faults: u64,
}

impl<'a, K: Sink> Source<K> for ShortInput<'a> {
    ghost seen = { λ s. record { left = None; asked = []; faults = s.faults } };

    fn read(&mut self, buf: &mut [u8], _shown: &K) -> Result<usize, Failed> {
        if self.calls.next_fails() {
            return Err(counted(&mut self.faults));
        }
        let count = give(self.left, buf);
        self.left = behind(self.left, count);
        Ok(count)
    }
}

/// A sink that keeps what it takes.
#[derive(Drop)]
struct ShortSink {
    taken: Vec<u8>,
    calls: Calls,
    faults: u64,
}

impl ShortSink {
    /// Nothing is taken yet.
    fn new(alloc: Global, fails: u64) -> ShortSink {
        ShortSink {
            taken: Vec::new(alloc),
            calls: Calls::new(fails),
            faults: 0,
        }
    }
}

impl Sink for ShortSink {
    ghost seen = { λ s. record { taken = None; faults = s.faults } };

    fn write(&mut self, piece: &[u8]) -> Result<usize, Failed> {
        let count = piece.len().min(PIECE);
        if !self.calls.next_fails() && self.taken.extend_from_slice(&piece[..count]).is_ok() {
            return Ok(count);
        }
        Err(counted(&mut self.faults))
    }
}

/// The numbers of the calls that fail, from 1; 0 for a device of which none does.
#[derive(Clone, Copy, Debug)]
struct Fails {
    file: u64,
    input: u64,
    output: u64,
    notes: u64,
}

const NOTHING_FAILS: Fails = Fails {
    file: 0,
    input: 0,
    output: 0,
    notes: 0,
};

/// The words of a call behind its command, and what the input holds; then the status, the lines of the page and the
/// line on the notes.
type Run = (
    &'static [&'static str],
    &'static [u8],
    u8,
    &'static str,
    &'static str,
);

/// What `show` says of the bundle.
const SHOWN: &str = "\
0 in 12 0 1 -1/2^12 0
1 const 12 1/2^1 1/2^1 0 0
2 add 12 1/2^1 3/2^1 -1/2^12 0
3 copy 12 1/2^1 3/2^1 -1/2^12 0
out1 1/2^12
";

/// Its program as Rust.
const RUST_TEXT: &str = "\
// f, width 16
pub fn step(s: &mut [i64; 0], x: &[i64; 1]) -> [i64; 1] {
    let w0: i16 = x[0] as i16;
    let w1: i16 = 2048;
    let w2: i16 = (((w0 as i128) >> 0) + ((w1 as i128) >> 0)) as i16;
    let w3: i16 = ((w2 as i128) >> 0) as i16;
    [w3 as i64]
}
";

#[rattlefmt::skip]
static RUNS: [Run; 14] = [
    (&["run", "a"], b"x\n0.3\n1\n", 0, "out1\n0.7998046875\n1.5\n", ""),
    (&["run", "a"], b"x\n0.3", 0, "out1\n0.7998046875\n", ""),
    (&["run", "a"], b"t,x\r\n\r\n7,0.3\r\n\n8,\"1\"\n", 0, "out1\n0.7998046875\n1.5\n", ""),
    (&["run", "a"], b"x\n0\nabc\n1\n", 5, "out1\n0.5\n", "fixd: row: BadNumber at line 3 column x\n"),
    (&["run", "a"], b"", 5, "", "fixd: row: MissingColumn at line 1 column x\n"),
    (&["mixed", "a"], b"x\n0.3\n1\n", 0, "out1\n0.7998046875\n1.5\n", ""),
    (&["node", "--units", "2", "a"], b"unit,x\n1,0.3\n0,1\n", 0, "unit,out1\n1,0.7998046875\n0,1.5\n", ""),
    (&["node", "--units", "2", "a"], b"x,unit\n0.3,1\n1,2\n0,0\n", 5, "unit,out1\n1,0.7998046875\n",
        "fixd: row: BadUnit at line 3\n"),
    (&["check", "a"], b"x\n0.3\n", 0, "accepted\nout1 1/2^12\n", ""),
    (&["show", "a"], b"x\n0.3\n", 0, SHOWN, ""),
    (&["widths", "a"], b"x\n0.3\n", 0, "0 in 16\n1 const 16\n2 add 16\n3 copy 16\nbytes 8\n", ""),
    (&["rust", "a"], b"x\n0.3\n", 0, RUST_TEXT, ""),
    (&["synth", "--width", "16", "a"], b"x\n0.3\n", 3, "", "fixd: source: Unexpected at byte 0\n"),
    (&["check"], b"x\n0.3\n", 2, "", "fixd: usage: synth, check, run, show or demo\n"),
];

/// How a call ended, and what it did with the devices.
#[derive(Drop)]
struct Ended {
    status: u8,
    file: Calls,
    input: Calls,
    output: ShortSink,
    notes: ShortSink,
}

/// Calls `fixd` where a file holds the text.
fn perform(alloc: Global, text: &[u8], run: &Run, fails: Fails) -> Result<Ended, Fail> {
    let mut words = Vec::new(alloc);
    for word in run.0 {
        words.push(String::from_str(alloc, word)?)?;
    }
    let mut shelf = ShortShelf {
        file: text,
        calls: Calls::new(fails.file),
        faults: 0,
    };
    let mut input = ShortInput {
        left: run.1,
        calls: Calls::new(fails.input),
        faults: 0,
    };
    let mut output = ShortSink::new(alloc, fails.output);
    let mut notes = ShortSink::new(alloc, fails.notes);
    let status = fixd(
        alloc,
        &words,
        &mut shelf,
        &mut input,
        &mut output,
        &mut notes,
    );
    Ok(Ended {
        status: status.0,
        file: shelf.calls,
        input: input.calls,
        output,
        notes,
    })
}

impl Ended {
    /// Whether it ended so, with this page and this line.
    fn is(&self, status: u8, page: &[u8], line: &str) -> bool {
        self.status == status
            && *self.output.taken == *page
            && *self.notes.taken == *line.as_bytes()
    }
}

/// The front of a page with so many lines.
fn front_of(page: &[u8], lines: u64) -> &[u8] {
    let mut left = lines;
    for at in 0..page.len() {
        if left == 0 {
            return &page[..at];
        }
        if page[at] == b'\n' {
            left = left.saturating_sub(1);
        }
    }
    page
}

/// The lines of an input that get a line of the page: those that aren't empty.
fn answered(input: &[u8]) -> u64 {
    let mut lines = 0u64;
    let mut is_empty = true;
    for byte in input {
        if *byte == b'\n' {
            if !is_empty {
                lines = lines.saturating_add(1);
            }
            is_empty = true;
        } else if *byte != b'\r' {
            is_empty = false;
        }
    }
    lines
}

/// What was taken of the input before a call.
fn taken_before(input: &[u8], call: u64) -> &[u8] {
    match usize::try_from(call.saturating_sub(1)) {
        Ok(before) => &input[..before.saturating_mul(PIECE).min(input.len())],
        Err(_) => input,
    }
}

const READ_FAULT: &str = "fixd: read fault\n";

const WRITE_FAULT: &str = "fixd: write fault\n";

#[test]
fn a_file_that_cannot_be_read(rt: HostRuntime) -> Result<(), Fail> {
    let alloc = rt.alloc();
    for run in &RUNS {
        let whole = perform(alloc, HALF.as_bytes(), run, NOTHING_FAILS)?;
        assert!(rt;
            whole.is(run.2, run.3.as_bytes(), run.4),
            "{:?} of {:?}",
            run.0,
            run.1
        );
        for k in 0..=whole.file.made {
            let call = k.saturating_add(1);
            let fails = Fails {
                file: call,
                ..NOTHING_FAILS
            };
            let other = perform(alloc, HALF.as_bytes(), run, fails)?;
            assert!(rt;
                other.file.failed() == (call <= whole.file.made),
                "{:?}: read {call} of FILE",
                run.0
            );
            if other.file.failed() {
                assert!(rt;
                    other.is(6, &[], READ_FAULT) && other.input.made == 0,
                    "{:?}: read {call} of FILE",
                    run.0
                );
            } else {
                assert!(rt;
                    other.is(run.2, run.3.as_bytes(), run.4),
                    "{:?}: read {call} of FILE",
                    run.0
                );
            }
        }
    }
    Ok(())
}

#[test]
fn an_input_that_cannot_be_read(rt: HostRuntime) -> Result<(), Fail> {
    let alloc = rt.alloc();
    for run in &RUNS {
        let whole = perform(alloc, HALF.as_bytes(), run, NOTHING_FAILS)?;
        for k in 0..=whole.input.made {
            let call = k.saturating_add(1);
            let fails = Fails {
                input: call,
                ..NOTHING_FAILS
            };
            let other = perform(alloc, HALF.as_bytes(), run, fails)?;
            assert!(rt;
                other.input.failed() == (call <= whole.input.made),
                "{:?}: read {call}",
                run.0
            );
            let page = run.3.as_bytes();
            if other.input.failed() {
                let lines = answered(taken_before(run.1, call));
                assert!(rt;
                    other.is(6, front_of(page, lines), READ_FAULT),
                    "{:?} of {:?}: read {call}",
                    run.0,
                    run.1
                );
            } else {
                assert!(rt;
                    other.is(run.2, page, run.4),
                    "{:?} of {:?}: read {call}",
                    run.0,
                    run.1
                );
            }
        }
    }
    Ok(())
}

#[test]
fn an_output_that_cannot_be_written(rt: HostRuntime) -> Result<(), Fail> {
    let alloc = rt.alloc();
    for run in &RUNS {
        let whole = perform(alloc, HALF.as_bytes(), run, NOTHING_FAILS)?;
        for k in 0..=whole.output.calls.made {
            let call = k.saturating_add(1);
            let fails = Fails {
                output: call,
                ..NOTHING_FAILS
            };
            let other = perform(alloc, HALF.as_bytes(), run, fails)?;
            assert!(rt;
                other.output.calls.failed() == (call <= whole.output.calls.made),
                "{:?}: write {call}",
                run.0
            );
            let page = run.3.as_bytes();
            let taken = &other.output.taken;
            if other.output.calls.failed() {
                assert!(rt;
                    other.is(7, taken, WRITE_FAULT) && page.starts_with(taken),
                    "{:?} of {:?}: write {call}",
                    run.0,
                    run.1
                );
                assert!(rt;
                    other.output.calls.made == call,
                    "{:?}: a write behind write {call}",
                    run.0
                );
            } else {
                assert!(rt;
                    other.is(run.2, page, run.4),
                    "{:?} of {:?}: write {call}",
                    run.0,
                    run.1
                );
            }
        }
    }
    Ok(())
}

// Where another device fails too, or none.
#[rattlefmt::skip]
static OTHERS: [Fails; 4] = [
    NOTHING_FAILS,
    Fails { file: 2, input: 0, output: 0, notes: 0 },
    Fails { file: 0, input: 3, output: 0, notes: 0 },
    Fails { file: 0, input: 0, output: 4, notes: 0 },
];

#[test]
fn notes_that_cannot_be_written(rt: HostRuntime) -> Result<(), Fail> {
    let alloc = rt.alloc();
    for run in &RUNS {
        for fails in &OTHERS {
            let whole = perform(alloc, HALF.as_bytes(), run, *fails)?;
            for k in 0..=whole.notes.calls.made {
                let fails = Fails {
                    notes: k.saturating_add(1),
                    ..*fails
                };
                let other = perform(alloc, HALF.as_bytes(), run, fails)?;
                assert!(rt;
                    other.status == whole.status && *other.output.taken == *whole.output.taken,
                    "{:?} of {:?}: {fails:?}",
                    run.0,
                    run.1
                );
                assert!(rt;
                    whole.notes.taken.starts_with(&other.notes.taken),
                    "{:?}: {fails:?}",
                    run.0
                );
            }
        }
    }
    Ok(())
}
