//! What no clause says: that there is memory for a call over the kinds in memory, and how little is read ahead of an
//! output that can't be written. All other calls are cases, told as texts in `cases/`; all sources of `demo` are tried
//! by `.ci/checks/demos`.

use fx_base::{BytesIn, BytesOut, FileName, Papers, Source, Status, read_all};
use fx_command::fixd;
use std::alloc::Global;
use std::test::Fail;

/// `x + 0.5` for x from 0 to 1, in 16 bits.
#[rattlefmt::skip]
pub(crate) const HALF: &str = "\
fixd bundle 1
source 64
def f(x: Real): Real = {
  require(0 <= x && x <= 1)
  x + 0.5
}
program
fixd program 1
width 16
name f
sizes 1 0 1 4
in 0 12
const 2048 12
add 0 1 0 0
copy 2 0
certificate
fixd certificate 1
sizes 1 0 4
steps 0
rows 0 0
plain 0:0 1:0 -1:12 0:0
plain 1:1 1:1 0:0 0:0
plain 1:1 3:1 -1:12 0:0
plain 1:1 3:1 -1:12 0:0
end
";

/// Its source.
const SOURCE: &str = "def f(x: Real): Real = {\n  require(0 <= x && x <= 1)\n  x + 0.5\n}";

/// A shelf with the bundle as `a` and its source as `b`.
fn shelf(alloc: Global) -> Result<Papers, Fail> {
    let mut files = Vec::new(alloc);
    for (name, text) in [("a", HALF), ("b", SOURCE)] {
        let name = FileName::new(String::from_str(alloc, name)?);
        files.push((name, text.as_bytes().to_vec(alloc)?))?;
    }
    Ok(Papers::new(files, Vec::new(alloc)))
}

/// How a call ends, and what it writes.
#[derive(Drop)]
pub(crate) struct Answer {
    pub(crate) status: Status,
    output: BytesOut,
    notes: BytesOut,
}

/// Calls `fixd`. The write of this number fails, of the output.
pub(crate) fn call<S: Source<BytesOut>>(
    alloc: Global,
    command: &[&str],
    input: &mut S,
    fails: u64,
) -> Result<Answer, Fail> {
    let mut words = Vec::new(alloc);
    for word in command {
        words.push(String::from_str(alloc, word)?)?;
    }
    let mut shelf = shelf(alloc)?;
    let mut output = BytesOut::new(vec![in alloc; fails]?);
    let mut notes = BytesOut::new(Vec::new(alloc));
    let status = fixd(alloc, &words, &mut shelf, input, &mut output, &mut notes);
    Ok(Answer {
        status,
        output,
        notes,
    })
}

// a command's words, and how the output begins
#[rattlefmt::skip]
static CALLS: [(&[&str], &str); 9] = [
    (&["run", "a"], "out1\n0.7998046875\n"),
    (&["mixed", "a"], "out1\n0.7998046875\n"),
    (&["node", "--units", "1", "a"], "unit,out1\n0,0.7998046875\n"),
    (&["check", "a"], "accepted\nout1 1/2^12\n"),
    (&["show", "a"], "0 in 12 0 1 -1/2^12 0\n"),
    (&["widths", "a"], "0 in 16\n1 const 16\n"),
    (&["rust", "a"], "// f, width 16\npub fn step("),
    (&["synth", "--width", "16", "--tries", "0", "b"], "fixd bundle 1\nsource 64\n"),
    (&["demo", "1"], "demo 1 nodes 7 rows 1000 last "),
];

#[test]
fn there_is_memory(rt: HostRuntime) -> Result<(), Fail> {
    let alloc = rt.alloc();
    for &(words, page) in &CALLS {
        for piece in [1, 2, 4_096] {
            let mut input = BytesIn::new(b"x,unit\n0.3,0\n".to_vec(alloc)?, piece, Vec::new(alloc));
            let answer = call(alloc, words, &mut input, 0)?;
            assert!(rt;
                answer.status == Status::DONE
                    && answer.output.bytes().starts_with(page.as_bytes())
                    && answer.notes.bytes().is_empty(),
                "{words:?} in pieces of {piece}"
            );
        }
    }
    Ok(())
}

// Where nothing can be written, little is read, and nothing is printed.
#[test]
fn takes_little_ahead(rt: HostRuntime) -> Result<(), Fail> {
    let alloc = rt.alloc();
    let mut bytes = b"x\n".to_vec(alloc)?;
    for _row in 0..100_000 {
        bytes.extend_from_slice(b"0\n")?;
    }
    let mut input = BytesIn::new(bytes, 200_002, Vec::new(alloc));
    let answer = call(alloc, &["run", "a"], &mut input, 1)?;
    assert!(rt; answer.status == Status::WRITE_FAULT && answer.output.bytes().is_empty());
    let left = read_all(alloc, &mut input, 1_000_000)?;
    assert!(rt; left.len() >= 200_002 - 131_072);
    Ok(())
}
