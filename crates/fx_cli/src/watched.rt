//! Each answer stands before the next row is asked for, seen from the side of whoever feeds the rows.
//!
//! That it is so at every read is a clause of `fixd` (`prompt`), told of the moments that a source notes. This one
//! notes them all.
ghost use Rattle.std.specs.Prelude.{◌≡◌, map, take, length, min, Some};
ghost use Rattle.fx_base.specs.Moments.{Moment, Notes};

use crate::tests::call;
use fx_base::{BytesOut, Failed, Source, Status};
use std::alloc::Global;
use std::test::Fail;

/// What stood when the source was asked for bytes: what it had left, and what was printed.
#[derive(Drop)]
struct Look<'a> {
    left: &'a [u8],
    printed: Vec<u8>,
}

/// Rows that come one at a time, whose feeder looks at what is printed before it gives the next.
#[derive(Drop)]
struct Watched<'a> {
    left: &'a [u8],
    looks: Vec<Look<'a>>,
    alloc: Global,
}

/// Notes what stands now. Where memory is wanting nothing is noted.
fn note<'a>(alloc: Global, looks: &mut Vec<Look<'a>>, left: &'a [u8], shown: &BytesOut)
    ensures { Notes {X = Moment} (record { left = Some left.now; taken = Some shown.now.taken })
        (map (λ l. record { left = Some l.left.now; taken = Some l.printed.items }) looks.old.items)
        (map (λ l. record { left = Some l.left.now; taken = Some l.printed.items }) looks.new.items) }
{
    if let Ok(printed) = shown.bytes().to_vec(alloc) {
        let _ = looks.push(Look { left, printed });
    }
}

/// Puts the next byte into the front of a buffer, if there are both.
fn give(left: &[u8], buf: &mut [u8]) -> usize
    ensures count { result ≡ min (min (length left.now) (length buf.old)) 1 }
    ensures front { take result buf.new ≡ take result left.now }
    ensures room { length buf.new ≡ length buf.old }
{
    let count = left.len().min(buf.len()).min(1);
    buf[..count].copy_from_slice(&left[..count]);
    count
}

impl<'a> Source<BytesOut> for Watched<'a> {
    ghost seen = { λ s. record {
      left = Some s.left.now;
      asked = map (λ l. record { left = Some l.left.now; taken = Some l.printed.items }) s.looks.items;
      faults = 0;
    } };

    fn read(&mut self, buf: &mut [u8], shown: &BytesOut) -> Result<usize, Failed> {
        note(self.alloc, &mut self.looks, self.left, shown);
        let count = give(self.left, buf);
        self.left = &self.left[count..];
        Ok(count)
    }
}

/// What has to stand printed where so many bytes of the rows are left.
fn printed_at(left: usize) -> &'static str {
    match left {
        0 => "out1\n0.7998046875\n1.5\n",
        1..3 => "out1\n0.7998046875\n",
        3..7 => "out1\n",
        _ => "",
    }
}

#[test]
fn each_answer_stands_before_the_next_row(rt: HostRuntime) -> Result<(), Fail> {
    let alloc = rt.alloc();
    let mut input = Watched {
        left: b"x\n0.3\n1\n",
        looks: Vec::new(alloc),
        alloc,
    };
    let answer = call(alloc, &["run", "a"], &mut input, 0)?;
    assert!(rt; answer.status == Status::DONE && input.looks.len() == 9);
    for look in &input.looks {
        assert!(rt;
            look.printed.as_slice() == printed_at(look.left.len()).as_bytes(),
            "{} left",
            look.left.len()
        );
    }
    Ok(())
}
