//! The words that the states begin with.

ghost use Rattle.std.specs.Prelude.{◌≡◌, ◌++◌, map, OnOk, IfOk};
ghost use Rattle.fx_model.specs.Machine.{starts_of, start_words};
ghost use Rattle.fx_program.specs.CodeView.{code_of};
ghost use Rattle.fx_c99.specs.CText.{starts_text};

use crate::statement::put_start;
use fx_program::Code;
use std::alloc::{AllocError, Global};

// Puts the start word of a state's code behind the others.
fn take_start(code: Code, words: &mut Vec<i64>) -> Result<(), AllocError>
    ensures { OnOk result (words.new.items ≡ words.old.items ++ starts_of (code_of code)) }
{
    match code {
        Code::State { w, .. } => {
            words.push(w)?;
            Ok(())
        }
        _ => Ok(()),
    }
}

/// The words that the states' codes name.
pub fn start_words(alloc: Global, codes: &[Code]) -> Result<Vec<i64>, AllocError>
    ensures { IfOk result (λ words. words.items ≡ start_words (map code_of codes.now)) }
{
    let mut words = Vec::new(alloc);
    for code in codes {
        take_start(*code, &mut words)?;
    }
    Ok(words)
}

/// A line for each of them.
pub fn put_starts(out: &mut Vec<u8>, words: &[i64]) -> Result<(), AllocError>
    ensures { OnOk result (out.new.items ≡ out.old.items ++ starts_text 0 words.now) }
{
    for k in 0..words.len() {
        put_start(out, k, words[k])?;
    }
    Ok(())
}
