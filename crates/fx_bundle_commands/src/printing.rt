//! One text, written where there was memory for it.
ghost use Rattle.std.specs.Prelude.{◌≡◌, ℕ, List, IfOk};
ghost use Rattle.fx_ends.specs.EndView.{end_of};
ghost use Rattle.fx_bundle_commands.specs.OpeningView.{IsSilent};
ghost use Rattle.fx_bundle_commands.specs.commands.Sheets.{TextEnds};

use fx_base::{Sink, put_all};
use fx_ends::End;
use fx_num::Memory;

/// Writes a text. Where memory lacked for it, nothing is written.
pub fn print_text<K: Sink>(made: Result<Vec<u8>, Memory>, output: &mut K) -> End<'static>
    ensures ended { (text : List ℕ) → IfOk made (λ t. t.items ≡ text) →
        TextEnds text (K.seen output.old) (K.seen output.new) (end_of result) }
    ensures quiet { IsSilent (end_of result) → output.new ≡ output.old }
{
    let Ok(text) = made else {
        return End::NoMemory;
    };
    match put_all(output, text.as_slice()) {
        Ok(()) => End::Done,
        Err(_) => End::WriteFault,
    }
}
