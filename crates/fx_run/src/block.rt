//! Sixteen rows that lie one behind the other, each in its place.
//!
//! The trap: all sixteen go through a program together, so the places behind the last row have to hold rows in range
//! too. The first row of all is therefore put in each place.
ghost use Rattle.std.specs.Prelude.{◌≡◌, ◌⊎◌, ◌≤◌, ◌<◌, ◌+◌, ◌*◌, ◌++◌, ◌∷◌, ℕ, List, [], length, map, IsTrue};
ghost use Rattle.fx_rational.specs.Decimal.{decimal_value};
ghost use Rattle.fx_model.specs.Function.{Input};
ghost use Rattle.fx_model.specs.Rows.{IsInRange};
ghost use Rattle.fx_lanes.specs.RowsSideBySide.{row_at};
ghost use Rattle.fx_run.specs.Blocks.{IsBlockInRange, first_rows};

use fx_fraction::Decimal;
use fx_lanes::put_at;

// Puts a row in all sixteen places.
fn fill(rows: &mut [Decimal], row: &[Decimal])
    requires many { length rows.old ≡ 16 * length row.now }
    requires few { length row.now ≤ 64 }
    ensures same { length rows.new ≡ length rows.old }
    ensures put { (k : ℕ) → k < 16 → row_at (length row.now) k rows.new ≡ row.now }
{
    for k in 0..16usize {
        put_at(rows, k, row);
    }
}

/// Puts a row in place `k` of sixteen, behind those before it.
pub(crate) fn put_behind(rows: &mut [Decimal], k: usize, filled: bool, row: &[Decimal])
    requires many { length rows.old ≡ 16 * length row.now }
    requires few { length row.now ≤ 64 }
    requires within { k < 16 }
    requires filled { (k ≡ 0) ⊎ IsTrue filled }
    ensures same { length rows.new ≡ length rows.old }
    ensures rows { first_rows (length row.now) (k + 1) rows.new ≡ first_rows (length row.now) k rows.old ++ row.now
        ∷ [] }
    ensures in_range { (is : List Input) → IsInRange is (map decimal_value row.now) →
        (IsTrue filled → IsBlockInRange is (length row.now) rows.old)
        → IsBlockInRange is (length row.now) rows.new }
{
    if filled {
        put_at(rows, k, row);
    } else {
        fill(rows, row);
    }
}
