//! Rows that lie one behind the other, until there are sixteen.

ghost use Rattle.std.specs.Prelude.{◌≡◌, ◌≢◌, ◌<◌, ◌≤◌, ◌*◌, ℕ, length};
ghost use Rattle.fx_lanes.specs.RowsSideBySide.{row_at};

use fx_fraction::Decimal;

/// Puts a row in place `k` of sixteen.
pub fn put_at(rows: &mut [Decimal], k: usize, row: &[Decimal])
    requires many { length rows.old ≡ 16 * length row.now }
    requires few { length row.now ≤ 64 }
    requires within { k < 16 }
    ensures same { length rows.new ≡ length rows.old }
    ensures put { row_at (length row.now) k rows.new ≡ row.now }
    ensures others { (j : ℕ) → j < 16 → j ≢ k →
        row_at (length row.now) j rows.new ≡ row_at (length row.now) j rows.old }
{
    let from = k * row.len();
    rows[from..from + row.len()].copy_from_slice(row);
}
