//! A point by its size, and the grid of the errors at it.

ghost use Rattle.std.specs.Prelude.{◌≡◌, ◌≤◌};
ghost use Rattle.fx_model.specs.LawfulProgram.{IsPoint};
ghost use Rattle.fx_outward.specs.Grid.{error_grid};
ghost use Rattle.fx_outward.specs.Places.{IsPlace};

/// A point: `k`, or `-1 - k`.
#[derive(Clone, Copy, Debug)]
pub enum Place {
    High(u32),
    Low(u32),
}

/// The point by its size.
pub fn split(f: i32) -> Place
    requires { IsPoint f }
    ensures { IsPlace result f }
{
    if f >= 0 {
        Place::High(f as u32)
    } else {
        Place::Low((-1 - f) as u32)
    }
}

/// How many binary places an error at this point has.
pub fn grid(f: i32) -> u32
    requires { IsPoint f }
    ensures value { result ≡ error_grid f }
    ensures few { result ≤ 70 }
{
    match split(f) {
        Place::High(k) => k + 8,
        Place::Low(k) => 7u32.saturating_sub(k),
    }
}
