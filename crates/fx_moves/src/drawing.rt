//! Draws: every choice of a search is one.
ghost use Rattle.std.specs.Prelude.{◌≡◌, ◌≤◌, ◌<◌, ◌%◌, IfSome};
ghost use Rattle.rand_core.specs.Stream.{next_u32};

use rand_core::Rng;

/// The next word of a generator, modulo `below`.
pub fn draw<R: Rng>(rng: &mut R, below: u32) -> u32
    requires { 1 ≤ below }
    ensures value { result ≡ (next_u32 (R.stream rng.old)).0 % below }
    ensures rest { R.stream rng.new ≡ (next_u32 (R.stream rng.old)).1 }
{
    rng.next_u32() % below
}

/// The number of one of so many, if there are any.
pub fn draw_index<R: Rng>(rng: &mut R, count: usize) -> Option<usize>
    ensures { IfSome result (λ i. i < count) }
{
    let below = u32::try_from(count).ok()?;
    if below == 0 {
        return None;
    }
    Some(draw(rng, below) as usize)
}
