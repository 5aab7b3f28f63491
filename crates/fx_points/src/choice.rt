//! The points that a node may have.
ghost use Rattle.std.specs.Prelude.{◌≤◌};

use fx_program::is_point;
use fx_search_numbers::Rounded;

/// A point that a node may have.
#[derive(Clone, Copy)]
pub struct Choice {
    /// The point.
    pub point: i8,
    /// The least cost that leads there.
    pub cost: Rounded,
    /// The point of the only or left operand then.
    pub left: i8,
    /// The point of the right operand then.
    pub right: i8,
}

impl Choice {
    /// How many points of a node are looked at.
    pub const POINTS: i32 = 8;

    /// A point, at which operands have the same.
    pub fn alone(point: i8, cost: Rounded) -> Choice {
        Choice {
            point,
            cost,
            left: point,
            right: point,
        }
    }

    /// The choice with the operands' points exchanged.
    pub fn turned(self) -> Choice {
        Choice {
            left: self.right,
            right: self.left,
            ..self
        }
    }
}

/// The cheaper of both, the first where they cost the same.
pub fn cheaper(first: Option<Choice>, second: Option<Choice>) -> Option<Choice> {
    match (first, second) {
        (Some(x), Some(y)) => Some(if y.cost < x.cost { y } else { x }),
        (Some(x), None) => Some(x),
        (None, y) => y,
    }
}

/// The point, if a word can have it.
fn point_at(f: i32) -> Option<i8> {
    if is_point(f) { Some(f as i8) } else { None }
}

/// At most eight choices, the finest point first.
#[derive(Clone, Copy)]
pub struct Choices {
    list: [Choice; 8],
    count: usize,
    ghost few: { count ≤ 8 },
}

impl Choices {
    /// None yet.
    pub fn new() -> Choices {
        Choices {
            list: [Choice::alone(0, Rounded::ZERO); 8],
            count: 0,
        }
    }

    /// The choices at so many points from the greatest down, where there are any.
    pub fn down_from<F: Fn(i8) -> Option<Choice>>(top: i32, points: i32, choose: F) -> Choices
        requires { F.IsAlwaysCallable choose }
    {
        let mut list = Choices::new();
        for i in 0..points {
            if let Some(f) = point_at(top.saturating_sub(i)) {
                if let Some(choice) = choose(f) {
                    list.add(choice);
                }
            }
        }
        list
    }

    /// Appends a choice where there is room.
    pub fn add(&mut self, choice: Choice) {
        if self.count < 8 {
            self.list[self.count] = choice;
            self.count += 1;
        }
    }

    /// The choices, in order.
    pub fn as_slice(&self) -> &[Choice] {
        &self.list[..self.count]
    }

    /// The finest.
    pub fn finest(&self) -> Option<Choice> {
        self.as_slice().first().copied()
    }

    /// The cheapest, of equal costs the coarsest.
    pub fn best(&self) -> Option<Choice> {
        self.as_slice().iter().rev().min_by_key(|c| c.cost).copied()
    }

    /// The cheapest with a point in a range, of equal costs the finest.
    pub fn cheapest(&self, from: i32, to: i32) -> Option<Choice> {
        self.as_slice()
            .iter()
            .filter(|c| from <= i32::from(c.point) && i32::from(c.point) <= to)
            .min_by_key(|c| c.cost)
            .copied()
    }

    /// The one at a point.
    pub fn at(&self, point: i32) -> Option<Choice> {
        self.as_slice()
            .iter()
            .find(|c| i32::from(c.point) == point)
            .copied()
    }

    /// Those up to a cap, for a node whose operand has the same point.
    pub fn capped(&self, cap: i32) -> Choices {
        let mut list = Choices::new();
        for c in self.as_slice() {
            if i32::from(c.point) <= cap {
                list.add(Choice::alone(c.point, c.cost));
            }
        }
        list
    }

    /// Each with the operands' points exchanged.
    pub fn turned(&self) -> Choices {
        let mut list = Choices::new();
        for c in self.as_slice() {
            list.add(c.turned());
        }
        list
    }
}
