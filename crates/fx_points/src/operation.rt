//! The points of inputs, sums, products and quotients, by those of their operands.
//!
//! Every list begins at the finest point that serves and goes down one by one. A point whose shifts no program may have
//! is left out.
use crate::choice::{Choice, Choices, cheaper};
use crate::entry::{Entry, Exact};
use fx_program::Round;
use fx_search_numbers::Rounded;

/// How far the points of a node may go.
#[derive(Clone, Copy)]
pub struct Room {
    /// The greatest point.
    pub cap: i8,
    /// The bits of a word.
    pub width: i8,
    /// How products round.
    pub round: Round,
}

/// What a floor at a point may lose.
fn unit(f: i8) -> Rounded {
    Rounded::power(-i32::from(f))
}

/// What the nearest word at a point is off at most.
fn half_unit(f: i8) -> Rounded {
    Rounded::power(-1 - i32::from(f))
}

/// The points of an input, which is read with one floor and errs twice as far as it is given.
pub fn input(error: Rounded, cap: i8) -> Choices {
    let given = error.plus(error);
    Choices::down_from(i32::from(cap), Choice::POINTS, |f| {
        Some(Choice::alone(f, unit(f).plus(given)))
    })
}

/// A choice with the floor at point `f`.
fn floored(choice: Option<Choice>, f: i8) -> Option<Choice> {
    match choice {
        Some(c) => Some(Choice {
            cost: c.cost.plus(unit(f)),
            ..c
        }),
        None => None,
    }
}

/// The cheapest point of an operand of a sum at point `f`, with the floor where it is finer.
fn term(operand: &Entry, f: i8, width: i8) -> Option<Choice> {
    let point = i32::from(f);
    let kept = operand.cheapest(point - i32::from(width), point);
    let shifted = operand.cheapest(point + 1, point + 64);
    cheaper(floored(shifted, f), kept)
}

/// The choice of a sum at point `f`.
fn sum_at(a: &Entry, b: &Entry, f: i8, width: i8) -> Option<Choice> {
    match (term(a, f, width), term(b, f, width)) {
        (Some(x), Some(y)) => Some(Choice {
            point: f,
            cost: x.cost.plus(y.cost),
            left: x.point,
            right: y.point,
        }),
        _ => None,
    }
}

/// The points of a sum or a difference.
pub fn sum(a: &Entry, b: &Entry, room: Room) -> Option<Choices> {
    match (a.finest(), b.finest()) {
        (Some(x), Some(y)) => {
            let top = x.max(y).min(i32::from(room.cap));
            Some(Choices::down_from(top, Choice::POINTS, |f| sum_at(a, b, f, room.width)))
        }
        _ => None,
    }
}

/// What a product's shift loses at point `f`, if it may have the shift.
fn product_roundoff(shift: i32, f: i8, room: Room) -> Option<Rounded> {
    if shift > 2 * i32::from(room.width) - 2 {
        None
    } else if shift == 0 {
        Some(Rounded::ZERO)
    } else {
        Some(match room.round {
            Round::Floor => unit(f),
            Round::Nearest => half_unit(f),
        })
    }
}

/// How far a product at point `f` is shifted at the least, where the literal has no point below `least`.
fn least_shift(least: i8, x: i8, f: i8) -> i32 {
    (i32::from(least) + i32::from(x) - i32::from(f)).max(0)
}

/// The choice of the product of an exact literal and `x` at point `f`: the literal's point is the least that keeps all.
fn scaled_choice(literal: Exact, size: Rounded, x: &Choice, f: i8, room: Room) -> Option<Choice> {
    let shift = least_shift(literal.least, x.point, f);
    let wanted = i32::from(f) - i32::from(x.point);
    match (
        product_roundoff(shift, f, room),
        literal.at(wanted.saturating_add(shift)),
    ) {
        (Some(roundoff), Some(factor)) => Some(Choice {
            point: f,
            cost: size.times(x.cost).plus(roundoff),
            left: factor.point,
            right: x.point,
        }),
        _ => None,
    }
}

/// The choice of the product of an exact literal and another node at point `f`.
fn scaled_at(literal: Exact, size: Rounded, other: &Choices, f: i8, room: Room) -> Option<Choice> {
    let mut best = None;
    for x in other.as_slice() {
        best = cheaper(best, scaled_choice(literal, size, x, f, room));
    }
    best
}

/// The points of the product of an exact literal, on the left, and another node.
fn scaled(literal: Exact, size: Rounded, other: &Choices, room: Room) -> Option<Choices> {
    match other.finest() {
        Some(finest) => {
            let all = i32::from(finest.point) + i32::from(literal.greatest);
            let top = all.min(i32::from(room.cap));
            Some(Choices::down_from(top, Choice::POINTS, |f| {
                scaled_at(literal, size, other, f, room)
            }))
        }
        None => None,
    }
}

/// The choice of a product at point `f`, which costs so much before its shift.
fn product_at(x: &Choice, y: &Choice, cost: Rounded, f: i8, room: Room) -> Option<Choice> {
    let shift = i32::from(x.point) + i32::from(y.point) - i32::from(f);
    match product_roundoff(shift, f, room) {
        Some(roundoff) => Some(Choice {
            point: f,
            cost: cost.plus(roundoff),
            left: x.point,
            right: y.point,
        }),
        None => None,
    }
}

/// The points of a product whose operands have these points.
fn product_of(x: &Choice, y: &Choice, cost: Rounded, room: Room) -> Choices {
    let top = (i32::from(x.point) + i32::from(y.point)).min(i32::from(room.cap));
    Choices::down_from(top, Choice::POINTS, |f| product_at(x, y, cost, f, room))
}

/// The points of a product whose operands have the points that are best for them.
fn whole_product(a: Factor, b: Factor, room: Room) -> Option<Choices> {
    match (a.entry.best(), b.entry.best()) {
        (Some(x), Some(y)) => {
            let cost = b.size.times(x.cost).plus(a.size.times(y.cost));
            Some(product_of(&x, &y, cost, room))
        }
        _ => None,
    }
}

/// An operand of a product, with the size of its range.
#[derive(Clone, Copy)]
pub struct Factor<'a> {
    pub entry: &'a Entry,
    pub size: Rounded,
}

/// The points of a product.
pub fn product(a: Factor, b: Factor, room: Room) -> Option<Choices> {
    match (a.entry, b.entry) {
        (Entry::Exact(x), Entry::Listed(list)) => scaled(*x, a.size, list, room),
        (Entry::Listed(list), Entry::Exact(x)) => match scaled(*x, b.size, list, room) {
            Some(choices) => Some(choices.turned()),
            None => None,
        },
        _ => whole_product(a, b, room),
    }
}

/// The choice of a quotient at point `f`, for each of the divisor's points.
fn quotient_at(a: &Entry, b: &Choices, rates: Rates, f: i8, width: i8) -> Option<Choice> {
    let mut best = None;
    for y in b.as_slice() {
        let to = i32::from(f) + i32::from(y.point);
        let x = a.cheapest(to - i32::from(width), to);
        best = cheaper(best, rates.choice(x, Some(*y), f));
    }
    best
}

/// The choice of a quotient by an exact literal at point `f`, for each of the dividend's points.
fn divided_at(a: &Choices, b: Exact, rates: Rates, f: i8, width: i8) -> Option<Choice> {
    let mut best = None;
    for x in a.as_slice() {
        let from = i32::from(x.point) - i32::from(f);
        let y = b.within(from, from + i32::from(width));
        best = cheaper(best, rates.choice(Some(*x), y, f));
    }
    best
}

/// How the costs of a quotient's operands count.
#[derive(Clone, Copy)]
pub struct Rates {
    /// One over the least size of the divisor.
    pub inverse: Rounded,
    /// The size of the quotient.
    pub size: Rounded,
}

impl Rates {
    /// The choice of a quotient at point `f`, if both operands have one.
    fn choice(self, x: Option<Choice>, y: Option<Choice>, f: i8) -> Option<Choice> {
        match (x, y) {
            (Some(x), Some(y)) => Some(self.quotient_choice(x, y, f)),
            _ => None,
        }
    }

    /// The choice of a quotient at point `f`, whose floor errs to both sides.
    fn quotient_choice(self, x: Choice, y: Choice, f: i8) -> Choice {
        let passed = x.cost.plus(self.size.times(y.cost)).times(self.inverse);
        let cost = passed.plus(unit(f)).plus(unit(f));
        Choice {
            point: f,
            cost,
            left: x.point,
            right: y.point,
        }
    }
}

/// The points of a quotient. More are looked at than of other nodes, since the finest may ask for too great a shift.
pub fn quotient(a: &Entry, b: &Entry, rates: Rates, room: Room) -> Choices {
    let top = i32::from(room.cap);
    let points = Choice::POINTS + 4;
    match b {
        Entry::Exact(y) => {
            let dividends = a.listed();
            Choices::down_from(
                top,
                points,
                |f| divided_at(&dividends, *y, rates, f, room.width),
            )
        }
        Entry::Listed(list) => {
            Choices::down_from(top, points, |f| quotient_at(a, list, rates, f, room.width))
        }
    }
}
