//! What is known of a node's point while its users' points are open.
use crate::choice::{Choice, Choices};
use fx_search_numbers::Rounded;

/// An exact literal, or its negation: any point from `least` to `greatest` costs nothing.
#[derive(Clone, Copy)]
pub struct Exact {
    /// The least point at which its word is exact.
    pub least: i8,
    /// The greatest at which it fits.
    pub greatest: i8,
}

impl Exact {
    /// The finest point in a range.
    pub fn within(&self, from: i32, to: i32) -> Option<Choice> {
        let coarsest = i32::from(self.least).max(from);
        let finest = i32::from(self.greatest).min(to);
        if coarsest <= finest {
            Some(Choice::alone(finest as i8, Rounded::ZERO))
        } else {
            None
        }
    }

    /// Its choice of a point.
    pub fn at(&self, point: i32) -> Option<Choice> {
        self.within(point, point)
    }

    /// Its finest points.
    fn listed(&self) -> Choices {
        Choices::down_from(i32::from(self.greatest), Choice::POINTS, |f| {
            self.at(i32::from(f))
        })
    }

    /// An exact literal's points up to a cap.
    fn capped(&self, cap: i32) -> Option<Exact> {
        match self.within(i32::from(self.least), cap) {
            Some(finest) => Some(Exact {
                least: self.least,
                greatest: finest.point,
            }),
            None => None,
        }
    }
}

/// The points that a node may have.
#[derive(Clone, Copy)]
pub enum Entry {
    /// Those of an exact literal that is used once.
    Exact(Exact),
    /// These.
    Listed(Choices),
}

impl Entry {
    /// The finest point.
    pub fn finest(&self) -> Option<i32> {
        match self {
            Entry::Exact(x) => Some(i32::from(x.greatest)),
            Entry::Listed(list) => match list.finest() {
                Some(choice) => Some(i32::from(choice.point)),
                None => None,
            },
        }
    }

    /// The cheapest, of equal costs the coarsest.
    pub fn best(&self) -> Option<Choice> {
        match self {
            Entry::Exact(x) => Some(Choice::alone(x.least, Rounded::ZERO)),
            Entry::Listed(list) => list.best(),
        }
    }

    /// The cheapest with a point in a range, of equal costs the finest.
    pub fn cheapest(&self, from: i32, to: i32) -> Option<Choice> {
        match self {
            Entry::Exact(x) => x.within(from, to),
            Entry::Listed(list) => list.cheapest(from, to),
        }
    }

    /// The one at a point.
    pub fn at(&self, point: i32) -> Option<Choice> {
        match self {
            Entry::Exact(x) => x.at(point),
            Entry::Listed(list) => list.at(point),
        }
    }

    /// At most eight of the points.
    pub fn listed(&self) -> Choices {
        match self {
            Entry::Exact(x) => x.listed(),
            Entry::Listed(list) => *list,
        }
    }

    /// The points up to a cap, each for itself: a negation and a copy shift nothing.
    pub fn passed_on(&self, cap: i32) -> Option<Entry> {
        match self {
            Entry::Exact(x) => match x.capped(cap) {
                Some(capped) => Some(Entry::Exact(capped)),
                None => None,
            },
            Entry::Listed(list) => Some(Entry::Listed(list.capped(cap))),
        }
    }

    /// One choice alone: a node that is used more than once has one point for all.
    pub fn alone(choice: Choice) -> Entry {
        let mut list = Choices::new();
        list.add(choice);
        Entry::Listed(list)
    }
}
