//! The steps of the ladder: rooms that rise, with the part that planes of poles may lose.

/// A step of the ladder.
#[derive(Clone, Copy)]
pub struct Rung {
    /// The room of a chain, in 64ths of what it begins with.
    pub room: i128,
    /// The part of what a pole shrinks by that its plane may lose, in hundredths.
    pub part: i128,
}

/// All steps, the best first.
pub static RUNGS: [Rung; 24] = [
    Rung { room: 1, part: 5 },
    Rung { room: 2, part: 5 },
    Rung { room: 3, part: 5 },
    Rung { room: 4, part: 5 },
    Rung { room: 5, part: 10 },
    Rung { room: 6, part: 10 },
    Rung { room: 7, part: 10 },
    Rung { room: 8, part: 10 },
    Rung { room: 10, part: 10 },
    Rung { room: 12, part: 10 },
    Rung { room: 14, part: 20 },
    Rung { room: 16, part: 20 },
    Rung { room: 18, part: 20 },
    Rung { room: 20, part: 20 },
    Rung { room: 24, part: 20 },
    Rung { room: 28, part: 20 },
    Rung { room: 32, part: 40 },
    Rung { room: 40, part: 40 },
    Rung { room: 48, part: 40 },
    Rung { room: 56, part: 40 },
    Rung { room: 64, part: 40 },
    Rung { room: 80, part: 40 },
    Rung { room: 96, part: 40 },
    Rung {
        room: 128,
        part: 40,
    },
];
