ghost use Rattle.std.specs.Prelude.{◌≡◌};
ghost use Rattle.cube_actions.specs.Stakes.{no_kind};

use arrayvec::ArrayVec;
use directed_fixed::{Fixed, Pair};

/// An answer to a double that plays on: the kind in which the doubler then rolls, and how often its value counts.
#[derive(Clone, Copy, Default)]
pub struct Taken {
    pub kind: usize,
    pub factor: u8,
}

/// A right to double: what the doubler gets from a pass, and the other answers.
#[derive(Drop)]
pub struct Double {
    pub pass: Pair,
    pub answers: ArrayVec<Taken, 2>,
}

/// Where the cube is: the opponent's kind after the mover's play, what a single game, a gammon and a backgammon win,
/// and the mover's right to double before he rolls.
#[derive(Drop)]
pub struct Kind {
    pub next: usize,
    pub win: [Pair; 3],
    pub double: Option<Double>,
}

impl Default for Kind {
    ghost is_default = { λ kind. kind ≡ no_kind };

    /// A kind that wins nothing.
    fn default() -> Self {
        let nothing = Pair::exactly(Fixed::whole(0));
        Kind {
            next: 0,
            win: [nothing; 3],
            double: None,
        }
    }
}

impl Double {
    /// A double of the same pass and answers.
    pub fn copied(&self) -> Double
        ensures { (result.pass ≡ self.now.pass) × (result.answers.items ≡ self.now.answers.items) }
    {
        let mut answers = ArrayVec::new();
        for taken in self.answers.as_slice() {
            answers.push(*taken);
        }
        Double {
            pass: self.pass,
            answers,
        }
    }
}

impl Kind {
    /// The same kind.
    pub fn copied(&self) -> Kind
        ensures { result ≡ self.now }
    {
        let double = match &self.double {
            None => None,
            Some(double) => Some(double.copied()),
        };
        Kind {
            next: self.next,
            win: self.win,
            double,
        }
    }
}
