ghost use Rattle.std.specs.Prelude.{◌≡◌, ◌<◌, ◌≤◌, length};
ghost use Rattle.play_analyser.specs.Advice.{doubling_of, taken_of};
ghost use Rattle.play_analyser.specs.Bests.{IsFirstRow, best_of_answer, best_of_offer, moves_of};

use crate::advice::CubeAction;
use crate::answers::doubled_pair;
use crate::ranking::PlayRow;
use arrayvec::ArrayVec;
use cube_actions::{Answer, Offer};
use directed_fixed::Pair;
use move_rules::{Move, Play};

/// The moves of a play, which can be copied.
#[derive(Clone, Copy)]
pub struct Moves {
    pub list: [Move; 4],
    /// How many of them there are; those behind them mean nothing.
    pub many: usize,
}

/// What is advised where a player can choose.
#[derive(Clone, Copy)]
pub enum Advised {
    Play(Moves),
    Offer(Offer),
    Answer(Answer),
}

/// What was best where a player chose, and what it gives the side to move: a double as it is answered best.
#[derive(Clone, Copy)]
pub struct Best {
    pub advised: Advised,
    pub pair: Pair,
}

impl Moves {
    fn of(play: &Play) -> Moves
        ensures { moves_of result ≡ play.now.items }
    {
        let mut list = [Move::default(); 4];
        for i in 0..play.len() {
            list[i] = play[i];
        }
        Moves {
            list,
            many: play.len(),
        }
    }

    /// The play that has these moves.
    pub fn play(&self) -> Play
        ensures { result.items ≡ moves_of self.now }
    {
        let many = self.many.min(self.list.len());
        let mut play = Play::new();
        for step in &self.list[..many] {
            play.push(*step);
        }
        play
    }
}

/// The first of some plays, with its pair.
pub(crate) fn first_row(rows: &[PlayRow]) -> Best
    requires { 0 < length rows.now }
    ensures { IsFirstRow rows.now result }
{
    let row = &rows[0];
    Best {
        advised: Advised::Play(Moves::of(&row.entry.play)),
        pair: row.pair,
    }
}

/// What the answers that play on give.
pub(crate) fn taken_of(action: &CubeAction) -> ArrayVec<Pair, 2>
    ensures { result.items ≡ taken_of action.now }
{
    let mut taken = ArrayVec::new();
    taken.push(action.take);
    if let Some(beaver) = action.beaver {
        taken.push(beaver);
    }
    taken
}

/// What a double gives, as it is answered best.
pub(crate) fn doubling_of(action: &CubeAction) -> Pair
    ensures { result ≡ doubling_of action.now }
{
    doubled_pair(action.pass, taken_of(action).as_slice())
}

/// The offer that is advised, with its pair, where rolling gives this.
pub(crate) fn best_offer(rolling: Pair, action: &CubeAction) -> Best
    ensures { result ≡ best_of_offer rolling action.now }
{
    let pair = match action.offer {
        Offer::NoDouble => rolling,
        Offer::Double => doubling_of(action),
    };
    Best {
        advised: Advised::Offer(action.offer),
        pair,
    }
}

/// The answer that is advised, with its pair.
pub(crate) fn best_answer(action: &CubeAction) -> Best
    ensures { result ≡ best_of_answer action.now }
{
    let pair = match action.answer {
        Answer::Take => action.take,
        Answer::Pass => action.pass,
        Answer::Beaver => action.beaver.unwrap_or(action.take),
    };
    Best {
        advised: Advised::Answer(action.answer),
        pair,
    }
}
