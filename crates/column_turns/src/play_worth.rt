ghost use Rattle.std.specs.Prelude.{◌≡◌, ◌<◌, ◌↔◌, IsTrue, sum};
ghost use Rattle.position_rank.specs.Placement.{IsLive, swap};
ghost use Rattle.position_rank.specs.Ranks.{square_rank_of};
ghost use Rattle.move_rules.specs.Payoff.{points};
ghost use Rattle.move_rules.specs.declared.payoff.Won.{Won as WonData};
ghost use Rattle.directed_fixed.specs.Bounds.{IsWithin, IsWithinUnits};
ghost use Rattle.turn_rule.specs.Turn.{win};
ghost use Rattle.turn_rule.specs.Looks.{Source};
ghost use Rattle.turn_rule.specs.Found.{LeavesState, IsFoundOf, of_play};
ghost use Rattle.column_turns.specs.Moments.{IsLater};

use cube_actions::Kind;
use directed_fixed::{End, Fixed};
use move_rules::Won;
use position_rank::Position;
use turn_rule::{Pairs, end_of, other_end, win_of, word_of};

/// What the mover has after a play that leaves these checkers, at one end: his win, or what the other side hasn't. 0 where no play leaves them.
/// How he has won and whether the other side's position is live is at hand.
#[inline]
pub(crate) fn play_worth<P: Pairs>(
    end: End,
    left: &Position,
    won: Option<Won>,
    live: bool,
    square: u64,
    kind: &Kind,
    pairs: &mut P,
) -> Fixed
    requires sure { IsTrue (P.seen pairs.old).source.sure }
    requires many { sum left.now.mover ≡ (P.seen pairs.old).source.checkers }
    requires won { won ≡ points left.now }
    requires live { IsTrue live ↔ IsLive (swap left.now) }
    requires next { kind.now.next < (P.seen pairs.old).source.kinds }
    requires wins { (won : WonData)
        → IsWithin (P.seen pairs.old).source.bound (win kind.now won) }
    requires square { square ≡ square_rank_of (swap left.now) }
    ensures found { LeavesState (P.seen pairs.old).source kind.now.next left.now
        → IsFoundOf end (of_play kind.now left.now) (P.seen pairs.old).source
        (P.seen pairs.new).notes result }
    ensures within { IsWithinUnits (P.seen pairs.old).source.bound result }
    ensures later { IsLater (P.seen pairs.old) (P.seen pairs.new) }
    ensures stays { P.stays pairs.new ≡ P.stays pairs.old }
{
    match won {
        Some(won) => end_of(end, win_of(kind, won)),
        None => {
            if live {
                let theirs = left.swap();
                let word = word_of(other_end(end), &theirs, square, kind.next, pairs);
                word.unwrap().neg()
            } else {
                Fixed::whole(0)
            }
        }
    }
}
