ghost use Rattle.std.specs.Prelude.{◌≡◌, ◌<◌, ◌^◌, ◌*◌, ℕ, pos, neg_ℤ, ◌*ℤ◌, All, length};
ghost use Rattle.std.specs.Int.{int_max};
ghost use Rattle.position_rank.specs.Placement.{Placement, swap};
ghost use Rattle.move_rules.specs.Order.{ends_of};
ghost use Rattle.directed_fixed.specs.Bounds.{IsWithin, IsWithinUnits, other};
ghost use Rattle.cube_actions.specs.declared.name.StakesName.TheVariants.{Match};
ghost use Rattle.cube_actions.specs.declared.side.Side.TheVariants.{Near, Far};
ghost use Rattle.cube_actions.specs.Scores.{other_side};
ghost use Rattle.cube_actions.specs.Stakes.{point_units};
ghost use Rattle.turn_rule.specs.Turn.{greatest};
ghost use Rattle.turn_rule.specs.States.{IsState};
ghost use Rattle.interval_words.specs.WordLists.{words_in_list};
ghost use Rattle.match_scores.specs.Openings.{centred_in, opening_worth, opened_by, outwards_30, start_at, start_over};

use cube_actions::{Score, Side};
use directed_fixed::{End, Fixed, Pair, ceil_div, floor_div};
use interval_words::Words;
use move_rules::{Entry, PlayList, opening_plays_go_on, plays};
use position_rank::Position;
use roll_table::openings;
use turn_rule::{end_of, other_end};

/// The number of the kind in which a side is to roll with the cube centred.
fn centred(score: Score, side: Side) -> usize
    ensures { result ≡ centred_in score side }
{
    // The centred cube is the first of its places, with the near side to roll before the far side.
    let _ = score;
    match side {
        Side::Near => 0,
        Side::Far => 1,
    }
}

/// The side that plays against this one.
fn other_side(side: Side) -> Side
    ensures { result ≡ other_side side }
{
    match side {
        Side::Near => Side::Far,
        Side::Far => Side::Near,
    }
}

/// What a side has, at one end, after its opening play: what the other side hasn't, which rolls next.
#[inline]
fn worth_at(end: End, words: &Words, score: Score, side: Side, left: &Position) -> Fixed
    requires state { IsState words.now.game (swap left.now) (centred_in score (other_side side)) }
    ensures worth { result
        ≡ opening_worth (words_in_list words.now (other end)) score side left.now }
    ensures within { IsWithinUnits words.now.game.stakes.bound result }
{
    let kind = centred(score, other_side(side));
    let theirs = words.pair(&left.swap(), kind);
    end_of(other_end(end), theirs).neg()
}

/// The greatest worth of a side's opening plays, at one end.
fn best_at(end: End, words: &Words, score: Score, side: Side, entries: &[Entry]) -> Fixed
    requires some { 0 < length entries.now }
    requires states { All (λ (left : Placement).
        IsState words.now.game (swap left) (centred_in score (other_side side))) (ends_of entries.now) }
    ensures best { result
        ≡ greatest (opening_worth (words_in_list words.now (other end)) score side)
        (ends_of entries.now) }
    ensures within { IsWithinUnits words.now.game.stakes.bound result }
{
    let mut best = worth_at(end, words, score, side, &entries[0].end);
    for i in 1..entries.len() {
        best = best.max(worth_at(end, words, score, side, &entries[i].end));
    }
    best
}

/// The sum over the 15 opening rolls of what a side's best plays are worth, at one end.
fn opened_by(side: Side, end: End, words: &Words, score: Score, list: &mut PlayList) -> Fixed
    requires name { words.now.game.stakes.name ≡ Match score }
    ensures sum { result
        ≡ opened_by side words.now.game.checkers (words_in_list words.now (other end)) score }
    ensures within { IsWithinUnits (pos (15 * 2 ^ 32)) result }
{
    words.right();
    opening_plays_go_on();
    // The stakes have a kind for each name of the score.
    let _kinds = words.stakes().kinds();
    let start = Position::start(words.checkers());
    let mut sum = Fixed::whole(0);
    for roll in &openings() {
        plays(&start, *roll, list);
        sum = sum.add(best_at(end, words, score, side, list.as_slice()));
    }
    sum
}

/// One end of what the near side has of the game at a score.
fn start_at(end: End, score: Score, words: &Words, list: &mut PlayList) -> Fixed
    requires name { words.now.game.stakes.name ≡ Match score }
    ensures start { result
        ≡ start_at end words.now.game.checkers (words_in_list words.now) score }
    ensures within { IsWithinUnits (point_units 1) result }
{
    let near = opened_by(Side::Near, end, words, score, list);
    let far = opened_by(Side::Far, other_end(end), words, score, list);
    thirtieth(end, near.add(far.neg()))
}

/// A 30th, rounded to a lower bound or to an upper bound.
fn thirtieth(end: End, sum: Fixed) -> Fixed
    requires { IsWithinUnits (pos (30 * 2 ^ 32)) sum }
    ensures rounded { result ≡ outwards_30 end sum }
    ensures within { IsWithinUnits (point_units 1) result }
{
    let units = match end {
        End::Lower => floor_div(sum.units(), 30),
        End::Upper => ceil_div(sum.units(), 30),
    };
    Fixed::new(units).unwrap()
}

/// What the near side has of the game at a score before the first play, from the words of its states: each of 15 opening
/// rolls comes as often for the near side as for the far side, and each side plays it best. Both ends are within one
/// point, as a match counts as one.
pub fn start_pair(score: Score, words: &Words) -> Pair
    requires name { words.now.game.stakes.name ≡ Match score }
    ensures start { result ≡ start_over words.now.game.checkers (words_in_list words.now) score }
    ensures within { IsWithin (point_units 1) result }
{
    words.right();
    opening_plays_go_on();
    // As in `opened_by`, the stakes have a kind for each name of the score.
    let _kinds = words.stakes().kinds();
    let mut list = PlayList::new();
    let lower = start_at(End::Lower, score, words, &mut list);
    let upper = start_at(End::Upper, score, words, &mut list);
    Pair::new(lower, upper)
}
