ghost use Rattle.std.specs.Prelude.{◌≡◌, ◌<◌, ◌≤◌, ◌+◌, ℕ};
ghost use Rattle.position_rank.specs.LiveRanks.{live_positions, live_rank_of};
ghost use Rattle.turn_rule.specs.Games.{kinds_of};
ghost use Rattle.turn_rule.specs.States.{IsState, pair_of};
ghost use Rattle.base_verify.specs.Findings.{turn_over};
ghost use Rattle.base_verify.specs.Checks.{TellsState, TellsBetween, word_place};

use crate::finding::Finding;
use database_file::Base;
use directed_fixed::{End, Pair};
use interval_words::Words;
use move_rules::PlayList;
use position_rank::Position;
use turn_rule::{RollEnds, one_list_gives_the_turn, sure_sources_answer};

/// The turn over the words of a list.
fn turn_of(words: &Words, ends: &RollEnds, kind: usize) -> Pair
    requires { IsState words.now.game ends.now kind }
    ensures { result ≡ pair_of (turn_over words.now) ends.now kind }
{
    one_list_gives_the_turn();
    sure_sources_answer();
    let mut reader = words.reader();
    ends.turn_bounds(words.stakes(), kind, &mut reader).unwrap()
}

/// Nothing, where both words of a state hold, else a finding of the first that doesn't.
fn state_finding(words: &Words, ends: &RollEnds, kind: usize) -> Option<Finding>
    requires { IsState words.now.game ends.now kind }
    ensures { TellsState words.now ends.now kind result }
{
    let stored = words.pair(ends.position(), kind);
    let turn = turn_of(words, ends, kind);
    if turn.lower().units() < stored.lower().units() {
        return Some(Finding {
            position: *ends.position(),
            kind,
            side: End::Lower,
            stored: stored.lower(),
            computed: turn.lower(),
        });
    }
    if stored.upper().units() < turn.upper().units() {
        return Some(Finding {
            position: *ends.position(),
            kind,
            side: End::Upper,
            stored: stored.upper(),
            computed: turn.upper(),
        });
    }
    None
}

/// Nothing, where no word of a state of a loaded file is tighter than the turn over the file's
/// words, else the first that is, the lower before the upper, with both values.
pub fn state_holds(
    base: &Base,
    position: &Position,
    kind: usize,
    list: &mut PlayList,
) -> Option<Finding>
    requires { IsState base.now.words.game position.now kind }
    ensures { TellsState base.now.words position.now kind result }
{
    state_finding(base.words(), &RollEnds::of(position, list), kind)
}

/// The first finding in the states of a position, in their order.
fn position_finding(words: &Words, ends: &RollEnds) -> Option<Finding>
    requires { (k : ℕ) → k < kinds_of words.now.game → IsState words.now.game ends.now k }
    ensures { TellsBetween words.now (word_place words.now (live_rank_of ends.now))
        (word_place words.now (live_rank_of ends.now + 1)) result }
{
    for kind in 0..words.stakes().kinds() {
        if let Some(finding) = state_finding(words, ends, kind) {
            return Some(finding);
        }
    }
    None
}

/// The first finding in the states of the positions from one live rank to before another, in their
/// order.
pub(crate) fn part_finding(words: &Words, from: u64, to: u64) -> Option<Finding>
    requires order { from ≤ to }
    requires inside { to ≤ live_positions words.now.game.checkers }
    ensures { TellsBetween words.now (word_place words.now from) (word_place words.now to) result }
{
    let mut list = PlayList::new();
    let mut ends = RollEnds::of(&Position::start(words.checkers()), &mut list);
    for rank in from..to {
        let position = words.index().unrank(rank);
        ends.fill(&position, &mut list);
        if let Some(finding) = position_finding(words, &ends) {
            return Some(finding);
        }
    }
    None
}
