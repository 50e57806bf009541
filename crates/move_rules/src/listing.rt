ghost use Rattle.std.specs.Prelude.{◌≡◌, ◌≢◌, IsTrue, ℕ, ◌+◌, ◌≤◌, ◌<◌, ◌↔◌, List, [], ◌∷◌, length, All, AllPairs, Contains};
ghost use Rattle.position_rank.specs.Placement.{Placement, IsPosition};
ghost use Rattle.move_rules.specs.Ends.{Line};
ghost use Rattle.move_rules.specs.Listing.{full, or_else, double_lines, pair_lines, AddsNewEnds, TakesIn, HasEnd, lines_of};
ghost use Rattle.move_rules.specs.declared.play.TheConstants.{MOST_PLAYS};
ghost use Rattle.move_rules.specs.Order.{PlayComesBefore, IsFirst, ends_of, plays_of};
ghost use Rattle.move_rules.specs.Sequences.{IsLegalEnd};

use crate::moves::after_move;
use crate::play::{Entry, Move, Play, PlayList};
use position_rank::Position;
use roll_table::Roll;

/// The legal plays of a roll, one for each end that can be reached: the first that reaches it. They stand in their order: those that begin with the
/// higher die first, and then by the first move that differs, the one from the higher place first. Where no move can be made, the list has the play of no
/// moves, whose end is the position.
pub fn plays(position: &Position, roll: Roll, list: &mut PlayList)
    ensures ends { (q : Placement)
        → Contains (ends_of list.new.items) q ↔ IsLegalEnd position.now roll q }
    ensures distinct { AllPairs (λ one another. one ≢ another) (ends_of list.new.items) }
    ensures first { All (λ entry.
        IsFirst position.now roll entry.play.items entry.end) list.new.items }
    ensures in_order { AllPairs PlayComesBefore (plays_of list.new.items) }
    ensures some { 0 < length list.new.items }
{
    // No more than three places hold a checker of the mover, so the list has room.
    let checkers = position.checkers();
    prove!(checkers <= 3);
    list.clear();
    let high = roll.high();
    let low = roll.low();
    if high == low {
        add_double(position, high, list);
    } else {
        add_pair(position, high, low, list);
    }
}

fn add_double(position: &Position, die: u8, list: &mut PlayList)
    requires valid { IsPosition position.now }
    requires low { 1 ≤ die }
    requires high { die ≤ 6 }
    requires empty { list.old.items ≡ [] }
    ensures { AddsNewEnds [] (double_lines position.now die) (lines_of list.new.items) }
{
    let dice = [die; 4];
    add_if_none(position, &dice, list);
    add_if_none(position, &dice[..3], list);
    add_if_none(position, &dice[..2], list);
    add_if_none(position, &dice[..1], list);
    add_if_none(position, &dice[..0], list);
}

fn add_pair(position: &Position, high: u8, low: u8, list: &mut PlayList)
    requires valid { IsPosition position.now }
    requires from { 1 ≤ low }
    requires in_order { low < high }
    requires to { high ≤ 6 }
    requires empty { list.old.items ≡ [] }
    ensures { AddsNewEnds [] (pair_lines position.now high low) (lines_of list.new.items) }
{
    add_all(position, &[high, low], list);
    add_all(position, &[low, high], list);
    add_if_none(position, &[high], list);
    add_if_none(position, &[low], list);
    add_if_none(position, &[], list);
}

/// AddsNewEnds the lines that use these dice in this order if the list is empty.
fn add_if_none(position: &Position, dice: &[u8], list: &mut PlayList)
    requires valid { IsPosition position.now }
    requires dice { All (λ die. (1 ≤ die) × (die ≤ 6)) dice.now }
    requires few { length dice.now ≤ 4 }
    ensures { (found : List Line) → AddsNewEnds [] found (lines_of list.old.items)
        → AddsNewEnds [] (or_else found (full dice.now [] position.now)) (lines_of list.new.items) }
{
    if list.is_empty() {
        add_all(position, dice, list);
    }
}

/// AddsNewEnds the lines that use these dice in this order.
fn add_all(position: &Position, dice: &[u8], list: &mut PlayList)
    requires dice { All (λ die. (1 ≤ die) × (die ≤ 6)) dice.now }
    requires few { length dice.now ≤ 4 }
    requires room { length list.old.items + length (full dice.now [] position.now) ≤ MOST_PLAYS }
    ensures { TakesIn list.old.items (full dice.now [] position.now) list.new.items }
{
    let mut play = Play::new();
    add_lines(position, dice, &mut play, list);
}

/// AddsNewEnds the lines that go on from here with these dice in this order.
fn add_lines(position: &Position, dice: &[u8], play: &mut Play, list: &mut PlayList)
    requires dice { All (λ die. (1 ≤ die) × (die ≤ 6)) dice.now }
    requires few { length play.old.items + length dice.now ≤ 4 }
    requires room { length list.old.items + length (full dice.now play.old.items position.now)
        ≤ MOST_PLAYS }
    ensures play { play.new.items ≡ play.old.items }
    ensures adds { TakesIn list.old.items
        (full dice.now play.old.items position.now) list.new.items }
{
    if dice.is_empty() {
        add_end(position, play, list);
        return;
    }
    let die = dice[0];
    let mut from = position.highest_below(26);
    while from > 0 {
        if let Some(next) = after_move(position, die, from) {
            play.push(Move { from, die });
            add_lines(&next, &dice[1..], play, list);
            play.pop();
        }
        from = position.highest_below(from);
    }
}

/// AddsNewEnds a play with the position that it leaves, unless the list has that position.
fn add_end(position: &Position, play: &Play, list: &mut PlayList)
    requires { length list.old.items < MOST_PLAYS }
    ensures { TakesIn list.old.items ((play.now.items, position.now) ∷ []) list.new.items }
{
    if reaches(list, position) {
        return;
    }
    list.push(Entry {
        play: copied(play),
        end: *position,
    });
}

fn reaches(list: &PlayList, end: &Position) -> bool
    ensures { IsTrue result ↔ HasEnd (lines_of list.now.items) end.now }
{
    for entry in list.iter() {
        if same(&entry.end, end) {
            return true;
        }
    }
    false
}

fn same(one: &Position, another: &Position) -> bool
    ensures { IsTrue result ↔ (one.now ≡ another.now) }
{
    *one == *another
}

fn copied(play: &Play) -> Play
    ensures { result.items ≡ play.now.items }
{
    let mut copy = Play::new();
    for step in play.iter() {
        copy.push(*step);
    }
    copy
}
