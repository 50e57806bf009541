ghost use Rattle.std.specs.Prelude.{◌≡◌, ◌≤◌, ◌+◌, ◌%◌};
ghost use Rattle.record_maker.specs.Draws.{die, rest, roll_of, start_drawn, starter, two_dice, word};

use game_record::Player;
use rand_core::utils::NextWord;
use rand_pcg::Lcg64Xsh32;
use roll_table::Roll;

/// The next word.
pub(crate) fn draw_word(words: &mut Lcg64Xsh32) -> u32
    ensures word { result ≡ word words.old }
    ensures rest { words.new ≡ rest words.old }
{
    words.next_word()
}

/// A die: 1 plus the next word modulo 6.
fn draw_die(words: &mut Lcg64Xsh32) -> u8
    ensures die { result ≡ die words.old }
    ensures rest { words.new ≡ rest words.old }
    ensures from { 1 ≤ result }
    ensures to { result ≤ 6 }
{
    (draw_word(words) % 6) as u8 + 1
}

/// A roll of two dice.
pub(crate) fn draw_roll(words: &mut Lcg64Xsh32) -> Roll
    ensures { (result, words.new) ≡ two_dice words.old }
{
    let first = draw_die(words);
    let second = draw_die(words);
    roll_of(first, second)
}

/// Dice in either order.
fn roll_of(a: u8, b: u8) -> Roll
    requires a_from { 1 ≤ a }
    requires a_to { a ≤ 6 }
    requires b_from { 1 ≤ b }
    requires b_to { b ≤ 6 }
    ensures { result ≡ roll_of a b }
{
    match Roll::new(a, b) {
        Some(roll) => roll,
        None => unreachable!(),
    }
}

/// The player of the higher of two dice, of which the first is A's.
fn starter(a: u8, b: u8) -> Player
    ensures { result ≡ starter a b }
{
    if a > b { Player::A } else { Player::B }
}

/// Who starts a game, and with which roll. The dice are A's and then B's, and the higher starts. Equal dice are drawn again, at most 32
/// times: then A starts with 21.
pub(crate) fn draw_start(words: &mut Lcg64Xsh32) -> (Player, Roll)
    ensures { record { player = result.0; roll = result.1; after = words.new }
        ≡ start_drawn words.old }
{
    'draws: for _ in 0..32u32 {
        let a = draw_die(words);
        let b = draw_die(words);
        if a != b {
            return (starter(a, b), roll_of(a, b));
        }
    }
    (Player::A, roll_of(2, 1))
}
