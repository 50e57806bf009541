ghost use Rattle.std.specs.Prelude.{◌≡◌, ◌≢◌, ◌≤◌, ◌+◌, ◌↔◌, IsTrue};
ghost use Rattle.record_maker.specs.Makers.{HasDoneDue, HasLinesLeft, moment_at};
ghost use Rattle.record_maker.specs.Making.{Doubles, Plays, Rolls, deed_line, has_cube, undoubled_words};
ghost use Rattle.record_maker.specs.Sizes.{with_line};

use crate::choice::choose;
use crate::dice::{draw_roll, draw_start, draw_word};
use crate::due::Due;
use crate::state::Maker;
use cube_actions::{Answer, MoneyRule};
use game_record::{Action, Player, RecordStakes, Standing, What};
use roll_table::Roll;

impl Maker {
    /// A player plays a roll as the next word chooses.
    fn play(&mut self, player: Player, roll: Roll) -> Action
        requires { HasLinesLeft 2 self.old.size }
        ensures player { result.player ≡ player }
        ensures plays { (due : Due)
            → Plays self.old.game player roll self.old.words result.what (moment_at self.new due) }
        ensures size { self.new.size ≡ with_line self.old.size (deed_line result) }
        ensures short { self.new.size.bytes ≤ self.old.size.bytes + 60 }
    {
        let chooser = draw_word(&mut self.words);
        let chosen = choose(&self.game.position, roll, chooser);
        self.size = self.size.with_line(chosen.bytes + 6);
        self.game = self.game.after_play(
            RecordStakes::Unlimited(MoneyRule::Jacoby),
            player,
            &chosen.end,
        );
        Action {
            player,
            what: What::Rolled {
                roll,
                written: chosen.written,
            },
        }
    }

    /// The player who wins the first roll plays it.
    fn start(&mut self) -> Action
        requires { HasLinesLeft 2 self.old.size }
        ensures { HasDoneDue self.old Due.Start result self.new }
    {
        let (player, roll) = draw_start(&mut self.words);
        self.play(player, roll)
    }

    /// A player who doubled, and whose double was taken, rolls.
    fn roll_on(&mut self, player: Player) -> Action
        requires { HasLinesLeft 2 self.old.size }
        ensures { HasDoneDue self.old (Due.Roll player) result self.new }
    {
        self.roll(player)
    }

    /// A player rolls and plays.
    fn roll(&mut self, player: Player) -> Action
        requires { HasLinesLeft 2 self.old.size }
        ensures player { result.player ≡ player }
        ensures rolls { (due : Due)
            → Rolls self.old.game player self.old.words result.what (moment_at self.new due) }
        ensures size { self.new.size ≡ with_line self.old.size (deed_line result) }
        ensures short { self.new.size.bytes ≤ self.old.size.bytes + 60 }
    {
        let roll = draw_roll(&mut self.words);
        self.play(player, roll)
    }

    /// A player may double in his turn.
    fn has_cube(&self, player: Player) -> bool
        ensures { result ≡ has_cube self.now.game player }
    {
        let stakes = RecordStakes::Unlimited(MoneyRule::Jacoby);
        self.game
            .may_double(stakes, Standing::first(stakes), player)
    }

    /// Whether a player doubles: the next word says so, where he may.
    fn doubles(&mut self, player: Player) -> bool
        ensures doubles { IsTrue result ↔ Doubles (moment_at self.old (Due.Turn player)) player }
        ensures words { self.new.words
            ≡ undoubled_words (moment_at self.old (Due.Turn player)) player }
        ensures game { self.new.game ≡ self.old.game }
        ensures size { self.new.size ≡ self.old.size }
    {
        if !self.has_cube(player) {
            return false;
        }
        draw_word(&mut self.words) % 8 == 0
    }

    /// A player doubles or rolls.
    fn take_turn(&mut self, player: Player) -> Action
        requires { HasLinesLeft 2 self.old.size }
        ensures { HasDoneDue self.old (Due.Turn player) result self.new }
    {
        if !self.doubles(player) {
            return self.roll(player);
        }
        self.size = self.size.with_line(9);
        self.game = self.game.after_double();
        Action {
            player,
            what: What::Doubled,
        }
    }

    /// A player who was doubled takes or passes.
    fn answer(&mut self, player: Player) -> Action
        requires { HasLinesLeft 2 self.old.size }
        ensures { HasDoneDue self.old (Due.Answer player) result self.new }
    {
        self.size = self.size.with_line(7);
        if draw_word(&mut self.words) % 2 == 0 {
            self.game = self.game.after_answer(player, Answer::Take);
            Action {
                player,
                what: What::Took,
            }
        } else {
            self.game = self.game.after_answer(player, Answer::Pass);
            Action {
                player,
                what: What::Passed,
            }
        }
    }

    /// A player does what is due.
    pub(crate) fn act(&mut self, due: Due) -> Action
        requires some { due ≢ Due.Nothing }
        requires room { HasLinesLeft 2 self.old.size }
        ensures { HasDoneDue self.old due result self.new }
    {
        match due {
            Due::Start => self.start(),
            Due::Turn(player) => self.take_turn(player),
            Due::Answer(player) => self.answer(player),
            Due::Roll(player) => self.roll_on(player),
            Due::Nothing => unreachable!(),
        }
    }
}
