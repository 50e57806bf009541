ghost use Rattle.std.specs.Prelude.{◌≡◌, ◌≤◌, ◌+◌, ◌∷◌, [], length, decimal, false, IfOk};
ghost use Rattle.game_record.specs.Games.{opening};
ghost use Rattle.record_maker.specs.Makers.{HasLinesLeft, moment_at, ending_of, is_unfinished, sheet_of};
ghost use Rattle.record_maker.specs.Making.{AllDo, IsEnd, AddsGame, ending_text, first_sheet, game_line_text};
ghost use Rattle.record_maker.specs.Sizes.{is_full, with_line};
ghost use Rattle.record_maker.specs.declared.due.Due.{Due as DueNow};

use crate::due::Due;
use crate::size::Size;
use crate::state::Maker;
use game_record::{Actions, Ending, Game, Progress, Win};
use hyper_outside::NoMemory;
use itoa::Buffer;
use rand_pcg::Lcg64Xsh32;
use std::alloc::Global;

impl Maker {
    /// Before the first game of the record of a number.
    pub(crate) fn first(number: u64) -> Maker
        ensures { sheet_of result 0 ≡ first_sheet number }
    {
        Maker {
            size: Size {
                lines: 3,
                bytes: 46,
            },
            game: Progress::opening(1),
            words: Lcg64Xsh32::new(number, 54),
        }
    }

    /// Makes the next game, where so many were made.
    pub(crate) fn make_game(&mut self, alloc: Global, games: u32) -> Result<Game, NoMemory>
        requires room { is_full self.old.size ≡ false }
        requires few { games + 1 ≤ 1000 }
        ensures makes { IfOk result (λ game.
            AddsGame (sheet_of self.old games) game (sheet_of self.new (games + 1))) }
        ensures room { IfOk result (λ _. HasLinesLeft 3 self.new.size) }
    {
        self.begin(games + 1);
        let mut actions = Actions::new(alloc);
        let ending = self.play_out(&mut actions)?;
        self.end(ending);
        Ok(Game {
            away: None,
            actions,
            ending,
        })
    }

    /// Begins a game, whose number is this.
    fn begin(&mut self, number: u32)
        requires room { is_full self.old.size ≡ false }
        requires few { number ≤ 1000 }
        ensures size { self.new.size ≡ with_line self.old.size (game_line_text number) }
        ensures game { self.new.game ≡ opening 1 }
        ensures words { self.new.words ≡ self.old.words }
        ensures room { HasLinesLeft 0 self.new.size }
    {
        self.game = Progress::opening(1);
        self.size = self.size.with_line(6 + digits(number));
    }

    /// Everything is done that is due until the game ends.
    fn play_out(&mut self, actions: &mut Actions) -> Result<Ending, NoMemory>
        requires none { actions.old ≡ [] }
        requires game { self.old.game ≡ opening 1 }
        requires room { HasLinesLeft 0 self.old.size }
        ensures plays { IfOk result (λ ending. (due : DueNow)
            × AllDo (moment_at self.old Due.Start) actions.new (moment_at self.new due)
            × IsEnd (moment_at self.new due) ending) }
        ensures room { IfOk result (λ _. HasLinesLeft 2 self.new.size) }
    {
        let mut due = Due::Start;
        while self.goes_on(due) {
            let action = self.act(due);
            due = Due::after(&action);
            actions.push(action)?;
        }
        Ok(ending_of(self.game.won))
    }

    /// Whether what is due is done.
    fn goes_on(&self, due: Due) -> bool
        ensures { result ≡ is_unfinished (moment_at self.now due) }
    {
        !self.game.is_over() && !(due.is_turn() && self.size.is_full())
    }

    /// Ends a game.
    fn end(&mut self, ending: Ending)
        requires { HasLinesLeft 2 self.old.size }
        ensures size { self.new.size ≡ with_line self.old.size (ending_text ending) }
        ensures game { self.new.game ≡ self.old.game }
        ensures words { self.new.words ≡ self.old.words }
        ensures room { HasLinesLeft 3 self.new.size }
    {
        let bytes = match ending {
            Ending::Ended { points, .. } => 7 + digits(u32::from(points)),
            Ending::Stopped => 5,
        };
        self.size = self.size.with_line(bytes);
    }
}

fn ending_of(won: Option<Win>) -> Ending
    ensures { result ≡ ending_of won }
{
    match won {
        Some(win) => Ending::Ended {
            winner: win.winner,
            points: win.points,
        },
        None => Ending::Stopped,
    }
}

/// How many digits a number has.
fn digits(number: u32) -> u32
    requires { number ≤ 1000 }
    ensures digits { result ≡ length (decimal number) }
    ensures few { result ≤ 4 }
{
    Buffer::new().format(u64::from(number)).len() as u32
}
