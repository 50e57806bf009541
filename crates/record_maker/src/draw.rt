ghost use Rattle.std.specs.Prelude.{◌≡◌, ◌≤◌, List, IfOk, false};
ghost use Rattle.game_record.specs.Lines.{IsRecord};
ghost use Rattle.game_record.specs.Replay.{IsReplay};
ghost use Rattle.record_text.specs.Texts.{is_too_long, record_text};
ghost use Rattle.game_record.specs.declared.decision.Decision.{Decision};
ghost use Rattle.record_maker.specs.Makers.{IsDrawn, makes_another};
ghost use Rattle.record_maker.specs.Making.{IsMade};

use crate::laws::made_records_break_no_rule;
use crate::state::Maker;
use cube_actions::MoneyRule;
use game_record::{Games, Record, RecordStakes};
use hyper_outside::NoMemory;
use std::alloc::Global;

/// The record of a number and a count of games, of 1 to 1,000: one checker a side, money stakes by the Jacoby rule, and each roll, play and turn of the
/// cube drawn from the generator's words. It has fewer games where its text grows too long: none begins, and no turn but a game's first, where
/// there are 60,000 lines or 1,000,000 bytes. It asks for memory, and may answer `NoMemory`.
pub fn make_record(alloc: Global, number: u64, games: u32) -> Result<Record, NoMemory>
    requires from { 1 ≤ games }
    requires to { games ≤ 1000 }
    ensures made { IfOk result (IsMade number games) }
    ensures valid { IfOk result IsRecord }
    // So `read_record` reads what `print_record` prints of it.
    ensures short { IfOk result (λ rec. is_too_long (record_text rec) ≡ false) }
    // So `replay` finds no fault in it.
    ensures replays { IfOk result (λ rec. (told : List Decision) × IsReplay rec told) }
{
    made_records_break_no_rule();
    draw_record(alloc, number, games)
}

fn draw_record(alloc: Global, number: u64, games: u32) -> Result<Record, NoMemory>
    requires from { 1 ≤ games }
    requires to { games ≤ 1000 }
    ensures { IfOk result (IsDrawn number games) }
{
    let mut maker = Maker::first(number);
    let mut made = Games::new(alloc);
    let mut count = 0;
    'making: while maker.makes_another(count, games) {
        let game = maker.make_game(alloc, count)?;
        made.push(game)?;
        count += 1;
    }
    Ok(Record {
        checkers: 1,
        stakes: RecordStakes::Unlimited(MoneyRule::Jacoby),
        games: made,
    })
}

impl Maker {
    /// Whether another game is made, where so many were made and so many are wanted.
    fn makes_another(&self, made: u32, wanted: u32) -> bool
        ensures { result ≡ makes_another made wanted self.now.size }
    {
        made < wanted && !self.size.is_full()
    }
}
