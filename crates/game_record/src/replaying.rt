ghost use Rattle.std.specs.Prelude.{◌≡◌, ◌≤◌, ◌+◌, List, IfOk, IfErr, All, length};
ghost use Rattle.game_record.specs.Replay.{StopsBy, AddsDecisions, AllTell, BreaksAt, IsBroken, IsReplay};
ghost use Rattle.game_record.specs.Lines.{game_lines, IsRecord};
ghost use Rattle.game_record.specs.Ready.{AreLinesReady};
ghost use Rattle.game_record.specs.RightDecisions.{IsRightDecision};
ghost use Rattle.game_record.specs.declared.decision.Decision.{Decision};

use crate::decision::Decisions;
use crate::fault::RecordStop;
use crate::moment::Moment;
use crate::record::{Game, Record};
use crate::replay_laws::{decisions_are_right, records_have_few_decisions, replays_break_no_rule};
use std::alloc::Global;

/// The decisions of a record in the order of its lines, or the first line that breaks a rule and the rule that it breaks. It takes memory for
/// the list of decisions, and may answer `NoMemory`.
pub fn replay(alloc: Global, rec: &Record) -> Result<Decisions, RecordStop>
    requires { IsRecord rec.now }
    ensures ok { IfOk result (IsReplay rec.now) }
    ensures err { IfErr result (StopsBy (IsBroken rec.now)) }
    ensures complete { (told : List Decision)
        → IsReplay rec.now told → IfErr result (λ stop. stop ≡ RecordStop.NoMemory) }
    ensures right { IfOk result (All (IsRightDecision rec.now)) }
    ensures few { IfOk result (λ told. length told ≤ 131072) }
{
    // So a record that breaks no rule is refused for want of memory alone.
    replays_break_no_rule();
    // What is known of all decisions of a record.
    decisions_are_right();
    records_have_few_decisions();
    replay_games(alloc, rec)
}

fn replay_games(alloc: Global, rec: &Record) -> Result<Decisions, RecordStop>
    requires { IsRecord rec.now }
    ensures ok { IfOk result (IsReplay rec.now) }
    ensures err { IfErr result (StopsBy (IsBroken rec.now)) }
{
    let mut moment = Moment::first(rec);
    let mut decisions = Decisions::new(alloc);
    for game in rec.games.as_slice() {
        moment = moment.play(game, &mut decisions)?;
    }
    Ok(decisions)
}

impl Moment {
    /// Takes the lines of a game.
    fn play(&self, game: &Game, decisions: &mut Decisions) -> Result<Moment, RecordStop>
        requires { AreLinesReady self.now (game_lines (self.now.game + 1) game.now) }
        ensures ok { IfOk result (λ next. AddsDecisions decisions.old decisions.new (λ told.
            AllTell self.now (game_lines (self.now.game + 1) game.now) told next)) }
        ensures err { IfErr result (StopsBy (
            BreaksAt self.now (game_lines (self.now.game + 1) game.now))) }
    {
        let mut moment = self.begin(game.away)?;
        let stakes = moment.game_stakes();
        for action in game.actions.as_slice() {
            moment = moment.act(&stakes, action, decisions)?;
        }
        let next = moment.end(game.ending)?;
        Ok(next)
    }
}
