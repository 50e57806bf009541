ghost use Rattle.std.specs.Prelude.{◌≡◌, ◌++◌, IfOk, IfErr, OnOk};
ghost use Rattle.game_record.specs.Replay.{StopsBy, decided, undoubled, Acts, AddsDecisions, Answers, IsWrongAct};
ghost use Rattle.game_record.specs.Ready.{CanTell, IsSetFor};
ghost use Rattle.game_record.specs.Standings.{IsInRange};
ghost use Rattle.game_record.specs.declared.line.Line.TheVariants.{Acted};
ghost use Rattle.game_record.specs.declared.record.What.{What};
ghost use Rattle.game_record.specs.declared.record.What.TheVariants.{Rolled, Doubled, Beavered};

use crate::decision::Decisions;
use crate::fault::{RecordFault, RecordStop};
use crate::moment::Moment;
use crate::player::Player;
use crate::record::{Action, What};
use cube_actions::{Answer, Offer, Stakes};
use hyper_outside::NoMemory;
use move_rules::{Written, match_play};
use roll_table::Roll;
use turn_rule::Choice;

impl Moment {
    /// Takes the line of what a player did, and adds the decisions that it tells.
    pub(crate) fn act(
        &self,
        stakes: &Stakes,
        action: &Action,
        decisions: &mut Decisions,
    ) -> Result<Moment, RecordStop>
        requires ready { IsSetFor self.now (Acted action.now) }
        requires can { CanTell self.now stakes.now.name }
        ensures ok { IfOk result (λ next. AddsDecisions decisions.old decisions.new (λ told.
            Acts self.now action.now.player action.now.what told next)) }
        ensures err { IfErr result (StopsBy (λ bad. (bad.line ≡ self.now.line)
            × IsWrongAct self.now action.now.player action.now.what bad.fault)) }
    {
        let player = action.player;
        match &action.what {
            What::Rolled { roll, written } => self.roll(stakes, player, *roll, written, decisions),
            What::Doubled => self.double(stakes, player, decisions),
            What::Took => self.answer(stakes, player, Answer::Take, decisions),
            What::Passed => self.answer(stakes, player, Answer::Pass, decisions),
            What::Beavered => self.beaver(stakes, player, decisions),
        }
    }

    /// A roll and its play, and before it the choice not to double where that was possible.
    fn roll(
        &self,
        stakes: &Stakes,
        player: Player,
        roll: Roll,
        written: &Written,
        decisions: &mut Decisions,
    ) -> Result<Moment, RecordStop>
        requires ready { IsSetFor self.now (Acted (record {
          player = player;
          what = Rolled roll written.now;
        })) }
        requires can { CanTell self.now stakes.now.name }
        ensures ok { IfOk result (λ next. AddsDecisions decisions.old decisions.new (λ told.
            Acts self.now player (Rolled roll written.now) told next)) }
        ensures err { IfErr result (StopsBy (λ bad. (bad.line ≡ self.now.line)
            × IsWrongAct self.now player (Rolled roll written.now) bad.fault)) }
    {
        if self.progress.is_over() {
            return Err(RecordStop::Bad(self.fault(RecordFault::ScoreWrong)));
        }
        let end = match match_play(&self.progress.position, roll, written) {
            Ok(entry) => entry.end,
            Err(bad) => {
                return Err(RecordStop::Bad(self.fault(RecordFault::IllegalPlay(bad))));
            }
        };
        self.pass_over_double(stakes, player, decisions)?;
        let played = Choice::Played { roll, end };
        self.decide(stakes, player, player, played, decisions)?;
        let after = self.progress.after_play(self.stakes, player, &end);
        Ok(self.goes_on(&after))
    }

    /// Adds that a player didn't double, where he might have.
    fn pass_over_double(
        &self,
        stakes: &Stakes,
        player: Player,
        decisions: &mut Decisions,
    ) -> Result<(), NoMemory>
        requires in_range { IsInRange self.now.standing }
        requires can { CanTell self.now stakes.now.name }
        ensures { OnOk result (decisions.new ≡ decisions.old ++ undoubled self.now player) }
    {
        if self.may_double(player) {
            let passed = Choice::Offered(Offer::NoDouble);
            self.decide(stakes, player, player, passed, decisions)?;
        }
        Ok(())
    }

    fn double(
        &self,
        stakes: &Stakes,
        player: Player,
        decisions: &mut Decisions,
    ) -> Result<Moment, RecordStop>
        requires ready { IsSetFor self.now (Acted (record { player = player; what = Doubled })) }
        requires can { CanTell self.now stakes.now.name }
        ensures ok { IfOk result (λ next. AddsDecisions decisions.old decisions.new (λ told.
            Acts self.now player Doubled told next)) }
        ensures err { IfErr result (StopsBy (λ bad. (bad.line ≡ self.now.line)
            × IsWrongAct self.now player Doubled bad.fault)) }
    {
        if self.progress.is_over() {
            return Err(RecordStop::Bad(self.fault(RecordFault::ScoreWrong)));
        }
        if !self.may_double(player) {
            return Err(RecordStop::Bad(self.fault(RecordFault::IllegalCube)));
        }
        let doubled = Choice::Offered(Offer::Double);
        self.decide(stakes, player, player, doubled, decisions)?;
        Ok(self.goes_on(&self.progress.after_double()))
    }

    /// The answer of a player who was doubled by the other.
    fn answer(
        &self,
        stakes: &Stakes,
        player: Player,
        answer: Answer,
        decisions: &mut Decisions,
    ) -> Result<Moment, RecordStop>
        requires ready { (what : What) × IsSetFor self.now (Acted (record {
          player = player;
          what = what;
        })) }
        requires can { CanTell self.now stakes.now.name }
        ensures ok { IfOk result (λ next. AddsDecisions decisions.old decisions.new (λ told.
            Answers self.now player answer told next)) }
        ensures err { IfErr result (λ stop. stop ≡ RecordStop.NoMemory) }
    {
        let answered = Choice::Answered(answer);
        self.decide(stakes, player.other(), player, answered, decisions)?;
        let after = self.progress.after_answer(player, answer);
        Ok(self.goes_on(&after))
    }

    fn beaver(
        &self,
        stakes: &Stakes,
        player: Player,
        decisions: &mut Decisions,
    ) -> Result<Moment, RecordStop>
        requires ready { IsSetFor self.now (Acted (record { player = player; what = Beavered })) }
        requires can { CanTell self.now stakes.now.name }
        ensures ok { IfOk result (λ next. AddsDecisions decisions.old decisions.new (λ told.
            Acts self.now player Beavered told next)) }
        ensures err { IfErr result (StopsBy (λ bad. (bad.line ≡ self.now.line)
            × IsWrongAct self.now player Beavered bad.fault)) }
    {
        if !self.stakes.has_beavers() {
            return Err(RecordStop::Bad(self.fault(RecordFault::IllegalCube)));
        }
        self.answer(stakes, player, Answer::Beaver, decisions)
    }
}
