ghost use Rattle.std.specs.Prelude.{◌<◌, IfErr, IfOk};
ghost use Rattle.turn_rule.specs.Games.{IsGame, kinds_of};
ghost use Rattle.database_file.specs.Texts.{game_in};
ghost use Rattle.run_endings.specs.Endings.{IsOfShowing};
ghost use Rattle.run_endings.specs.Games.{AnswersAsked};

use crate::load::game_told;
use base_head::Head;
use cube_actions::KindName;
use equity_report::{Refusal, Wanted};
use position_rank::Position;

/// A kind of state of a game.
#[derive(Clone, Copy)]
pub struct AskedKind {
    pub number: usize,
    pub name: KindName,
}

/// The kind of state that is asked for, the first where none is; or a refusal where the head's game has other checkers than the position, or no
/// such kind.
pub fn asked_kind(
    head: &Head,
    position: &Position,
    asked: Option<KindName>,
) -> Result<AskedKind, Refusal>
    ensures asked { AnswersAsked position.now asked head.now result }
    ensures game { IfOk result (λ kind. IsGame (game_in head.now)) }
    ensures number { IfOk result (λ kind. kind.number < kinds_of (game_in head.now)) }
    ensures kinds { IfErr result IsOfShowing }
{
    let game = game_told(head);
    let wanted = position.checkers();
    if wanted != game.checkers {
        return Err(Refusal::Base {
            wanted: Wanted::Checkers(wanted),
            found: game,
        });
    }
    let stakes = head.stakes();
    let Some(name) = asked else {
        // What `kinds` ensures says that there is a first one.
        let _kinds = stakes.kinds();
        return Ok(AskedKind {
            number: 0,
            name: stakes.kind_name(0),
        });
    };
    match stakes.number_of(name) {
        Some(number) => Ok(AskedKind { number, name }),
        None => Err(Refusal::Base {
            wanted: Wanted::Kind(name),
            found: game,
        }),
    }
}
