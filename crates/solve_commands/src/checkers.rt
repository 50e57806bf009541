ghost use Rattle.std.specs.Prelude.{◌≡◌, IfErr, OnOk, sum};
ghost use Rattle.solve_commands.specs.Checkers.{IsOfOtherCheckers};

use cube_actions::{MoneyRule, StakesName};
use equity_report::{GameName, Refusal, Wanted};
use position_rank::Position;

/// Refuses a position that has another number of checkers a side than is asked for.
pub(crate) fn count_checkers(position: &Position, checkers: u8) -> Result<(), Refusal>
    ensures same { OnOk result (sum position.now.mover ≡ checkers) }
    ensures other { IfErr result (IsOfOtherCheckers checkers position.now) }
{
    let wanted = position.checkers();
    if wanted == checkers {
        return Ok(());
    }
    Err(Refusal::Base {
        wanted: Wanted::Checkers(wanted),
        found: GameName {
            checkers,
            stakes: StakesName::Unlimited(MoneyRule::Cubeless),
            match_length: 1,
        },
    })
}
