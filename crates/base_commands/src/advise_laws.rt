ghost use Rattle.std.specs.Prelude.{ℕ, List, Some};
ghost use Rattle.roll_table.specs.Rolls.{Dice, IsRoll};
ghost use Rattle.play_analyser.specs.declared.advice.CubeAdvice.{CubeAdvice};
ghost use Rattle.play_analyser.specs.declared.ranking.Ranking.{Ranking};
ghost use Rattle.play_analyser.specs.Advice.{IsCubeAdvice};
ghost use Rattle.play_analyser.specs.Rankings.{IsRanking};
ghost use Rattle.base_head.specs.Heads.{FileHead, stakes_of};
ghost use Rattle.database_file.specs.Faults.{header_of_file};
ghost use Rattle.database_file.specs.Paged.{paged_source, told_notes};
ghost use Rattle.run_endings.specs.declared.asked.AskedKind.{AskedKind};
ghost use Rattle.command_line.specs.declared.command.Advise.{Advise as AdviseTask};
ghost use Rattle.base_commands.specs.Advises.{Advises, IsStateIn, Ranks};

use play_analyser::{
    advised_actions_lose_at_most_their_bounds, best_plays_lose_at_most_their_bounds,
    one_list_gives_the_advice, one_list_gives_the_ranking,
};

/// A ranking that was looked up in a file rests on right pages alone, and is the one over any words that have the pairs of these; and where such
/// words are sound, its first play in the end loses at most its bound.
pub fn looked_up_rankings_are_of_the_file()
    ensures { (task : AdviseTask) (roll : Dice) (bytes : List ℕ) (head : FileHead)
        (kind : AskedKind) (ranking : Ranking)
        → IsStateIn task bytes head kind → IsRoll roll
        → IsRanking (stakes_of head) task.position kind.number roll
        (paged_source (header_of_file bytes) (Some bytes))
        (told_notes (header_of_file bytes) (Some bytes)) ranking
        → Ranks task roll bytes head kind ranking }
{
    one_list_gives_the_ranking();
    best_plays_lose_at_most_their_bounds();
}

/// So does advice on the cube, and so in the end do the offer and the answer.
pub fn looked_up_advice_is_of_the_file()
    ensures { (task : AdviseTask) (bytes : List ℕ) (head : FileHead) (kind : AskedKind)
        (advice : CubeAdvice)
        → IsStateIn task bytes head kind
        → IsCubeAdvice (stakes_of head) task.position kind.number
        (paged_source (header_of_file bytes) (Some bytes))
        (told_notes (header_of_file bytes) (Some bytes)) advice
        → Advises task bytes head kind advice }
{
    one_list_gives_the_advice();
    advised_actions_lose_at_most_their_bounds();
}
