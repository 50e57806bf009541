ghost use Rattle.std.specs.Prelude.{◌≡◌};
ghost use Rattle.match_scores.specs.Keepers.{Keeper, Keeps, MayKeep};

use cube_actions::{Score, Starts};
use hyper_outside::Failed;
use interval_words::Closed;

/// Takes the scores of a ladder, each as it is solved.
pub trait Keep {
    /// The type of what an implementation keeps as it is.
    ghost Stays: { Type 0 } = { Unit {0} };

    /// What no call changes, beside the ladder that it is for.
    ghost stays: { Self → Stays };

    /// The type of what is known of the moment at which an implementation was made.
    ghost Past: { Type 0 } = { Unit {0} };

    /// What holds of an implementation that was made at such a moment, whatever scores it has taken since.
    ghost since: { Past → Self → Type 0 };

    /// Which ladder it is for, the start pairs of the scores that it has kept, whether it has failed, and how often the calls
    /// of the outside have failed by which it may.
    ghost keeper: { Self → Keeper };

    /// Takes the next score of the ladder, with the start pairs of the scores before it and the words of its game. After
    /// `Failed`, which comes only where one of the counts of faults rose, the score isn't kept, and no other may follow.
    fn keep(&mut self, score: Score, starts: &Starts, words: &Closed) -> Result<(), Failed>
        requires { MayKeep (keeper self.old) score starts.now words.now }
        ensures keeps { Keeps score words.now (keeper self.old) (keeper self.new) result }
        ensures stays { stays self.new ≡ stays self.old }
        ensures since { (past : Past) → since past self.old → since past self.new };
}
