ghost use Rattle.std.specs.Prelude.{◌≡◌, IsTrue};
ghost use Rattle.position_rank.specs.Ranks.{square_rank_of};
ghost use Rattle.directed_fixed.specs.declared.bounds.End.TheVariants.{Lower, Upper};
ghost use Rattle.turn_rule.specs.Looks.{Seen, IsSourceState, AreSourceWords, FindsWord};

use directed_fixed::Fixed;
use hyper_outside::LookStop;
use position_rank::Position;

/// Where the words of a game are looked up.
pub trait Pairs {
    /// The type of what an implementation keeps as it is.
    ghost Stays: { Type 0 } = { Unit {0} };

    /// What no call changes, beside the source.
    ghost stays: { Self → Stays };

    /// Where words are looked up, what is noted, and how often a call of the outside has failed.
    ghost seen: { Self → Seen };

    /// The lower word of a state.
    fn lower_of(&mut self, position: &Position, kind: usize) -> Result<Fixed, LookStop>
        requires { IsSourceState (seen self.old).source position.now kind }
        ensures looked { FindsWord Lower position.now kind (seen self.old) (seen self.new) result }
        ensures source { (seen self.new).source ≡ (seen self.old).source }
        ensures stays { stays self.new ≡ stays self.old };

    /// The upper word of a state.
    fn upper_of(&mut self, position: &Position, kind: usize) -> Result<Fixed, LookStop>
        requires { IsSourceState (seen self.old).source position.now kind }
        ensures looked { FindsWord Upper position.now kind (seen self.old) (seen self.new) result }
        ensures source { (seen self.new).source ≡ (seen self.old).source }
        ensures stays { stays self.new ≡ stays self.old };

    /// `lower_of` a position whose square rank is at hand, by which its words may be found faster.
    fn lower_at(&mut self, position: &Position, square: u64, kind: usize) -> Result<Fixed, LookStop>
        requires state { IsSourceState (seen self.old).source position.now kind }
        requires square { square ≡ square_rank_of position.now }
        ensures looked { FindsWord Lower position.now kind (seen self.old) (seen self.new) result }
        ensures source { (seen self.new).source ≡ (seen self.old).source }
        ensures stays { stays self.new ≡ stays self.old }
    {
        let _ = square;
        self.lower_of(position, kind)
    }

    /// `upper_of` a position whose square rank is at hand, by which its words may be found faster.
    fn upper_at(&mut self, position: &Position, square: u64, kind: usize) -> Result<Fixed, LookStop>
        requires state { IsSourceState (seen self.old).source position.now kind }
        requires square { square ≡ square_rank_of position.now }
        ensures looked { FindsWord Upper position.now kind (seen self.old) (seen self.new) result }
        ensures source { (seen self.new).source ≡ (seen self.old).source }
        ensures stays { stays self.new ≡ stays self.old }
    {
        let _ = square;
        self.upper_of(position, kind)
    }

    /// The floor is within the bound, each lower word at most its upper word.
    ghost floor_within: { (s : Self) → IsTrue (seen s).notes.told
        → AreSourceWords (seen s).source (seen s).source.floor };

    /// So are the notes.
    ghost notes_within: { (s : Self) → IsTrue (seen s).notes.told
        → AreSourceWords (seen s).source (seen s).notes.words };
}
