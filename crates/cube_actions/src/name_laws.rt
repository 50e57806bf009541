ghost use Rattle.std.specs.Prelude.{◌≢◌, All, IsTrue};
ghost use Rattle.std.specs.List.{AllPairs};
ghost use Rattle.cube_actions.specs.declared.name.StakesName.{StakesName};
ghost use Rattle.cube_actions.specs.Names.{is_kind_name, names_of};

/// No two kinds of a game have one name, and each has the name of a kind.
pub fn names_tell_kinds()
    ensures distinct { (stakes : StakesName) → AllPairs (λ a b. a ≢ b) (names_of stakes) }
    ensures kinds { (stakes : StakesName)
        → All (λ name. IsTrue (is_kind_name name)) (names_of stakes) }
{}
