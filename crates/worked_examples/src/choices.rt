ghost use Rattle.std.specs.Prelude.{◌≡◌, pos, [], ◌∷◌};
ghost use Rattle.directed_fixed.specs.Bounds.{at_zero};
ghost use Rattle.cube_actions.specs.declared.action.Answer.TheVariants.{Take, Pass, Beaver};
ghost use Rattle.cube_actions.specs.declared.action.Offer.TheVariants.{NoDouble, Double};
ghost use Rattle.worked_examples.specs.Turns.{between, gains, losses};
ghost use Rattle.play_analyser.specs.Advice.{IsBestAnswer, IsBestOffer};
ghost use Rattle.play_analyser.specs.Choices.{answer_options, offer_options};
ghost use Rattle.play_analyser.specs.Losses.{least_pair, loss, regret};

/// What choices lose, worked by hand.
pub fn loss_examples()
    ensures regret { regret (record { chosen = pos 3; others = pos 5 ∷ pos 4 ∷ [] }) ≡ pos 2 }
    ensures best { regret (record { chosen = pos 5; others = pos 3 ∷ [] }) ≡ pos 0 }
    ensures loss { loss (record { chosen = gains 2 3; others = gains 4 6 ∷ gains 1 9 ∷ [] })
        ≡ gains 1 7 }
    ensures alone { loss (record { chosen = gains 2 3; others = [] }) ≡ at_zero }
    ensures rolling { loss (offer_options (gains 2 3) (gains 4 5) NoDouble) ≡ gains 1 3 }
    ensures doubling { loss (offer_options (gains 2 3) (gains 4 5) Double) ≡ at_zero }
    ensures take { loss (answer_options (losses 10 10) (gains 1 2 ∷ gains 2 4 ∷ []) Take)
        ≡ gains 0 3 }
    ensures beaver { loss (answer_options (losses 10 10) (gains 1 2 ∷ gains 2 4 ∷ []) Beaver)
        ≡ at_zero }
    ensures pass { loss (answer_options (losses 10 10) (gains 1 2 ∷ gains 2 4 ∷ []) Pass)
        ≡ gains 12 14 }
{}

/// What is advised, worked by hand.
pub fn advice_examples()
    ensures doubled { least_pair (gains 10 10) (between 1 12 ∷ gains 3 4 ∷ []) ≡ between 1 4 }
    ensures double { IsBestOffer (gains 2 9) (gains 3 4) Double }
    ensures none { IsBestOffer (gains 3 9) (gains 3 10) NoDouble }
    ensures take { IsBestAnswer (gains 5 5) (gains 4 5 ∷ gains 3 5 ∷ []) Take }
    ensures beaver { IsBestAnswer (gains 5 5) (gains 4 6 ∷ gains 3 5 ∷ []) Beaver }
    ensures pass { IsBestAnswer (gains 5 5) (gains 4 6 ∷ gains 3 7 ∷ []) Pass }
{}
