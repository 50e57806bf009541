use crate::view::View;
use atomic_table::{Join, Play, Split, TableRule};
use turn_rule::Game;

/// The rule of a board's table: its words and views are a core in which everything holds that no
/// event breaks.
pub(crate) struct CoreRule;

impl TableRule<(), View, Game> for CoreRule {
    ghost use Rattle.interval_words.specs.Core.{first_view};
    ghost use Rattle.interval_words.specs.Rule.{Holds};

    ghost holds = { Holds };

    ghost first = { first_view };
}

/// A read of a word.
pub(crate) struct Reading;

impl Play<(), View> for Reading {
    ghost use Rattle.interval_words.specs.Rule.{ReadsWord};

    ghost then = { ReadsWord };
}

/// A raise of a lower word, or a lowering of an upper word.
pub(crate) struct Tightening;

impl Play<(), View> for Tightening {
    ghost use Rattle.interval_words.specs.Rule.{Tightens};

    ghost then = { Tightens };
}

/// The end of a round.
pub(crate) struct Settling;

impl Play<(), View> for Settling {
    ghost use Rattle.interval_words.specs.Rule.{SettlesWord};

    ghost then = { SettlesWord };
}

/// A second view that knows what the first knows, and has no hand.
pub(crate) struct Copying;

impl Split<View> for Copying {
    ghost use Rattle.interval_words.specs.Core.{without_work};

    ghost left = { λ view. view };

    ghost right = { without_work };
}

/// A view hands over a hand to a second view that knows the same.
pub(crate) struct Hiring;

impl Split<View> for Hiring {
    ghost use Rattle.interval_words.specs.Core.{without_hand, hired};

    ghost left = { without_hand };

    ghost right = { hired };
}

/// A view takes in another.
pub(crate) struct Joining;

impl Join<View> for Joining {
    ghost use Rattle.interval_words.specs.Core.{joined, spent};

    ghost both = { joined };

    ghost spent = { spent };
}
