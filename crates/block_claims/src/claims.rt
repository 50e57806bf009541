ghost use Rattle.std.specs.Prelude.{◌≡◌, ◌<◌, ◌≤◌, IfOk};
ghost use Rattle.block_claims.specs.Views.{fresh, HasEachOnce};
ghost use Rattle.block_claims.specs.Claiming.{IsClaimed, with_taken};

use crate::views::ClaimView;
use atomic_table::{Join, Play, Seat, Split, Table, TableRule};
use hyper_outside::NoMemory;
use std::alloc::Global;
use std::marker::Model;

/// The rule of the claims' table.
pub(crate) struct ClaimRule;

impl TableRule<(), ClaimView, u64> for ClaimRule {
    ghost use Rattle.block_claims.specs.Views.{fresh, AreKept};

    ghost holds = { AreKept };

    ghost first = { λ _. fresh };
}

/// A step that claims a block.
pub(crate) struct Claiming;

impl Play<(), ClaimView> for Claiming {
    ghost use Rattle.block_claims.specs.Claiming.{StepClaims};

    ghost then = { StepClaims };
}

/// A step that only looks.
pub(crate) struct Looking;

impl Play<(), ClaimView> for Looking {
    ghost use Rattle.block_claims.specs.Claiming.{StepLooks};

    ghost then = { StepLooks };
}

/// A seat that has claimed nothing leaves another.
pub(crate) struct Fresh;

impl Split<ClaimView> for Fresh {
    ghost use Rattle.block_claims.specs.Views.{fresh};

    ghost left = { λ view. view };

    ghost right = { λ _. fresh };
}

/// A seat takes in another.
pub(crate) struct Taking;

impl Join<ClaimView> for Taking {
    ghost use Rattle.block_claims.specs.Views.{fresh};
    ghost use Rattle.block_claims.specs.Claiming.{with_taken};

    ghost both = { with_taken };

    ghost spent = { fresh };
}

/// The last round for which each block was claimed, in words that many seats raise at once.
#[derive(Drop)]
pub struct Claims {
    table: Table<(), ClaimView, u64, ClaimRule, Global>,
}

impl Model for Claims {
    ghost use Rattle.block_claims.specs.Claiming.{ClaimTable, HasWords};

    ghost Value = { ClaimTable };

    ghost view = { λ a. record {
      table = a.table.shared.table_id;
      blocks = a.table.shared.table_id.words;
    } };

    ghost invariant = { λ a. HasWords a.table.shared.table_id a.table.shared.key };
}

/// A seat at the claims. It has no bytes; contracts see what was claimed with it, each claim at most once, and
/// which words it has noted.
#[derive(Drop)]
pub struct ClaimSeat {
    seat: Seat<(), ClaimView>,
}

impl Model for ClaimSeat {
    ghost use Rattle.std.specs.Prelude.{◌≡◌, []};
    ghost use Rattle.block_claims.specs.Claiming.{Claimer};
    ghost use Rattle.block_claims.specs.Views.{HasEachOnce};

    ghost Value = { Claimer };

    ghost view = { λ a. record { table = a.seat.table_id; view = a.seat.me.0 } };

    ghost invariant = { λ a. (a.seat.me.1 ≡ []) × HasEachOnce a.seat.me.0 };
}

impl ClaimSeat {
    /// The seat has each of its claims once.
    pub fn has_each_once(&self)
        ensures { HasEachOnce self.now.view }
    {
        // What contracts know of the field holds where it is read.
        let _seat = &self.seat;
    }
}

impl Claims {
    /// The claims of so many blocks, of which none is claimed, and their first seat. It asks for memory for their
    /// words, and may answer `NoMemory`.
    pub fn new(alloc: Global, blocks: u64) -> Result<(Claims, ClaimSeat), NoMemory>
        requires { 0 < blocks }
        ensures blocks { IfOk result (λ made. made.0.blocks ≡ blocks) }
        ensures seat { IfOk result
            (λ made. made.1 ≡ record { table = made.0.table; view = fresh }) }
    {
        let words = vec![in alloc; 0; blocks as usize]?;
        let (table, seat) = Table::of_words(alloc, &words, &blocks)?;
        Ok((Claims { table }, ClaimSeat { seat }))
    }

    /// Claims a block for a round, from 1, by one step. True comes exactly where it was claimed for no such round or
    /// later one before; by `lost_blocks_are_claimed` false tells that it was.
    pub fn claim(&self, seat: &mut ClaimSeat, block: u64, round: u64) -> bool
        requires table { seat.old.table ≡ self.now.table }
        requires block { block < self.now.blocks }
        requires round { 1 ≤ round }
        ensures { IsClaimed block round seat.old seat.new result }
    {
        let found = self
            .table
            .shared
            .fetch_max::<Claiming>(&mut seat.seat, block as usize, round);
        found < round
    }

    /// Another seat, that has claimed nothing.
    pub fn split(&self, seat: &mut ClaimSeat) -> ClaimSeat
        requires { seat.old.table ≡ self.now.table }
        ensures seat { seat.new ≡ seat.old }
        ensures other { result ≡ record { table = self.now.table; view = fresh } }
    {
        ClaimSeat {
            seat: self.table.shared.split_seat::<Fresh>(&mut seat.seat),
        }
    }

    /// Gives a seat the claims and the notes of another.
    pub fn join(&self, seat: &mut ClaimSeat, other: ClaimSeat)
        requires table { seat.old.table ≡ self.now.table }
        requires other { other.table ≡ self.now.table }
        ensures seat { seat.new
            ≡ record { table = seat.old.table; view = with_taken seat.old.view other.view } }
    {
        let shared = &self.table.shared;
        shared.join_seat::<Taking>(&mut seat.seat, other.seat);
        // The joined seat has each claim once, as a look at any word tells.
        shared.load::<Looking>(&mut seat.seat, 0);
    }
}
