ghost use Rattle.std.specs.Prelude.{◌≡◌, ◌<◌, ◌≤◌, ◌*◌, ◌^◌, ℕ, pos, All, IfOk, IsTrue, length, slice_index, slice_index_or, vec_capacity};
ghost use Rattle.position_rank.specs.Placement.{IsPosition};
ghost use Rattle.position_rank.specs.Ranks.{square_rank_of};
ghost use Rattle.directed_fixed.specs.Bounds.{IsWithinUnits};
ghost use Rattle.cube_actions.specs.Stakes.{nothing};
ghost use Rattle.turn_rule.specs.Looks.{AreStakesOf};
ghost use Rattle.turn_rule.specs.Layouts.{AreLayouts};
ghost use Rattle.column_sums.specs.Leaps.{layout_at};
ghost use Rattle.column_turns.specs.Moments.{IsLater};
ghost use Rattle.column_turns.specs.Columns.{HasRoomFor};
ghost use Rattle.column_turns.specs.Rows.{AreRows};
ghost use Rattle.column_turns.specs.Turns.{mover_at, place_in, AreLiveMovers, AreTurnsOf};

use crate::movers::{list_movers, points_of};
use crate::turns::turn_column;
use column_sums::{Column, Row, Worths};
use cube_actions::Stakes;
use directed_fixed::{Fixed, Pair};
use hyper_outside::NoMemory;
use position_rank::{Layout, OtherPoints, Position};
use std::alloc::Global;
use std::marker::Model;
use turn_rule::Pairs;

/// The pairs of a column's turns: for each layout of the mover whose position with one layout of the other side is live, and for each kind.
/// It is filled again for one column after another, and takes no memory then.
#[derive(Drop)]
pub struct ColumnTurns {
    checkers: u8,
    kinds: usize,
    points: Vec<OtherPoints>,
    column: Column,
    rows: Vec<Row>,
    other: Layout,
    rank: u32,
    movers: Vec<u16>,
    one: Vec<Worths>,
    lower: Vec<Fixed>,
    upper: Vec<Fixed>,
    pairs: Vec<Pair>,
}

impl Model for ColumnTurns {
    ghost use Rattle.std.specs.Prelude.{vec_capacity};
    ghost use Rattle.column_turns.specs.Columns.{ColumnPairs, IsColumn};

    ghost Value = { ColumnPairs };

    ghost view = { λ a. record {
      layouts = a.column.layouts;
      kinds = a.kinds;
      other = a.other;
      movers = a.column.movers;
      pairs = a.pairs.items;
    } };

    ghost invariant = { λ a. IsColumn a.checkers a.rank (vec_capacity a.movers)
        a.points.items (record {
          layouts = a.column.layouts;
          kinds = a.kinds;
          other = a.other;
          movers = a.column.movers;
          pairs = a.pairs.items;
        }) a.rows.items a.one.items a.lower.items a.upper.items };
}

/// So many values of 0.
fn zeros(alloc: Global, count: usize) -> Result<Vec<Fixed>, NoMemory>
    ensures many { IfOk result (λ values. length values.items ≡ count) }
    ensures small { IfOk result (λ values. All (IsWithinUnits (pos (2 ^ 42))) values.items) }
{
    let values = vec![in alloc; Fixed::whole(0); count]?;
    Ok(values)
}

/// So many worths of 0 at both ends.
fn zero_worths(alloc: Global, count: usize) -> Result<Vec<Worths>, NoMemory>
    ensures { IfOk result (λ worths. length worths.items ≡ count) }
{
    let zero = Worths {
        lower: Fixed::whole(0),
        upper: Fixed::whole(0),
    };
    let worths = vec![in alloc; zero; count]?;
    Ok(worths)
}

/// So many pairs of 0 and 0.
fn zero_pairs(alloc: Global, count: usize) -> Result<Vec<Pair>, NoMemory>
    ensures { IfOk result (λ pairs. length pairs.items ≡ count) }
{
    let pairs = vec![in alloc; Pair::exactly(Fixed::whole(0)); count]?;
    Ok(pairs)
}

/// A row for each of so many kinds.
fn empty_rows(alloc: Global, kinds: usize) -> Result<Vec<Row>, NoMemory>
    ensures { IfOk result (λ rows. AreRows kinds rows.items) }
{
    let mut rows = Vec::with_capacity(alloc, kinds)?;
    for _ in 0..kinds {
        rows.push(Row::new(alloc)?)?;
    }
    Ok(rows)
}

/// Room to work out a column's turns in, beside the column itself.
#[derive(Drop)]
struct Room {
    points: Vec<OtherPoints>,
    movers: Vec<u16>,
    one: Vec<Worths>,
    lower: Vec<Fixed>,
    upper: Vec<Fixed>,
    pairs: Vec<Pair>,
    rows: Vec<Row>,
}

/// Room for the layouts of a column and for so many kinds.
fn room_for(alloc: Global, column: &Column, kinds: usize) -> Result<Room, NoMemory>
    requires kinds { kinds ≤ 14 }
    ensures { IfOk result (λ room. HasRoomFor column.now.layouts kinds (vec_capacity room.movers)
        room.points.items room.one.items room.lower.items room.upper.items room.pairs.items
        room.rows.items) }
{
    let many = column.many();
    let places = many * kinds;
    Ok(Room {
        points: points_of(alloc, column)?,
        movers: Vec::with_capacity(alloc, many)?,
        one: zero_worths(alloc, many)?,
        lower: zeros(alloc, places)?,
        upper: zeros(alloc, places)?,
        pairs: zero_pairs(alloc, places)?,
        rows: empty_rows(alloc, kinds)?,
    })
}

impl ColumnTurns {
    /// No column yet, of a game of one to three checkers a side with these stakes. It asks for memory, and may answer `NoMemory`.
    pub fn new(alloc: Global, checkers: u8, stakes: &Stakes) -> Result<ColumnTurns, NoMemory>
        requires low { 1 ≤ checkers }
        requires high { checkers ≤ 3 }
        ensures layouts { IfOk result (λ turns. AreLayouts checkers turns.layouts) }
        ensures kinds { IfOk result (λ turns. turns.kinds ≡ length stakes.now.kinds) }
    {
        let column = Column::new(alloc, checkers)?;
        let kinds = stakes.kinds();
        // On an error the column is dropped at this place alone.
        let room = room_for(alloc, &column, kinds)?;
        let other = Position::start(checkers).mover();
        Ok(ColumnTurns {
            checkers,
            kinds,
            points: room.points,
            column,
            rows: room.rows,
            other,
            rank: other.rank(),
            movers: room.movers,
            one: room.one,
            lower: room.lower,
            upper: room.upper,
            pairs: room.pairs,
        })
    }

    /// Works out the turns of the column of the other side's layout with this rank. Each pair is at least as tight as the turn over the
    /// source's floor, and no tighter than the turn over its notes at the end.
    pub fn fill<P: Pairs>(&mut self, other: usize, stakes: &Stakes, pairs: &mut P)
        requires sure { IsTrue (P.seen pairs.old).source.sure }
        requires stakes { AreStakesOf (P.seen pairs.old).source stakes.now }
        requires kinds { self.old.kinds ≡ length stakes.now.kinds }
        requires layouts { AreLayouts (P.seen pairs.old).source.checkers self.old.layouts }
        requires other { other < length self.old.layouts }
        ensures layouts { self.new.layouts ≡ self.old.layouts }
        ensures kinds { self.new.kinds ≡ self.old.kinds }
        ensures other { self.new.other ≡ layout_at self.old.layouts other }
        ensures movers { AreLiveMovers self.new.layouts self.new.other self.new.movers }
        ensures turns { AreTurnsOf (P.seen pairs.old).source (P.seen pairs.new).notes stakes.now
            (mover_at self.new.layouts self.new.other self.new.movers)
            (length self.new.movers) self.new.pairs }
        ensures later { IsLater (P.seen pairs.old) (P.seen pairs.new) }
        ensures stays { P.stays pairs.new ≡ P.stays pairs.old }
    {
        self.other = *self.column.layout(other);
        self.rank = other as u32;
        list_movers(&self.column, &self.points, &self.other, &mut self.movers);
        self.column.begin(&self.other, self.movers.as_slice());
        // What `movers` ensures bounds their number and their ranks.
        let _movers = self.column.movers();
        turn_column(
            stakes,
            &mut self.column,
            &self.points,
            self.rows.as_mut_slice(),
            self.one.as_mut_slice(),
            self.lower.as_mut_slice(),
            self.upper.as_mut_slice(),
            self.pairs.as_mut_slice(),
            pairs,
        );
    }

    /// How many checkers a side has.
    pub fn checkers(&self) -> u8
        ensures low { 1 ≤ result }
        ensures high { result ≤ 3 }
        ensures layouts { AreLayouts result self.now.layouts }
    {
        self.checkers
    }

    /// How many kinds there are.
    pub fn kinds(&self) -> usize
        ensures { result ≡ self.now.kinds }
    {
        self.kinds
    }

    /// How many layouts there are of the game's checkers.
    pub fn layouts(&self) -> usize
        ensures layouts { result ≡ length self.now.layouts }
        ensures few { result ≤ 3276 }
    {
        self.column.many()
    }

    /// How many positions of the column are live.
    #[inline]
    pub fn len(&self) -> usize
        ensures { result ≡ length self.now.movers }
    {
        self.column.movers().len()
    }

    /// One of the live positions.
    #[inline]
    pub fn position(&self, i: usize) -> Position
        requires { i < length self.now.movers }
        ensures position { result ≡ mover_at self.now.layouts self.now.other self.now.movers i }
        ensures valid { IsPosition result }
    {
        let rank = self.column.movers()[i];
        let mover = *self.column.layout(usize::from(rank));
        Position::new(mover, self.other).unwrap()
    }

    /// The square rank of one of the live positions.
    #[inline]
    pub fn square(&self, i: usize) -> u64
        requires { i < length self.now.movers }
        ensures { result ≡ square_rank_of
            (mover_at self.now.layouts self.now.other self.now.movers i) }
    {
        let rank = u64::from(self.column.movers()[i]);
        rank * self.column.many() as u64 + u64::from(self.rank)
    }

    /// The pair of the turn of one of the live positions in a kind.
    #[inline]
    pub fn pair(&self, i: usize, kind: usize) -> Pair
        requires position { i < length self.now.movers }
        requires kind { kind < self.now.kinds }
        ensures { result ≡ slice_index_or self.now.pairs (place_in self.now.kinds i kind) nothing }
    {
        // What `movers` ensures bounds their number.
        let _movers = self.column.movers();
        self.pairs[i * self.kinds + kind]
    }
}
