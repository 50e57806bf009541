ghost use Rattle.std.specs.Prelude.{◌≡◌, ◌≢◌, ◌<◌, ◌≤◌, ◌*◌, ◌^◌, ℕ, pos, All, length, slice_index_or};
ghost use Rattle.directed_fixed.specs.declared.bounds.End.TheVariants.{Lower, Upper};
ghost use Rattle.directed_fixed.specs.Bounds.{IsWithinUnits};
ghost use Rattle.column_sums.specs.Worths.{worth_at, worths_at};
ghost use Rattle.column_turns.specs.Rows.{AreRows};
ghost use Rattle.column_turns.specs.Turns.{place_in};
ghost use Rattle.column_turns.specs.SumsOfKinds.{AreKindsFound, AreOthersSame, IsKindFound};

use column_sums::{Column, Row, Worths};
use cube_actions::Stakes;
use directed_fixed::{End, Fixed};

/// The worth at one end.
#[inline]
fn worth_of(end: End, worths: Worths) -> Fixed
    ensures { result ≡ worth_at end worths }
{
    match end {
        End::Lower => worths.lower,
        End::Upper => worths.upper,
    }
}

/// Puts one kind's sums of one end among those of all kinds.
fn put_sums(end: End, one: &[Worths], many: usize, kinds: usize, number: usize, all: &mut [Fixed])
    requires many { many ≤ length one.now }
    requires few { many ≤ 3276 }
    requires kinds { kinds ≤ 14 }
    requires number { number < kinds }
    requires room { many * kinds ≤ length all.old }
    requires small_one { (i : ℕ) → i < many
        → IsWithinUnits (pos (2 ^ 42)) (slice_index_or (worths_at end one.now) i (pos 0)) }
    requires small { All (IsWithinUnits (pos (2 ^ 42))) all.old }
    ensures room { length all.new ≡ length all.old }
    ensures small { All (IsWithinUnits (pos (2 ^ 42))) all.new }
    ensures put { (i : ℕ) → i < many → slice_index_or all.new (place_in kinds i number) (pos 0)
        ≡ slice_index_or (worths_at end one.now) i (pos 0) }
    ensures same { (i k : ℕ) → k < kinds → k ≢ number
        → slice_index_or all.new (place_in kinds i k) (pos 0)
        ≡ slice_index_or all.old (place_in kinds i k) (pos 0) }
{
    for i in 0..many {
        all[i * kinds + number] = worth_of(end, one[i]);
    }
}

/// Sums one kind over all rolls, at both ends.
fn sum_kind(
    number: usize,
    stakes: &Stakes,
    column: &mut Column,
    rows: &[Row],
    one: &mut [Worths],
    lower: &mut [Fixed],
    upper: &mut [Fixed],
)
    requires number { number < length stakes.now.kinds }
    requires few { length column.old.movers ≤ 3276 }
    requires one { length column.old.movers ≤ length one.old }
    requires rows { AreRows (length stakes.now.kinds) rows.now }
    requires lower { length column.old.movers * length stakes.now.kinds ≤ length lower.old }
    requires upper { length column.old.movers * length stakes.now.kinds ≤ length upper.old }
    requires small_lower { All (IsWithinUnits (pos (2 ^ 42))) lower.old }
    requires small_upper { All (IsWithinUnits (pos (2 ^ 42))) upper.old }
    ensures column { column.new ≡ column.old }
    ensures one { length one.new ≡ length one.old }
    ensures lower { length lower.new ≡ length lower.old }
    ensures upper { length upper.new ≡ length upper.old }
    ensures small_lower { All (IsWithinUnits (pos (2 ^ 42))) lower.new }
    ensures small_upper { All (IsWithinUnits (pos (2 ^ 42))) upper.new }
    ensures found_lower { IsKindFound Lower stakes.now number column.old rows.now lower.new }
    ensures found_upper { IsKindFound Upper stakes.now number column.old rows.now upper.new }
    ensures same_lower { AreOthersSame (length stakes.now.kinds) number lower.old lower.new }
    ensures same_upper { AreOthersSame (length stakes.now.kinds) number upper.old upper.new }
{
    // What `bound` ensures says that the stakes are valid.
    let _bound = stakes.bound();
    // What `layers` ensures says that no layer comes twice and that plays lead to layers.
    let _layers = column.layers();
    let movers = column.movers();
    let many = movers.len();
    let kinds = stakes.kinds();
    column.sum(&rows[number], one);
    put_sums(End::Lower, one, many, kinds, number, lower);
    put_sums(End::Upper, one, many, kinds, number, upper);
}

/// Sums each kind over all rolls, at both ends.
pub(crate) fn sum_kinds(
    stakes: &Stakes,
    column: &mut Column,
    rows: &[Row],
    one: &mut [Worths],
    lower: &mut [Fixed],
    upper: &mut [Fixed],
)
    requires few { length column.old.movers ≤ 3276 }
    requires one { length column.old.movers ≤ length one.old }
    requires rows { AreRows (length stakes.now.kinds) rows.now }
    requires lower { length column.old.movers * length stakes.now.kinds ≤ length lower.old }
    requires upper { length column.old.movers * length stakes.now.kinds ≤ length upper.old }
    requires small_lower { All (IsWithinUnits (pos (2 ^ 42))) lower.old }
    requires small_upper { All (IsWithinUnits (pos (2 ^ 42))) upper.old }
    ensures column { column.new ≡ column.old }
    ensures one { length one.new ≡ length one.old }
    ensures lower { length lower.new ≡ length lower.old }
    ensures upper { length upper.new ≡ length upper.old }
    ensures small_lower { All (IsWithinUnits (pos (2 ^ 42))) lower.new }
    ensures small_upper { All (IsWithinUnits (pos (2 ^ 42))) upper.new }
    ensures found_lower { AreKindsFound Lower stakes.now (length stakes.now.kinds) column.old
        rows.now lower.new }
    ensures found_upper { AreKindsFound Upper stakes.now (length stakes.now.kinds) column.old
        rows.now upper.new }
{
    for number in 0..stakes.kinds() {
        sum_kind(number, stakes, column, rows, one, lower, upper);
    }
}
