ghost use Rattle.std.specs.Prelude.{◌≡◌, ◌≤◌, ◌+◌, ◌++◌, IsTrue, length, nat_le};
ghost use Rattle.std.specs.List.{flat_map, list_all};
ghost use Rattle.position_board.specs.Boards.{board_told, board_text, cell, lower_half, lower_row, off_mark, pips_line, point_cell, upper_half, upper_row};

use arrayvec::ArrayString;
use itoa::Buffer;
use position_rank::Position;
use race_table::pips_of;

/// The text of a board, of at most 512 bytes.
pub type BoardText = ArrayString<512>;

const OFF: u8 = 0;

const BAR: u8 = 25;

/// A position as a board of text of eleven lines, of at most 45 columns: as the mover sees it, who is X and moves from 24 down to 1.
/// The lines above and below tell the pips of both sides.
#[tactic(auto, unfolding(crate::specs::Boards::board_text))]
pub fn print_board(position: &Position) -> BoardText
    ensures { result.bytes ≡ board_text position.now }
{
    let mut text = ArrayString::new();
    push_pips(&mut text, "O: ", pips_of(&position.other()));
    push_upper_half(&mut text, position);
    text.push_str("|                  |BAR|                  |\n");
    push_lower_half(&mut text, position);
    push_pips(&mut text, "X to move: ", pips_of(&position.mover()));
    text
}

/// The board of a position where it is asked for, else nothing.
pub fn board_told(asked: bool, position: &Position) -> BoardText
    ensures bytes { result.bytes ≡ board_told asked position.now }
    ensures length { length result.bytes ≤ 512 }
{
    if asked {
        print_board(position)
    } else {
        ArrayString::new()
    }
}

fn push_pips(text: &mut BoardText, side: &str, pips: u32)
    requires { length text.old.bytes + length side.now ≤ 490 }
    ensures bytes { text.new.bytes ≡ text.old.bytes ++ pips_line side.now pips }
    ensures length { length text.new.bytes ≤ length text.old.bytes + length side.now + 16 }
{
    text.push_str(side);
    text.push_str(Buffer::new().format(pips));
    text.push_str(" pips\n");
}

#[tactic(auto, unfolding(crate::specs::Boards::upper_half))]
fn push_upper_half(text: &mut BoardText, position: &Position)
    requires { length text.old.bytes ≤ 40 }
    ensures bytes { text.new.bytes ≡ text.old.bytes ++ upper_half position.now }
    ensures length { length text.new.bytes ≤ length text.old.bytes + 182 }
{
    text.push_str("+13-14-15-16-17-18------19-20-21-22-23-24-+\n");
    push_upper_row(text, position, 0);
    push_upper_row(text, position, 1);
    push_upper_row(text, position, 2);
}

#[tactic(auto, unfolding(crate::specs::Boards::lower_half))]
fn push_lower_half(text: &mut BoardText, position: &Position)
    requires { length text.old.bytes ≤ 270 }
    ensures bytes { text.new.bytes ≡ text.old.bytes ++ lower_half position.now }
    ensures length { length text.new.bytes ≤ length text.old.bytes + 182 }
{
    push_lower_row(text, position, 2);
    push_lower_row(text, position, 1);
    push_lower_row(text, position, 0);
    text.push_str("+12-11-10--9--8--7-------6--5--4--3--2--1-+\n");
}

#[tactic(auto, unfolding(crate::specs::Boards::upper_row))]
fn push_upper_row(text: &mut BoardText, position: &Position, row: u8)
    requires { length text.old.bytes ≤ 400 }
    ensures bytes { text.new.bytes ≡ text.old.bytes ++ upper_row position.now row }
    ensures length { length text.new.bytes ≤ length text.old.bytes + 46 }
{
    text.push_str("|");
    push_points(text, position, row, &[13, 14, 15, 16, 17, 18]);
    text.push_str("|");
    text.push_str(cell_text(row, position.mover_at(BAR), 0));
    text.push_str("|");
    push_points(text, position, row, &[19, 20, 21, 22, 23, 24]);
    text.push_str("|");
    text.push_str(off_text(row, position.other_at(OFF), " O"));
    text.push_str("\n");
}

#[tactic(auto, unfolding(crate::specs::Boards::lower_row))]
fn push_lower_row(text: &mut BoardText, position: &Position, row: u8)
    requires { length text.old.bytes ≤ 400 }
    ensures bytes { text.new.bytes ≡ text.old.bytes ++ lower_row position.now row }
    ensures length { length text.new.bytes ≤ length text.old.bytes + 46 }
{
    text.push_str("|");
    push_points(text, position, row, &[12, 11, 10, 9, 8, 7]);
    text.push_str("|");
    text.push_str(cell_text(row, 0, position.other_at(BAR)));
    text.push_str("|");
    push_points(text, position, row, &[6, 5, 4, 3, 2, 1]);
    text.push_str("|");
    text.push_str(off_text(row, position.mover_at(OFF), " X"));
    text.push_str("\n");
}

fn push_points(text: &mut BoardText, position: &Position, row: u8, points: &[u8])
    requires points { IsTrue (list_all (λ point. nat_le point 25) points.now) }
    requires six { length points.now ≤ 6 }
    requires room { length text.old.bytes ≤ 450 }
    ensures bytes { text.new.bytes
        ≡ text.old.bytes ++ flat_map (point_cell position.now row) points.now }
    ensures length { length text.new.bytes ≤ length text.old.bytes + 18 }
{
    for point in points {
        let mine = position.mover_at(*point);
        let theirs = position.other_at(25 - *point);
        text.push_str(cell_text(row, mine, theirs));
    }
}

#[tactic(auto, unfolding(crate::specs::Boards::cell))]
fn cell_text(row: u8, mine: u8, theirs: u8) -> &'static str
    ensures text { result.now ≡ cell row mine theirs }
    ensures length { length result.now ≡ 3 }
{
    if row < mine {
        " X "
    } else if row < theirs {
        " O "
    } else {
        "   "
    }
}

#[tactic(auto, unfolding(crate::specs::Boards::off_mark))]
fn off_text(row: u8, number: u8, mark: &'static str) -> &'static str
    requires { length mark.now ≤ 2 }
    ensures text { result.now ≡ off_mark row number mark.now }
    ensures length { length result.now ≤ 2 }
{
    if row < number { mark } else { "" }
}
