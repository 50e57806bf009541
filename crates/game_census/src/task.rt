ghost use Rattle.std.specs.Prelude.{◌≤◌};

use cube_actions::MoneyRule;

/// A part of a file's live positions, from 1, where so many equal parts share them.
#[derive(Clone, Copy)]
pub(crate) struct Part {
    pub(crate) number: u32,
    pub(crate) of: u32,
    ghost from: { 1 ≤ number },
    ghost to: { number ≤ of },
}

/// What is advised on the cube is to be counted, over a part of a file.
#[derive(Clone, Copy)]
pub(crate) struct CubeTask<'a> {
    pub(crate) file: &'a str,
    pub(crate) part: Part,
}

/// A game is to be solved by so many rounds, its widths are to be told meanwhile, and its words kept in the file, if any.
#[derive(Clone, Copy)]
pub(crate) struct WidthsTask<'a> {
    pub(crate) checkers: u8,
    pub(crate) rule: MoneyRule,
    pub(crate) rounds: u32,
    pub(crate) file: Option<&'a str>,
    ghost low: { 1 ≤ checkers },
    ghost high: { checkers ≤ 3 },
    ghost some: { 1 ≤ rounds },
    ghost most: { rounds ≤ 4096 },
}

/// What is to be counted or told.
#[derive(Clone, Copy)]
pub(crate) enum Task<'a> {
    Cube(CubeTask<'a>),
    Widths(WidthsTask<'a>),
}
