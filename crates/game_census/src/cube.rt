ghost use Rattle.std.specs.Prelude.{◌≡◌, ◌<◌, ◌≤◌, ◌-◌, ◌*◌, ◌/◌, ◌^◌, ◌≢◌, ℕ, All, IfErr, IsOkAnd, IsOkUnless, length};
ghost use Rattle.position_rank.specs.LiveRanks.{live_positions, live_rank_of};
ghost use Rattle.turn_rule.specs.Games.{kinds_of};
ghost use Rattle.turn_rule.specs.States.{IsState};
ghost use Rattle.interval_words.specs.WordLists.{words_in_list};
ghost use Rattle.play_analyser.specs.Advice.{IsCubeAdviceOver};
ghost use Rattle.game_census.specs.declared.stop.Stop.TheVariants.{BadWords, Unprinted};
ghost use Rattle.game_census.specs.Censuses.{AddsPosition, AddsState, AreCensuses, IsPartCensus, doubling_kinds, share};

use crate::kind_census::KindCensus;
use crate::report::print_census;
use crate::stop::Stop;
use crate::task::{CubeTask, Part};
use arrayvec::ArrayVec;
use cube_actions::Stakes;
use database_file::load_base;
use hyper_outside::{LookStop, OpenGate};
use interval_words::Words;
use move_rules::PlayList;
use play_analyser::{CubeAdvice, cube_advice_of, one_list_gives_the_advice};
use position_rank::Position;
use std::alloc::Global;
use std::io::Print;
use std::rt::Files;
use std::thread::Threads;
use system_files::RealFiles;
use turn_rule::RollEnds;
use word_pages::Version;
use worker_team::Team;

/// How many of so many live positions stand in the first of some equal parts.
fn share(live: u64, number: u32, of: u32) -> u64
    requires live { live < 2 ^ 32 }
    requires some { 0 < of }
    requires number { number ≤ of }
    ensures share { result ≡ share live number of }
    ensures inside { result ≤ live }
{
    live * u64::from(number) / u64::from(of)
}

/// What is advised over the words of a list. There always is some advice.
fn advice_over(words: &Words, ends: &RollEnds, kind: usize) -> Result<CubeAdvice, LookStop>
    requires { IsState words.now.game ends.now kind }
    ensures { IsOkAnd result
        (IsCubeAdviceOver words.now.game.stakes (words_in_list words.now) ends.now kind) }
{
    one_list_gives_the_advice();
    let mut reader = words.reader();
    cube_advice_of(words.stakes(), ends, kind, &mut reader)
}

/// The most kinds that stakes have.
const MOST_KINDS: usize = 14;

/// The kinds in which the mover may double, each once, in their order.
fn doubling_kinds(stakes: &Stakes) -> ArrayVec<usize, MOST_KINDS>
    ensures kinds { result.items ≡ doubling_kinds stakes.now }
    ensures there { All (λ kind. kind < length stakes.now.kinds) result.items }
{
    let mut found = ArrayVec::new();
    for kind in 0..stakes.kinds() {
        if stakes.kind(kind).double.is_some() {
            found.push(kind);
        }
    }
    found
}

/// Adds what is advised in a kind, where these are the ends of the plays.
fn add_state(census: &mut KindCensus, words: &Words, kind: usize, ends: &RollEnds)
    requires state { IsState words.now.game ends.now kind }
    ensures { (rank : ℕ) → live_rank_of ends.now ≡ rank
        → AddsState words.now kind rank census.old census.new }
{
    let advice = advice_over(words, ends, kind).unwrap();
    if let Some(action) = &advice.action {
        census.add(ends.position(), advice.no_double, action);
    }
}

/// Adds what is advised in each of these kinds, where these are the ends of the plays.
fn add_states(
    censuses: &mut [KindCensus; MOST_KINDS],
    words: &Words,
    kinds: &[usize],
    ends: &RollEnds,
)
    requires few { length kinds.now ≤ MOST_KINDS }
    requires states { All (IsState words.now.game ends.now) kinds.now }
    ensures { (rank : ℕ) → live_rank_of ends.now ≡ rank
        → AddsPosition words.now kinds.now rank censuses.old censuses.new }
{
    for i in 0..kinds.len() {
        add_state(&mut censuses[i], words, kinds[i], ends);
    }
}

/// Adds what is advised in the position of this live rank in each of these kinds. Its plays are listed once.
fn add_position(
    censuses: &mut [KindCensus; MOST_KINDS],
    words: &Words,
    kinds: &[usize],
    rank: u64,
    list: &mut PlayList,
    ends: &mut RollEnds,
)
    requires few { length kinds.now ≤ MOST_KINDS }
    requires kinds { All (λ kind. kind < kinds_of words.now.game) kinds.now }
    requires rank { rank < live_positions words.now.game.checkers }
    ensures { AddsPosition words.now kinds.now rank censuses.old censuses.new }
{
    ends.fill(&words.index().unrank(rank), list);
    add_states(censuses, words, kinds, ends);
}

/// What is advised in each of these kinds, over the live positions from one live rank up to another.
fn censuses_of(words: &Words, kinds: &[usize], from: u64, to: u64) -> [KindCensus; MOST_KINDS]
    requires few { length kinds.now ≤ MOST_KINDS }
    requires kinds { All (λ kind. kind < kinds_of words.now.game) kinds.now }
    requires order { from ≤ to }
    requires to { to ≤ live_positions words.now.game.checkers }
    ensures { AreCensuses words.now kinds.now from (to - from) result }
{
    let mut censuses = [KindCensus::new(); MOST_KINDS];
    let mut list = PlayList::new();
    let mut ends = RollEnds::of(&Position::start(words.checkers()), &mut list);
    for rank in from..to {
        add_position(&mut censuses, words, kinds, rank, &mut list, &mut ends);
    }
    censuses
}

/// What is advised in each kind in which the mover may double, over a part of the live positions.
#[derive(Drop)]
pub(crate) struct PartCensus {
    /// The kinds, in their order.
    kinds: ArrayVec<usize, MOST_KINDS>,
    /// For each of the kinds what is advised in it; those behind the last one count nothing.
    censuses: [KindCensus; MOST_KINDS],
}

impl PartCensus {
    /// Counts what is advised over the words of a file.
    fn of(words: &Words, part: &Part) -> PartCensus
        ensures census { IsPartCensus words.now part.now result }
        ensures there { All (λ kind. kind < kinds_of words.now.game) result.kinds.items }
    {
        let live = words.index().count();
        let from = share(live, part.number - 1, part.of);
        let to = share(live, part.number, part.of);
        let kinds = doubling_kinds(words.stakes());
        let censuses = censuses_of(words, &kinds, from, to);
        PartCensus { kinds, censuses }
    }

    /// Prints it, kind by kind.
    fn print<R: Print>(&self, rt: &R, stakes: &Stakes) -> Result<(), Stop>
        requires { All (λ kind. kind < length stakes.now.kinds) self.now.kinds.items }
        ensures { IsOkUnless result Unprinted }
    {
        for (kind, census) in self.kinds.iter().zip(&self.censuses) {
            print_census(rt, stakes.kind_name(*kind), census)?;
        }
        Ok(())
    }
}

/// Loads a file of bounds, and counts and prints what is advised on the cube in a part of it.
pub(crate) fn count_calls<R: Threads + Sync + Print + Files>(
    rt: &R,
    alloc: Global,
    task: &CubeTask,
) -> Result<(), Stop>
    ensures { IfErr result (λ stop. stop ≢ BadWords) }
{
    let mut files = RealFiles::new(rt, alloc);
    let team = Team::new(rt, 1);
    let base = load_base(
        &team,
        alloc,
        &mut files,
        task.file,
        Version::Three,
        &OpenGate,
    )?;
    let words = base.words();
    PartCensus::of(words, &task.part).print(rt, words.stakes())
}
