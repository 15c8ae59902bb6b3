//! The commands, each with what it was given.
ghost use Rattle.std.specs.Prelude.{◌≡◌, ◌≤◌, option_map, IfSome};
ghost use Rattle.clap.specs.Words.{first_value, found_of};
ghost use Rattle.sweet_words.specs.Commands.{IsWithinRanges, analyse_of, cache_of, check_of, command_named, file_in};
ghost use Rattle.sweet_words.specs.Commands.{generate_of, is_set, lower_of, migrate_of, replay_of};
ghost use Rattle.sweet_words.specs.Commands.{merging_in, pivots_in, print_of, root_in, run_of, tasks_of, turns_in};
ghost use Rattle.sweet_words.specs.Commands.{worst_of};
ghost use Rattle.sweet_words.specs.Meant.{command_meant, file_meant};

use crate::files::{ProgramFile, c_file, program_file};
use crate::merging::{Merging, merging_or_joins};
use crate::root::name_or_main;
use crate::values::{number, number_given};
use clap::ArgMatches;

/// What `analyse` is given: the program's file, the name of the function that it starts with, which
/// is `main` where the words do not say, the names of the inputs file and of the costs file, the
/// most turns of the exploration, 1 to 1,000,000, and 100,000 where the words do not say, where
/// states are merged, the most pivots of the path bound, 1 to 4,000, and 1,000 where the words do
/// not say, and whether the report has its certificate.
#[derive(Clone, Copy)]
pub struct AnalyseWords<'a> {
    pub program: ProgramFile<'a>,
    pub root: &'a str,
    pub inputs: Option<&'a str>,
    pub costs: Option<&'a str>,
    pub turns: u32,
    pub merging: Merging,
    pub pivots: u32,
    pub certified: bool,
}

/// What `check` is given: the program's file, the name of the report's file, the name of the function
/// that the program starts with, and the names of the inputs file and of the costs file.
#[derive(Clone, Copy)]
pub struct CheckWords<'a> {
    pub program: ProgramFile<'a>,
    pub report: &'a str,
    pub root: &'a str,
    pub inputs: Option<&'a str>,
    pub costs: Option<&'a str>,
}

/// What `replay` is given: the same as `check`, and the name of the values file of one run, whose values
/// are none where the words do not say.
#[derive(Clone, Copy)]
pub struct ReplayWords<'a> {
    pub program: ProgramFile<'a>,
    pub report: &'a str,
    pub values: Option<&'a str>,
    pub root: &'a str,
    pub inputs: Option<&'a str>,
    pub costs: Option<&'a str>,
}

/// What `lower` is given: the name of a file of C, and that of the function that its program starts
/// with.
#[derive(Clone, Copy)]
pub struct LowerWords<'a> {
    pub file: &'a str,
    pub root: &'a str,
}

/// What `run` is given: the same as `analyse`, where the turns are the most nodes that the run may have, nothing
/// is merged, and no pivot is made.
#[derive(Clone, Copy)]
pub struct RunWords<'a> {
    pub program: ProgramFile<'a>,
    pub root: &'a str,
    pub inputs: Option<&'a str>,
    pub costs: Option<&'a str>,
    pub turns: u32,
}

/// What `cache` is given: the same as `analyse` but for pivots and certificate, and the cache: 1 to
/// 1,024 sets, 1 to 16 ways, the bytes of a line, 4 to 4,096, and what a miss costs beyond a hit.
#[derive(Clone, Copy)]
pub struct CacheWords<'a> {
    pub program: ProgramFile<'a>,
    pub root: &'a str,
    pub inputs: Option<&'a str>,
    pub costs: Option<&'a str>,
    pub turns: u32,
    pub merging: Merging,
    pub sets: u32,
    pub ways: u32,
    pub line: u32,
    pub penalty: u32,
}

/// What `worst` is given: the same as `analyse` but for the certificate, and the most splits of a box
/// of inputs, 1 to 256, and 16 where the words do not say.
#[derive(Clone, Copy)]
pub struct WorstWords<'a> {
    pub program: ProgramFile<'a>,
    pub root: &'a str,
    pub inputs: Option<&'a str>,
    pub costs: Option<&'a str>,
    pub turns: u32,
    pub merging: Merging,
    pub pivots: u32,
    pub splits: u32,
}

/// A command.
#[derive(Clone, Copy)]
pub enum Command<'a> {
    Analyse(AnalyseWords<'a>),
    Check(CheckWords<'a>),
    Replay(ReplayWords<'a>),
    Lower(LowerWords<'a>),
    /// The program's file.
    Print(ProgramFile<'a>),
    Run(RunWords<'a>),
    /// How many pairs of loops the program has that is made, 1 to 40.
    Generate(u32),
    /// The name of the report's file.
    Migrate(&'a str),
    Cache(CacheWords<'a>),
    Worst(WorstWords<'a>),
    /// The name of the file of the tasks.
    Tasks(&'a str),
}

// The command of this name, with the values that it was given.
pub fn named<'a>(name: &str, given: &ArgMatches<'a>) -> Option<Command<'a>>
    ensures command { option_map command_meant result ≡ command_named name.now (first_value (found_of given.now)) }
    ensures ranges { IfSome result (λ command. IsWithinRanges (command_meant command)) }
{
    match name {
        "analyse" => analyse(given),
        "check" => check(given),
        "replay" => replay(given),
        "lower" => lower(given),
        "print" => print(given),
        "run" => run(given),
        "generate" => generate(given),
        "migrate" => migrate(given),
        "cache" => cache(given),
        "worst" => worst(given),
        "tasks" => tasks(given),
        _ => None,
    }
}

// The file of the program.
fn file<'a>(given: &ArgMatches<'a>) -> Option<ProgramFile<'a>>
    ensures { option_map file_meant result ≡ file_in (first_value (found_of given.now)) }
{
    let name = given.get_str("file")?;
    Some(program_file(name))
}

// The name of the root function.
fn root<'a>(given: &ArgMatches<'a>) -> Option<&'a str>
    ensures { option_map (λ s. s.now) result ≡ root_in (first_value (found_of given.now)) }
{
    name_or_main(given.get_str("root"))
}

// The most turns.
fn turns(given: &ArgMatches<'_>) -> Option<u32>
    ensures turns { result ≡ turns_in (first_value (found_of given.now)) }
    ensures few { IfSome result (λ turns. turns ≤ 1000000) }
{
    number(given.get_str("turns"), 100_000, 1, 1_000_000)
}

// The most pivots.
fn pivots(given: &ArgMatches<'_>) -> Option<u32>
    ensures { result ≡ pivots_in (first_value (found_of given.now)) }
{
    number(given.get_str("pivots"), 1_000, 1, 4_000)
}

// Where states are merged.
fn merging(given: &ArgMatches<'_>) -> Option<Merging>
    ensures { result ≡ merging_in (first_value (found_of given.now)) }
{
    merging_or_joins(given.get_str("merge"))
}

fn analyse<'a>(given: &ArgMatches<'a>) -> Option<Command<'a>>
    ensures command { option_map command_meant result ≡ analyse_of (first_value (found_of given.now)) }
    ensures ranges { IfSome result (λ command. IsWithinRanges (command_meant command)) }
{
    let program = file(given)?;
    let root = root(given)?;
    let turns = turns(given)?;
    let merging = merging(given)?;
    let pivots = pivots(given)?;
    Some(Command::Analyse(AnalyseWords {
        program,
        root,
        inputs: given.get_str("inputs"),
        costs: given.get_str("costs"),
        turns,
        merging,
        pivots,
        certified: is_set(given.get_str("cert")),
    }))
}

// Whether the flag stands among the words.
fn is_set(flag: Option<&str>) -> bool
    ensures { result ≡ is_set (option_map (λ s. s.now) flag.entry) }
{
    match flag {
        Some("true") => true,
        _ => false,
    }
}

fn check<'a>(given: &ArgMatches<'a>) -> Option<Command<'a>>
    ensures command { option_map command_meant result ≡ check_of (first_value (found_of given.now)) }
    ensures ranges { IfSome result (λ command. IsWithinRanges (command_meant command)) }
{
    let program = file(given)?;
    let report = given.get_str("report")?;
    let root = root(given)?;
    Some(Command::Check(CheckWords {
        program,
        report,
        root,
        inputs: given.get_str("inputs"),
        costs: given.get_str("costs"),
    }))
}

fn replay<'a>(given: &ArgMatches<'a>) -> Option<Command<'a>>
    ensures command { option_map command_meant result ≡ replay_of (first_value (found_of given.now)) }
    ensures ranges { IfSome result (λ command. IsWithinRanges (command_meant command)) }
{
    let program = file(given)?;
    let report = given.get_str("report")?;
    let root = root(given)?;
    Some(Command::Replay(ReplayWords {
        program,
        report,
        values: given.get_str("at"),
        root,
        inputs: given.get_str("inputs"),
        costs: given.get_str("costs"),
    }))
}

fn lower<'a>(given: &ArgMatches<'a>) -> Option<Command<'a>>
    ensures command { option_map command_meant result ≡ lower_of (first_value (found_of given.now)) }
    ensures ranges { IfSome result (λ command. IsWithinRanges (command_meant command)) }
{
    let program = file(given)?;
    let file = c_file(program)?;
    let root = root(given)?;
    Some(Command::Lower(LowerWords { file, root }))
}

fn print<'a>(given: &ArgMatches<'a>) -> Option<Command<'a>>
    ensures command { option_map command_meant result ≡ print_of (first_value (found_of given.now)) }
    ensures ranges { IfSome result (λ command. IsWithinRanges (command_meant command)) }
{
    let program = file(given)?;
    Some(Command::Print(program))
}

fn run<'a>(given: &ArgMatches<'a>) -> Option<Command<'a>>
    ensures command { option_map command_meant result ≡ run_of (first_value (found_of given.now)) }
    ensures ranges { IfSome result (λ command. IsWithinRanges (command_meant command)) }
{
    let program = file(given)?;
    let root = root(given)?;
    let turns = turns(given)?;
    Some(Command::Run(RunWords {
        program,
        root,
        inputs: given.get_str("inputs"),
        costs: given.get_str("costs"),
        turns,
    }))
}

fn generate<'a>(given: &ArgMatches<'a>) -> Option<Command<'a>>
    ensures command { option_map command_meant result ≡ generate_of (first_value (found_of given.now)) }
    ensures ranges { IfSome result (λ command. IsWithinRanges (command_meant command)) }
{
    let number = number_given(given.get_str("number"), 1, 40)?;
    Some(Command::Generate(number))
}

fn migrate<'a>(given: &ArgMatches<'a>) -> Option<Command<'a>>
    ensures command { option_map command_meant result ≡ migrate_of (first_value (found_of given.now)) }
    ensures ranges { IfSome result (λ command. IsWithinRanges (command_meant command)) }
{
    let report = given.get_str("report")?;
    Some(Command::Migrate(report))
}

fn cache<'a>(given: &ArgMatches<'a>) -> Option<Command<'a>>
    ensures command { option_map command_meant result ≡ cache_of (first_value (found_of given.now)) }
    ensures ranges { IfSome result (λ command. IsWithinRanges (command_meant command)) }
{
    let program = file(given)?;
    let root = root(given)?;
    let turns = turns(given)?;
    let merging = merging(given)?;
    let sets = number_given(given.get_str("sets"), 1, 1_024)?;
    let ways = number_given(given.get_str("ways"), 1, 16)?;
    let line = number_given(given.get_str("line"), 4, 4_096)?;
    let penalty = number_given(given.get_str("penalty"), 0, 4_294_967_295)?;
    Some(Command::Cache(CacheWords {
        program,
        root,
        inputs: given.get_str("inputs"),
        costs: given.get_str("costs"),
        turns,
        merging,
        sets,
        ways,
        line,
        penalty,
    }))
}

fn worst<'a>(given: &ArgMatches<'a>) -> Option<Command<'a>>
    ensures command { option_map command_meant result ≡ worst_of (first_value (found_of given.now)) }
    ensures ranges { IfSome result (λ command. IsWithinRanges (command_meant command)) }
{
    let program = file(given)?;
    let root = root(given)?;
    let turns = turns(given)?;
    let merging = merging(given)?;
    let pivots = pivots(given)?;
    let splits = number(given.get_str("splits"), 16, 1, 256)?;
    Some(Command::Worst(WorstWords {
        program,
        root,
        inputs: given.get_str("inputs"),
        costs: given.get_str("costs"),
        turns,
        merging,
        pivots,
        splits,
    }))
}

fn tasks<'a>(given: &ArgMatches<'a>) -> Option<Command<'a>>
    ensures command { option_map command_meant result ≡ tasks_of (first_value (found_of given.now)) }
    ensures ranges { IfSome result (λ command. IsWithinRanges (command_meant command)) }
{
    let file = given.get_str("file")?;
    Some(Command::Tasks(file))
}
