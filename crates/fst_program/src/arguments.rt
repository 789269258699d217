//! The program's command line.

ghost use Rattle.std.specs.Prelude.{◌≡◌, None, Some, false, map, codes, IfOk, IfErr, true, [], ◌∷◌};
ghost use Rattle.clap.specs.Words.{rule_of, app_of, rows_of, found_of, one_of, takes, kind_of, fault_of, HasKind, new_app, is_broken, subcommand_of, subcommand_rows_of};
ghost use Rattle.clap.specs.declared.builder.command.Command.TheViews.{out-Command as fields_of};
ghost use Rattle.fst_program.specs.Program.{number_rule, default_rule, play_app, crew_app, program};
ghost use Rattle.fst_program.specs.Arguments.{Has, IsRead, Asks, AsksAt, AsksPlay, AsksCrew};

use clap::error::ErrorKind;
use clap::{Arg, ArgMatches, Command, Error, value_parser};
use std::alloc::{AllocError, Global};

const PROGRAM_HELP: &str =
    "A cache of disk blocks whose changes say what they come after. With no command: play";

const PLAY_HELP: &str =
    "Plays a script of JSON lines from standard input, with one reply a line on standard output";

const BLOCKS_HELP: &str = "How many blocks there are: 1 to 4096";

const SIZE_HELP: &str = "How many bytes a block has: 1 to 4096";

const RESIDENT_HELP: &str =
    "How many blocks may be in memory at once: 1 to as many as there are, which is the default";

const CREW_HELP: &str =
    "Has threads change 8 blocks of 8 bytes while other threads write them, and prints what they hold";

const FILES_HELP: &str = "How many threads change blocks: 1 to 8";

const WORKERS_HELP: &str = "How many threads write blocks: 1 to 8";

const ROUNDS_HELP: &str = "How many changes each file thread makes: 1 to 1000";

/// What the program is asked to do.
#[derive(Debug, Drop)]
pub enum Run {
    /// To play a script over so many blocks of so many bytes, of which so many may be in memory at once.
    Play {
        blocks: u32,
        size: u32,
        resident: Option<u32>,
    },
    /// To run a crew of so many file threads and workers, for so many rounds.
    Crew {
        files: u32,
        workers: u32,
        rounds: u32,
    },
}

// An option of a number, with its text in help.
fn number_option<'a>(alloc: Global, name: &'a str, help: &'a str) -> Arg<'a>
    ensures rule { rule_of result ≡ number_rule name.entry.now }
    ensures local { result.global ≡ false }
{
    Arg::new(alloc, name)
        .long(name)
        .value_parser(value_parser!(u32))
        .help(help)
}

fn default_option<'a>(alloc: Global, name: &'a str, default: &'a str, help: &'a str) -> Arg<'a>
    ensures rule { rule_of result ≡ default_rule name.entry.now default.entry.now }
    ensures local { result.global ≡ false }
{
    number_option(alloc, name, help).default_value(default)
}

// A command with nothing but its text in help.
fn command_about<'a>(alloc: Global, name: &'a str, about: &'a str) -> Command<'a>
    ensures app { app_of result ≡ new_app name.entry.now }
    ensures local { (fields_of result).has_globals ≡ false }
    ensures whole { is_broken result ≡ false }
{
    Command::new(alloc, name).about(about)
}

fn play_command<'a>(alloc: Global) -> Result<Command<'a>, AllocError>
    ensures app { IfOk result (λ c. app_of c ≡ play_app) }
    ensures local { IfOk result (λ c. (fields_of c).has_globals ≡ false) }
{
    command_about(alloc, "play", PLAY_HELP)
        .arg(default_option(alloc, "blocks", "4", BLOCKS_HELP))?
        .arg(default_option(alloc, "size", "4", SIZE_HELP))?
        .arg(number_option(alloc, "resident", RESIDENT_HELP))
}

fn crew_command<'a>(alloc: Global) -> Result<Command<'a>, AllocError>
    ensures app { IfOk result (λ c. app_of c ≡ crew_app) }
    ensures local { IfOk result (λ c. (fields_of c).has_globals ≡ false) }
{
    command_about(alloc, "crew", CREW_HELP)
        .arg(default_option(alloc, "files", "2", FILES_HELP))?
        .arg(default_option(alloc, "workers", "2", WORKERS_HELP))?
        .arg(default_option(alloc, "rounds", "10", ROUNDS_HELP))
}

fn program_command<'a>(alloc: Global) -> Result<Command<'a>, AllocError>
    ensures { IfOk result (λ c. app_of c ≡ program) }
{
    let play = play_command(alloc)?;
    let program = command_about(alloc, "feather", PROGRAM_HELP).subcommand(play)?;
    program.subcommand(crew_command(alloc)?)
}

fn read(matches: &ArgMatches<'_>, id: &str) -> Option<u32>
    ensures { IsRead (one_of id.now (rows_of (found_of matches.now))) result }
{
    matches.get_one::<u32>(id)
}

fn read_or(matches: &ArgMatches<'_>, id: &str, default: u32) -> u32
    ensures { Has id.now default (rows_of (found_of matches.now)) result }
{
    read(matches, id).unwrap_or(default)
}

fn play_in(matches: &ArgMatches<'_>) -> Run
    ensures { AsksPlay (rows_of (found_of matches.now)) result }
{
    Run::Play {
        blocks: read_or(matches, "blocks", 4),
        size: read_or(matches, "size", 4),
        resident: read(matches, "resident"),
    }
}

fn crew_in(matches: &ArgMatches<'_>) -> Run
    ensures { AsksCrew (rows_of (found_of matches.now)) result }
{
    Run::Crew {
        files: read_or(matches, "files", 2),
        workers: read_or(matches, "workers", 2),
        rounds: read_or(matches, "rounds", 10),
    }
}

fn asked_in(matches: &ArgMatches<'_>) -> Run
    ensures { AsksAt (subcommand_rows_of matches.now) result }
{
    match matches.subcommand() {
        Some((name, inner)) => {
            if name == "crew" {
                return crew_in(inner);
            }
            play_in(inner)
        }
        None => Run::Play {
            blocks: 4,
            size: 4,
            resident: None,
        },
    }
}

/// What the words ask, the program's name first. `clap` refuses the rest: words that the program does not take, or
/// want of memory for reading them.
pub fn args<'a>(alloc: Global, words: &'a [&'a str]) -> Result<Run, Error>
    ensures asked { IfOk result (Asks (map (λ w. w.now) words.entry.now)) }
    // Words that the program takes are refused for want of memory alone.
    ensures taken { IfErr result (λ e. takes program (map (λ w. w.now) words.entry.now) ≡ true
        → kind_of e ≡ ErrorKind.OutOfMemory) }
    ensures faults { IfErr result (HasKind (fault_of program (map (λ w. w.now) words.entry.now))) }
{
    match program_command(alloc)?.try_get_matches_from(words) {
        Ok(matches) => Ok(asked_in(&matches)),
        Err(error) => Err(error),
    }
}

/// No words but the program's name ask to play with nothing said.
pub fn play_is_default()
    ensures taken { takes program (codes "feather" ∷ []) ≡ true }
    ensures none { subcommand_of program (codes "feather" ∷ []) ≡ None }
{}

/// One number given: the others have their defaults.
pub fn three_blocks()
    ensures taken { takes program (codes "feather" ∷ codes "play" ∷ codes "--blocks" ∷ codes "3" ∷ []) ≡ true }
    ensures asked { Asks (codes "feather" ∷ codes "play" ∷ codes "--blocks" ∷ codes "3" ∷ []) (Run.Play 3 4 None) }
{}

/// How many blocks may be in memory, beside the defaults.
pub fn one_resident_block()
    ensures taken { takes program (codes "feather" ∷ codes "play" ∷ codes "--resident" ∷ codes "1" ∷ []) ≡ true }
    ensures asked { Asks (codes "feather" ∷ codes "play" ∷ codes "--resident" ∷ codes "1" ∷ []) (Run.Play 4 4 (Some 1)) }
{}

/// A crew of more file threads, with the other numbers as they are by default.
pub fn three_files()
    ensures taken { takes program (codes "feather" ∷ codes "crew" ∷ codes "--files" ∷ codes "3" ∷ []) ≡ true }
    ensures asked { Asks (codes "feather" ∷ codes "crew" ∷ codes "--files" ∷ codes "3" ∷ []) (Run.Crew 3 2 10) }
{}
