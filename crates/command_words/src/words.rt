ghost use Rattle.std.specs.Prelude.{◌≡◌, List, ℕ, None, IfOk, IfSome, MatchOption, option_map, codes};
ghost use Rattle.clap.specs.Simple.{app_of};
ghost use Rattle.clap.specs.Words.{first_value, found_of};
ghost use Rattle.command_words.specs.Shapes.{Form, shape_of, is_true};
ghost use Rattle.command_words.specs.Rules.{IsServed, Matches, app_in};
ghost use Rattle.command_words.specs.Commands.{words_of, line_of, line_in, command_of, run_form, big_form, eval_form, sim_form, dump_form};
ghost use Rattle.command_words.specs.Ranges.{IsRoom, IsBetween, AreRunOptions, AreSimOptions, IsInRange};
ghost use Rattle.command_words.specs.Commands.{run_line, big_line, eval_line, sim_line, dump_line, run_options, sim_options, room_of, level_of};

use crate::arguments::{
    Arguments, big_arguments, dump_arguments, eval_arguments, run_arguments, sim_arguments,
};
use crate::line::{CommandLine, GREATEST_LEVEL, RunOptions, SimOptions};
use crate::number::{number_or, small_or, small_within};
use clap::ArgMatches;
use clap::error::ErrorKind;
use rj_num::NoMemory;
use std::alloc::Global;

/// The matches of these words, where they have the shape of the command.
fn matches_of<'a>(
    arguments: Arguments<'a>,
    words: &'a [String],
) -> Result<Option<ArgMatches<'a>>, NoMemory>
    ensures { (name : List ℕ) (form : Form) → IsServed form → app_of arguments.entry.command ≡ app_in name form
        → IfOk result (λ matches. MatchOption matches
        (shape_of form (words_of words.entry.now) ≡ None) (Matches form (words_of words.entry.now))) }
{
    match arguments.command.try_get_matches_from(words) {
        Ok(matches) => Ok(Some(matches)),
        Err(error) => match error.kind() {
            ErrorKind::OutOfMemory => Err(NoMemory),
            _ => Ok(None),
        },
    }
}

/// Whether a flag is on.
fn is_on(text: Option<&str>) -> bool
    ensures { result ≡ is_true (option_map (λ t. t.now) text.entry) }
{
    match text {
        Some(text) => text == "true",
        None => false,
    }
}

/// The bytes of data memory.
fn room(matches: &ArgMatches) -> Option<u64>
    ensures room { result ≡ room_of (first_value (found_of matches.now) (codes "room")) }
    ensures in_range { IfSome result IsRoom }
{
    let room = number_or(matches.get_str("room"), 1_048_576, 4_096, 67_108_864)?;
    if room % 16 == 0 { Some(room) } else { None }
}

fn run_options(matches: &ArgMatches) -> Option<RunOptions>
    ensures options { result ≡ run_options (first_value (found_of matches.now)) }
    ensures in_range { IfSome result AreRunOptions }
{
    let harts = small_or(matches.get_str("harts"), 1, 1, 16)?;
    let workers = small_or(matches.get_str("workers"), 1, 0, 8)?;
    let code_words = small_or(matches.get_str("code-words"), 262_144, 1, 4_194_304)?;
    let room = room(matches)?;
    let report = is_on(matches.get_str("report"));
    Some(RunOptions {
        harts,
        workers,
        code_words,
        room,
        report,
    })
}

fn sim_options(matches: &ArgMatches) -> Option<SimOptions>
    ensures options { result ≡ sim_options (first_value (found_of matches.now)) }
    ensures in_range { IfSome result AreSimOptions }
{
    let draw = number_or(matches.get_str("draw"), 0, 0, u64::MAX)?;
    let steps = small_or(matches.get_str("steps"), 1_000, 0, 1_000_000)?;
    let harts = small_or(matches.get_str("harts"), 1, 1, 16)?;
    let code_words = small_or(matches.get_str("code-words"), 262_144, 1, 4_194_304)?;
    let room = room(matches)?;
    Some(SimOptions {
        draw,
        steps,
        harts,
        code_words,
        room,
    })
}

fn run_line<'a>(matches: &ArgMatches<'a>) -> Option<CommandLine<'a>>
    ensures line { option_map line_of result ≡ run_line (first_value (found_of matches.now)) }
    ensures in_range { IfSome result IsInRange }
{
    let module_name = matches.get_str("MODULE")?;
    let calls_name = matches.get_str("CALLS")?;
    let options = run_options(matches)?;
    Some(CommandLine::Run {
        module_name,
        calls_name,
        options,
    })
}

fn big_line<'a>(matches: &ArgMatches<'a>) -> Option<CommandLine<'a>>
    ensures line { option_map line_of result ≡ big_line (first_value (found_of matches.now)) }
    ensures in_range { IfSome result IsInRange }
{
    let calls = small_within(matches.get_str("N")?, 1, 65_536)?;
    let options = run_options(matches)?;
    Some(CommandLine::Big { calls, options })
}

fn eval_line<'a>(matches: &ArgMatches<'a>) -> Option<CommandLine<'a>>
    ensures line { option_map line_of result ≡ eval_line (first_value (found_of matches.now)) }
    ensures in_range { IfSome result IsInRange }
{
    let module_name = matches.get_str("MODULE")?;
    let calls_name = matches.get_str("CALLS")?;
    let room = room(matches)?;
    Some(CommandLine::Eval {
        module_name,
        calls_name,
        room,
    })
}

fn sim_line<'a>(matches: &ArgMatches<'a>) -> Option<CommandLine<'a>>
    ensures line { option_map line_of result ≡ sim_line (first_value (found_of matches.now)) }
    ensures in_range { IfSome result IsInRange }
{
    let module_name = matches.get_str("MODULE")?;
    let calls_name = matches.get_str("CALLS")?;
    let options = sim_options(matches)?;
    Some(CommandLine::Sim {
        module_name,
        calls_name,
        options,
    })
}

fn dump_line<'a>(matches: &ArgMatches<'a>) -> Option<CommandLine<'a>>
    ensures line { option_map line_of result ≡ dump_line (first_value (found_of matches.now)) }
    ensures in_range { IfSome result IsInRange }
{
    let module_name = matches.get_str("MODULE")?;
    let level = small_or(matches.get_str("level"), 1, 1, GREATEST_LEVEL)?;
    Some(CommandLine::Dump { module_name, level })
}

fn read_run<'a>(alloc: Global, words: &'a [String]) -> Result<Option<CommandLine<'a>>, NoMemory>
    ensures line { IfOk result (λ line. option_map line_of line ≡ line_in run_form run_line (words_of words.entry.now)) }
    ensures in_range { IfOk result (λ line. IfSome line IsInRange) }
{
    let arguments = run_arguments(alloc)?;
    match matches_of(arguments, words)? {
        Some(matches) => Ok(run_line(&matches)),
        None => Ok(None),
    }
}

fn read_big<'a>(alloc: Global, words: &'a [String]) -> Result<Option<CommandLine<'a>>, NoMemory>
    ensures line { IfOk result (λ line. option_map line_of line ≡ line_in big_form big_line (words_of words.entry.now)) }
    ensures in_range { IfOk result (λ line. IfSome line IsInRange) }
{
    let arguments = big_arguments(alloc)?;
    match matches_of(arguments, words)? {
        Some(matches) => Ok(big_line(&matches)),
        None => Ok(None),
    }
}

fn read_eval<'a>(alloc: Global, words: &'a [String]) -> Result<Option<CommandLine<'a>>, NoMemory>
    ensures line { IfOk result (λ line. option_map line_of line ≡ line_in eval_form eval_line (words_of words.entry.now)) }
    ensures in_range { IfOk result (λ line. IfSome line IsInRange) }
{
    let arguments = eval_arguments(alloc)?;
    match matches_of(arguments, words)? {
        Some(matches) => Ok(eval_line(&matches)),
        None => Ok(None),
    }
}

fn read_sim<'a>(alloc: Global, words: &'a [String]) -> Result<Option<CommandLine<'a>>, NoMemory>
    ensures line { IfOk result (λ line. option_map line_of line ≡ line_in sim_form sim_line (words_of words.entry.now)) }
    ensures in_range { IfOk result (λ line. IfSome line IsInRange) }
{
    let arguments = sim_arguments(alloc)?;
    match matches_of(arguments, words)? {
        Some(matches) => Ok(sim_line(&matches)),
        None => Ok(None),
    }
}

fn read_dump<'a>(alloc: Global, words: &'a [String]) -> Result<Option<CommandLine<'a>>, NoMemory>
    ensures line { IfOk result (λ line. option_map line_of line ≡ line_in dump_form dump_line (words_of words.entry.now)) }
    ensures in_range { IfOk result (λ line. IfSome line IsInRange) }
{
    let arguments = dump_arguments(alloc)?;
    match matches_of(arguments, words)? {
        Some(matches) => Ok(dump_line(&matches)),
        None => Ok(None),
    }
}

/// The command that the words of a command line are, without the program's name; none where they
/// are no command line.
pub fn read_words<'a>(
    alloc: Global,
    words: &'a [String],
) -> Result<Option<CommandLine<'a>>, NoMemory>
    ensures line { IfOk result (λ line. option_map line_of line ≡ command_of (words_of words.entry.now)) }
    ensures in_range { IfOk result (λ line. IfSome line IsInRange) }
{
    match words {
        [name, rest @ ..] => match name.as_str() {
            "run" => read_run(alloc, rest),
            "big" => read_big(alloc, rest),
            "eval" => read_eval(alloc, rest),
            "sim" => read_sim(alloc, rest),
            "dump" => read_dump(alloc, rest),
            _ => Ok(None),
        },
        [] => Ok(None),
    }
}
