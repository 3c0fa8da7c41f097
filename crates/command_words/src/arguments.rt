//! What a command takes, as a command of `clap`.
ghost use Rattle.std.specs.Prelude.{◌≡◌, [], codes, false, true, IfOk};
ghost use Rattle.clap.specs.Simple.{app_of, new_rule, with_rule};
ghost use Rattle.clap.specs.Walk.{rule_of};
ghost use Rattle.command_words.specs.Rules.{app_in, app_with, option_rule, with_options};
ghost use Rattle.command_words.specs.Commands.{run_names, run_form, big_form, eval_form, sim_form, dump_form};

use clap::{Arg, ArgAction, Command};
use rj_num::NoMemory;
use std::alloc::Global;

/// The arguments of a command: options by long names, and positionals.
#[derive(Drop)]
pub struct Arguments<'a> {
    alloc: Global,
    pub(crate) command: Command<'a>,
}

impl<'a> Arguments<'a> {
    /// None yet; the words begin behind the command's name, and there are no flags for help.
    fn new(alloc: Global, name: &'a str) -> Arguments<'a>
        ensures { app_of result.command ≡ app_with name.entry.now [] }
    {
        let command = Command::new(alloc, name)
            .no_binary_name(true)
            .disable_help_flag(true)
            .disable_version_flag(true);
        Arguments { alloc, command }
    }

    fn with(self, arg: Arg<'a>) -> Result<Arguments<'a>, NoMemory>
        ensures { arg.entry.global ≡ false → IfOk result (λ r.
            app_of r.command ≡ with_rule (app_of self.entry.command) (rule_of arg.entry)) }
    {
        let Arguments { alloc, command } = self;
        match command.arg(arg) {
            Ok(command) => Ok(Arguments { alloc, command }),
            Err(_) => Err(NoMemory),
        }
    }

    /// Adds an option with a value.
    fn option(self, name: &'a str) -> Result<Arguments<'a>, NoMemory>
        ensures { IfOk result (λ r.
            app_of r.command ≡ with_rule (app_of self.entry.command) (option_rule (name.entry.now, true))) }
    {
        let arg = Arg::new(self.alloc, name).long(name);
        self.with(arg)
    }

    /// Adds an option without a value.
    fn flag(self, name: &'a str) -> Result<Arguments<'a>, NoMemory>
        ensures { IfOk result (λ r.
            app_of r.command ≡ with_rule (app_of self.entry.command) (option_rule (name.entry.now, false))) }
    {
        let arg = Arg::new(self.alloc, name)
            .long(name)
            .action(ArgAction::SetTrue);
        self.with(arg)
    }

    /// Adds a positional.
    fn positional(self, name: &'a str) -> Result<Arguments<'a>, NoMemory>
        ensures { IfOk result (λ r.
            app_of r.command ≡ with_rule (app_of self.entry.command) (new_rule name.entry.now)) }
    {
        let arg = Arg::new(self.alloc, name);
        self.with(arg)
    }

    /// Adds the options of `run` and `big`.
    fn run_options(self) -> Result<Arguments<'a>, NoMemory>
        ensures { IfOk result (λ r. app_of r.command ≡ with_options run_names (app_of self.entry.command)) }
    {
        self.option("harts")?
            .option("workers")?
            .option("code-words")?
            .option("room")?
            .flag("report")
    }
}

pub fn run_arguments<'a>(alloc: Global) -> Result<Arguments<'a>, NoMemory>
    ensures { IfOk result (λ r. app_of r.command ≡ app_in (codes "run") run_form) }
{
    Arguments::new(alloc, "run")
        .run_options()?
        .positional("MODULE")?
        .positional("CALLS")
}

pub fn big_arguments<'a>(alloc: Global) -> Result<Arguments<'a>, NoMemory>
    ensures { IfOk result (λ r. app_of r.command ≡ app_in (codes "big") big_form) }
{
    Arguments::new(alloc, "big").run_options()?.positional("N")
}

pub fn eval_arguments<'a>(alloc: Global) -> Result<Arguments<'a>, NoMemory>
    ensures { IfOk result (λ r. app_of r.command ≡ app_in (codes "eval") eval_form) }
{
    Arguments::new(alloc, "eval")
        .option("room")?
        .positional("MODULE")?
        .positional("CALLS")
}

pub fn sim_arguments<'a>(alloc: Global) -> Result<Arguments<'a>, NoMemory>
    ensures { IfOk result (λ r. app_of r.command ≡ app_in (codes "sim") sim_form) }
{
    Arguments::new(alloc, "sim")
        .option("draw")?
        .option("steps")?
        .option("harts")?
        .option("code-words")?
        .option("room")?
        .positional("MODULE")?
        .positional("CALLS")
}

pub fn dump_arguments<'a>(alloc: Global) -> Result<Arguments<'a>, NoMemory>
    ensures { IfOk result (λ r. app_of r.command ≡ app_in (codes "dump") dump_form) }
{
    Arguments::new(alloc, "dump")
        .option("level")?
        .positional("MODULE")
}
