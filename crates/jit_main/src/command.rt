//! Which commands need harts.
ghost use Rattle.std.specs.Prelude.{◌≡◌, Some};
ghost use Rattle.command_words.specs.Commands.{line_of};
ghost use Rattle.jit_main.specs.Commands.{is_run};

use command_words::CommandLine;

/// Whether the command is `run` or `big`.
pub fn runs(line: &CommandLine<'_>) -> bool
    ensures { result ≡ is_run (Some (line_of line.now)) }
{
    match line {
        CommandLine::Run { .. } => true,
        CommandLine::Big { .. } => true,
        CommandLine::Eval { .. } => false,
        CommandLine::Sim { .. } => false,
        CommandLine::Dump { .. } => false,
    }
}
