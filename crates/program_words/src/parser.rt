//! The parser of command lines, told of the forms.
ghost use Rattle.std.specs.Prelude.{◌≡◌, IfOk, codes, false};
ghost use Rattle.clap.specs.Words.{app_of, rule_of};
ghost use Rattle.clap.specs.declared.builder.command.Command.TheViews.{out-Command};
ghost use Rattle.program_words.specs.Parser.{bare_app, make_app, operand_rule, program_app, step_app};

use clap::{Arg, Command};
use std::alloc::{AllocError, Global};

/// The parser of all forms. Each is a subcommand of its own, whose operands are all required. It reads no name of the program
/// in front of the words.
pub(crate) fn parser<'a>(alloc: Global) -> Result<Command<'a>, AllocError>
    ensures { IfOk result (λ parser. app_of parser ≡ program_app) }
{
    let step = step_parser(alloc)?;
    let make = make_parser(alloc)?;
    bare_parser(alloc).subcommand(step)?.subcommand(make)
}

fn step_parser<'a>(alloc: Global) -> Result<Command<'a>, AllocError>
    ensures app { IfOk result (λ parser. app_of parser ≡ step_app) }
    ensures local { IfOk result (λ parser. (out-Command parser).has_globals ≡ false) }
{
    Command::new(alloc, "step")
        .arg(operand(alloc, "SCRIPT"))?
        .arg(operand(alloc, "JOURNAL"))
}

fn make_parser<'a>(alloc: Global) -> Result<Command<'a>, AllocError>
    ensures app { IfOk result (λ parser. app_of parser ≡ make_app) }
    ensures local { IfOk result (λ parser. (out-Command parser).has_globals ≡ false) }
{
    Command::new(alloc, "make")
        .arg(operand(alloc, "NUMBER"))?
        .arg(operand(alloc, "SESSIONS"))?
        .arg(operand(alloc, "LINES"))
}

fn operand<'a>(alloc: Global, name: &'a str) -> Arg<'a>
    ensures rule { rule_of result ≡ operand_rule name.now }
    ensures local { result.global ≡ false }
{
    Arg::new(alloc, name).required(true)
}

fn bare_parser<'a>(alloc: Global) -> Command<'a>
    ensures { app_of result ≡ bare_app }
{
    Command::new(alloc, "acl")
        .no_binary_name(true)
        .disable_help_flag(true)
        .disable_help_subcommand(true)
        .subcommand_required(true)
}
