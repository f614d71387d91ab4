//! The values of options, as clap splits them.

ghost use Rattle.std.specs.Prelude.{◌≡◌, IfOk, IfErr, map, true, is_some, Some, [], string_bytes};
ghost use Rattle.clap.specs.Words.{app_of, first_value, found_of, kind_of};
ghost use Rattle.command_line.specs.Args.{Given, Text, app_from, bare_app, given_after, entry_of};
ghost use Rattle.command_line.specs.Args.{option_text};

use crate::grammar::OptionRule;
use clap::error::ErrorKind;
use clap::{Arg, ArgAction, ArgMatches, Command, Error};
use std::alloc::{AllocError, Global};

/// Returns clap's matches of arguments that are options of the rules, for a command with this name:
/// an option's value is the text that was given. Fails only if out of memory.
pub fn matches_by<'a>(
    alloc: Global,
    name: &'a str,
    rules: &[OptionRule],
    args: &'a [String],
) -> Result<ArgMatches<'a>, Error>
    requires { is_some (given_after (map entry_of rules.now) (Some [])
        (map string_bytes args.now)) ≡ true }
    ensures ok { (given : Given) →
        given_after (map entry_of rules.now) (Some []) (map string_bytes args.now) ≡ Some given →
        IfOk result (λ m. (option : Text) →
        first_value (found_of m) option ≡ option_text option given) }
    ensures err { IfErr result (λ e. kind_of e ≡ ErrorKind.OutOfMemory) }
{
    let command = command_by(alloc, name, rules)?;
    command.try_get_matches_from(args)
}

/// Makes a clap command with an option for each rule, without help and version.
fn command_by<'a>(
    alloc: Global,
    name: &'a str,
    rules: &[OptionRule],
) -> Result<Command<'a>, AllocError>
    ensures { IfOk result (λ c. app_of c ≡ app_from (bare_app name.now) (map entry_of rules.now)) }
{
    let mut command = Command::new(alloc, name)
        .no_binary_name(true)
        .disable_help_flag(true);
    for rule in rules {
        let option = Arg::new(alloc, rule.name)
            .long(rule.name)
            .action(ArgAction::Set);
        command = command.arg(option)?;
    }
    Ok(command)
}
