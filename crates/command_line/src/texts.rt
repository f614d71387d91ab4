//! The numbers of options, from their texts.

ghost use Rattle.std.specs.Prelude.{◌≡◌, IfSome, Option, map, option_map, string_bytes};
ghost use Rattle.clap.specs.Words.{first_value, found_of};
ghost use Rattle.command_line.specs.Args.{IsAdmitted, Text, number_by, entry_of, text_in};

use crate::grammar::OptionRule;
use crate::testing::text_in;
use clap::ArgMatches;

/// A source of the texts of options.
pub trait Texts {
    /// The text of an option by its name.
    ghost text_at: { Self → Text → Option Text };

    /// Returns the text of the option with this name, if it was given.
    fn text(&self, name: &str) -> Option<&str>
        ensures { option_map (λ s. s.now) result ≡ text_at self.now name.now };
}

/// The arguments after a command.
#[derive(Clone, Copy)]
pub struct Args<'a> {
    /// All of these arguments, in order.
    pub args: &'a [String],
}

impl<'a> Texts for Args<'a> {
    ghost text_at = { λ w name. text_in name (map string_bytes w.args.now) };

    fn text(&self, name: &str) -> Option<&str> {
        text_in(self.args, name)
    }
}

impl<'a> Texts for ArgMatches<'a> {
    ghost text_at = { λ m name. first_value (found_of m) name };

    fn text(&self, name: &str) -> Option<&str> {
        self.get_str(name)
    }
}

/// Returns the number of a rule's option: that of its text if it was given, otherwise the default.
#[tactic(auto, unfolding(crate::specs::Args::number_by))]
pub fn number_by<T: Texts>(texts: &T, rule: &OptionRule) -> Option<u128>
    requires { IfSome rule.now.default (IsAdmitted rule.now.form) }
    ensures value { result ≡ number_by (entry_of rule.now) (T.text_at texts.now rule.now.name.now) }
    ensures admitted { IfSome result (IsAdmitted rule.now.form) }
{
    match texts.text(rule.name) {
        Some(text) => rule.form.value_in(text),
        None => rule.default,
    }
}
