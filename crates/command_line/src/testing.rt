//! Checks that arguments are options that the rules allow, and finds their values, without
//! allocating.

ghost use Rattle.std.specs.Prelude.{◌≡◌, ◌≤◌, IfSome, map, option_map, is_some, Some, []};
ghost use Rattle.std.specs.Prelude.{string_bytes};
ghost use Rattle.clap.specs.Lexer.{long_of, name_and_value, strip_byte};
ghost use Rattle.command_line.specs.Args.{given_after, is_allowed, is_named_in, names, part_of};
ghost use Rattle.command_line.specs.Args.{entry_of, text_in};

use crate::grammar::OptionRule;

/// An option among arguments.
#[derive(Clone, Copy)]
pub struct Part<'a> {
    /// Its name.
    pub name: &'a str,
    /// The text of its value.
    pub value: &'a str,
    /// How many arguments it occupies, 1 or 2.
    pub args: usize,
}

/// Whether the arguments are options that the rules allow, each at most once.
pub fn are_lawful(rules: &[OptionRule], args: &[String]) -> bool
    ensures { result ≡ is_some (given_after (map entry_of rules.now) (Some [])
        (map string_bytes args.now)) }
{
    let mut place = 0;
    while place < args.len() {
        let Some(part) = first_part(&args[place..]) else {
            return false;
        };
        if is_named_in(&args[..place], part.name) {
            return false;
        }
        if !is_allowed(rules, part.name, part.value) {
            return false;
        }
        place += part.args;
    }
    true
}

/// Returns the value of the option with this name, from the first argument that names it.
pub fn text_in<'a>(args: &'a [String], name: &str) -> Option<&'a str>
    ensures { option_map (λ s. s.now) result ≡ text_in name.now (map string_bytes args.now) }
{
    for place in 0..args.len() {
        if names(args[place].as_str(), name) {
            return first_text(&args[place..]);
        }
    }
    None
}

/// Returns the value of the option that the arguments begin with.
fn first_text<'a>(args: &'a [String]) -> Option<&'a str>
    ensures { option_map (λ s. s.now) result ≡
        option_map (λ p. p.1) (part_of (map string_bytes args.now)) }
{
    Some(first_part(args)?.value)
}

/// Returns the option that the arguments begin with.
fn first_part<'a>(args: &'a [String]) -> Option<Part<'a>>
    ensures value { option_map (λ p. (p.name.now, p.value.now, p.args)) result ≡
        part_of (map string_bytes args.now) }
    ensures args { IfSome result (λ p. (1 ≤ p.args) × (p.args ≤ 2)) }
{
    let arg = args.first()?;
    let (name, joined) = option_of(arg.as_str())?;
    if let Some(value) = joined {
        return Some(Part {
            name,
            value,
            args: 1,
        });
    }
    let value = args.get(1)?;
    Some(Part {
        name,
        value: value.as_str(),
        args: 2,
    })
}

/// Whether one of the arguments names this option.
fn is_named_in(args: &[String], name: &str) -> bool
    ensures { result ≡ is_named_in name.now (map string_bytes args.now) }
{
    for arg in args {
        if names(arg.as_str(), name) {
            return true;
        }
    }
    false
}

/// Whether the argument names this option.
fn names(arg: &str, name: &str) -> bool
    ensures { result ≡ names name.now arg.now }
{
    match option_of(arg) {
        Some((other, _)) => other == name,
        None => false,
    }
}

/// Whether a rule has this name and admits the value.
fn is_allowed(rules: &[OptionRule], name: &str, value: &str) -> bool
    ensures { result ≡ is_allowed (map entry_of rules.now) name.now value.now }
{
    for rule in rules {
        if rule.name == name {
            return rule.form.value_in(value).is_some();
        }
    }
    false
}

/// Returns the name and the value of an argument `--name` or `--name=VALUE`.
fn option_of(arg: &str) -> Option<(&str, Option<&str>)>
    ensures { option_map (λ p. (p.0.now, option_map (λ s. s.now) p.1)) result ≡ long_of arg.now }
{
    let rest = after_hyphen(after_hyphen(arg)?)?;
    if rest.is_empty() {
        return None;
    }
    Some(name_and_value(rest))
}

/// Returns the text after an initial hyphen.
fn after_hyphen(arg: &str) -> Option<&str>
    ensures { option_map (λ s. s.now) result ≡ strip_byte 45 arg.now }
{
    arg.strip_prefix('-')
}

/// Splits at the first `=`, if there is one.
fn name_and_value(text: &str) -> (&str, Option<&str>)
    ensures { (result.0.now, option_map (λ s. s.now) result.1) ≡ name_and_value text.now }
{
    match text.split_once('=') {
        Some((name, value)) => (name, Some(value)),
        None => (text, None),
    }
}
