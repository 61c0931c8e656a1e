//! Options, arguments and numbers in the words of a command, read by the crate `clap`.
ghost use Rattle.std.specs.Prelude.{◌≡◌, ◌<◌, ◌≤◌, ◌+◌, ◌-◌, ◌*◌, ◌^◌, [], true, false, map, string_bytes, IfOk};
ghost use Rattle.std.specs.Option.{option_and_then, option_map};
ghost use Rattle.std.specs.List.{list_all};
ghost use Rattle.std.specs.Char.{is_ascii_digit};
ghost use Rattle.clap.specs.Walk.{first_of, rows_of, rule_of};
ghost use Rattle.clap.specs.Matches.{found_of};
ghost use Rattle.clap.specs.Simple.{app_of, with_rule};
ghost use Rattle.clap.specs.Faults.{is_simple_and_free};
ghost use Rattle.uf_words.specs.Commands.{ReadsWords};
ghost use Rattle.uf_words.specs.Options.{FindsIn, argument, flag, found_by, is_flagged, is_mode, is_numeral};
ghost use Rattle.uf_words.specs.Options.{is_octal_digit, long_flag, mode_value, numeral_value, number_or};
ghost use Rattle.uf_words.specs.Options.{optional_argument, rule_in, simple_command, valued, valued_short};

use crate::WordFault;
use clap::error::ErrorKind;
use clap::{Arg, ArgAction, ArgMatches, Command};
use std::alloc::{AllocError, Global};
use uf_cid::{Memory, Text};

// A command of `clap` with no options and no arguments yet.
pub fn bare_command<'a>(alloc: Global) -> Command<'a>
    ensures { app_of result ≡ simple_command [] }
{
    Command::new(alloc, "unixfs")
        .no_binary_name(true)
        .disable_help_flag(true)
}

// The command with one more option or argument.
pub fn with<'a>(command: Command<'a>, arg: Arg<'a>) -> Result<Command<'a>, AllocError>
    requires { arg.global ≡ false }
    ensures { IfOk result (λ more. app_of more ≡ with_rule (app_of command.entry) (rule_of arg.entry)) }
{
    command.arg(arg)
}

// A flag, by its name or by one letter.
pub fn flag_arg<'a>(alloc: Global, name: &'a str, letter: char) -> Arg<'a>
    ensures rule { rule_of result ≡ flag name.entry.now letter }
    ensures own { result.global ≡ false }
{
    Arg::new(alloc, name)
        .long(name)
        .short(letter)
        .action(ArgAction::SetTrue)
}

// A flag, by its name alone.
pub fn long_flag_arg<'a>(alloc: Global, name: &'a str) -> Arg<'a>
    ensures rule { rule_of result ≡ long_flag name.entry.now }
    ensures own { result.global ≡ false }
{
    Arg::new(alloc, name).long(name).action(ArgAction::SetTrue)
}

// An option with a value, by its name alone.
pub fn valued_arg<'a>(alloc: Global, name: &'a str) -> Arg<'a>
    ensures rule { rule_of result ≡ valued name.entry.now }
    ensures own { result.global ≡ false }
{
    Arg::new(alloc, name).long(name).action(ArgAction::Set)
}

// An option with a value, by its name or by one letter.
pub fn valued_short_arg<'a>(alloc: Global, name: &'a str, letter: char) -> Arg<'a>
    ensures rule { rule_of result ≡ valued_short name.entry.now letter }
    ensures own { result.global ≡ false }
{
    valued_arg(alloc, name).short(letter)
}

// An argument that has to be there.
pub fn argument_arg<'a>(alloc: Global, name: &'a str) -> Arg<'a>
    ensures rule { rule_of result ≡ argument name.entry.now }
    ensures own { result.global ≡ false }
{
    Arg::new(alloc, name).required(true).action(ArgAction::Set)
}

// An argument that may be absent.
pub fn optional_arg<'a>(alloc: Global, name: &'a str) -> Arg<'a>
    ensures rule { rule_of result ≡ optional_argument name.entry.now }
    ensures own { result.global ≡ false }
{
    Arg::new(alloc, name).action(ArgAction::Set)
}

/// An option or an argument of a command.
#[derive(Clone, Copy)]
pub enum OptionRow<'a> {
    /// A flag, by its name or by one letter.
    Flag(&'a str, char),
    /// A flag, by its name alone.
    LongFlag(&'a str),
    /// An option with a value, by its name alone.
    Valued(&'a str),
    /// An option with a value, by its name or by one letter.
    ValuedShort(&'a str, char),
    /// An argument that has to be there.
    Argument(&'a str),
    /// An argument that may be absent.
    Optional(&'a str),
}

// What `clap` makes of an option or an argument.
fn arg_of<'a>(alloc: Global, row: OptionRow<'a>) -> Arg<'a>
    ensures rule { rule_of result ≡ rule_in row.entry }
    ensures own { result.global ≡ false }
{
    match row {
        OptionRow::Flag(name, letter) => flag_arg(alloc, name, letter),
        OptionRow::LongFlag(name) => long_flag_arg(alloc, name),
        OptionRow::Valued(name) => valued_arg(alloc, name),
        OptionRow::ValuedShort(name, letter) => valued_short_arg(alloc, name, letter),
        OptionRow::Argument(name) => argument_arg(alloc, name),
        OptionRow::Optional(name) => optional_arg(alloc, name),
    }
}

// The command of `clap` with these options and arguments.
pub fn command_of<'a>(alloc: Global, rows: &[OptionRow<'a>]) -> Result<Command<'a>, AllocError>
    ensures { IfOk result (λ command. app_of command ≡ simple_command (map rule_in rows.entry.now)) }
{
    let mut command = bare_command(alloc);
    for row in rows {
        command = with(command, arg_of(alloc, *row))?;
    }
    Ok(command)
}

// What the command finds in the words.
pub fn find<'a>(command: Command<'a>, words: &'a [String]) -> Result<ArgMatches<'a>, WordFault>
    requires { is_simple_and_free (app_of command) ≡ true }
    ensures { FindsIn result (found_by (app_of command.entry) (map string_bytes words.entry.now)) }
{
    match command.try_get_matches_from(words) {
        Ok(found) => Ok(found),
        Err(why) => match why.kind() {
            ErrorKind::OutOfMemory => Err(WordFault::Memory),
            _ => Err(WordFault::Usage),
        },
    }
}

// The value of an option or an argument.
pub fn value_of<'a>(found: &ArgMatches<'a>, name: &str) -> Option<&'a str>
    ensures { option_map (λ value. value.now) result ≡ first_of name.now (rows_of (found_of found.now)) }
{
    found.get_str(name)
}

// Whether the flag is given: its value is `true` then, and `false` else.
pub fn is_given(found: &ArgMatches<'_>, name: &str) -> bool
    ensures { result ≡ is_flagged name.now (rows_of (found_of found.now)) }
{
    match value_of(found, name) {
        Some(value) => value == "true",
        None => false,
    }
}

// The value as a text of its own.
pub fn text_of(alloc: Global, found: &ArgMatches<'_>, name: &str) -> Result<Text, WordFault>
    ensures { ReadsWords result (first_of name.now (rows_of (found_of found.now))) }
{
    match value_of(found, name) {
        Some(value) => Ok(owned(alloc, value)?),
        None => Err(WordFault::Usage),
    }
}

// The value as a text of its own, where there is one.
pub fn text_or_none(
    alloc: Global,
    found: &ArgMatches<'_>,
    name: &str,
) -> Result<Option<Text>, Memory>
    ensures { IfOk result (λ text. text ≡ first_of name.now (rows_of (found_of found.now))) }
{
    match value_of(found, name) {
        Some(value) => Ok(Some(owned(alloc, value)?)),
        None => Ok(None),
    }
}

// A text of its own.
pub fn owned(alloc: Global, text: &str) -> Result<Text, Memory>
    ensures { IfOk result (λ own. own ≡ text.now) }
{
    let mut own = Text::new(alloc);
    own.push_str(text)?;
    Ok(own)
}

// The number of the value, or the one that stands for none.
pub fn number_in(found: &ArgMatches<'_>, name: &str, absent: u64) -> Result<u64, WordFault>
    ensures { ReadsWords result (number_or absent (first_of name.now (rows_of (found_of found.now)))) }
{
    match value_of(found, name) {
        Some(value) => number(value),
        None => Ok(absent),
    }
}

// The number of the value, which has to be there.
pub fn number_of(found: &ArgMatches<'_>, name: &str) -> Result<u64, WordFault>
    ensures { ReadsWords result (option_and_then numeral_value (first_of name.now (rows_of (found_of found.now)))) }
{
    match value_of(found, name) {
        Some(value) => number(value),
        None => Err(WordFault::Usage),
    }
}

// The number of a word of 1 to 20 decimal digits.
#[tactic(auto, unfolding(crate::specs::Options::numeral_value))]
pub fn number(word: &str) -> Result<u64, WordFault>
    ensures { ReadsWords result (numeral_value word.now) }
{
    if !is_numeral_text(word) {
        return Err(WordFault::Usage);
    }
    match word.parse::<u64>() {
        Ok(value) => Ok(value),
        Err(_) => Err(WordFault::Usage),
    }
}

// The number of a word of one to four octal digits.
#[tactic(auto, unfolding(crate::specs::Options::mode_value))]
pub fn mode(word: &str) -> Result<u64, WordFault>
    ensures exact { ReadsWords result (mode_value word.now) }
    ensures limit { IfOk result (λ mode. mode < 4096) }
{
    if !is_mode_text(word) {
        return Err(WordFault::Usage);
    }
    match word.as_bytes() {
        [a] => Ok(octal(0, *a)),
        [a, b] => Ok(octal(octal(0, *a), *b)),
        [a, b, c] => Ok(octal(octal(octal(0, *a), *b), *c)),
        [a, b, c, d] => Ok(octal(octal(octal(octal(0, *a), *b), *c), *d)),
        _ => unreachable!(),
    }
}

// The number of some octal digits and one more.
fn octal(number: u64, digit: u8) -> u64
    requires few { number < 2 ^ 32 }
    requires digit { digit ≤ 55 }
    ensures exact { result ≡ number * 8 + (digit - 48) }
    ensures limit { result ≤ number * 8 + 7 }
{
    number * 8 + u64::from(digit.saturating_sub(b'0'))
}

// Whether the word has one to four bytes, all octal digits.
fn is_mode_text(word: &str) -> bool
    ensures { result ≡ is_mode word.now }
{
    !word.is_empty() && word.len() <= 4 && is_octal(word.as_bytes())
}

// Whether all bytes are octal digits.
fn is_octal(bytes: &[u8]) -> bool
    ensures { result ≡ list_all is_octal_digit bytes.now }
{
    bytes.iter().all(|byte| (b'0'..=b'7').contains(byte))
}

// Whether the word has 1 to 20 bytes, all decimal digits.
fn is_numeral_text(word: &str) -> bool
    ensures { result ≡ is_numeral word.now }
{
    !word.is_empty() && word.len() <= 20 && is_digits(word.as_bytes())
}

// Whether all bytes are decimal digits.
fn is_digits(bytes: &[u8]) -> bool
    ensures { result ≡ list_all is_ascii_digit bytes.now }
{
    bytes.iter().all(|byte| byte.is_ascii_digit())
}
