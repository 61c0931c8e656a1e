//! The options and arguments of each command, as commands of `clap`.
ghost use Rattle.std.specs.Prelude.{◌≡◌, [], ◌∷◌, true, IfOk};
ghost use Rattle.clap.specs.Faults.{is_simple_and_free};
ghost use Rattle.clap.specs.Simple.{app_of};
ghost use Rattle.uf_words.specs.Commands.{add_options, check_options, init_options, ls_options, prove_options};
ghost use Rattle.uf_words.specs.Commands.{read_options, touch_options, write_options};
ghost use Rattle.uf_words.specs.Options.{argument, flag, simple_command};

use crate::options::{OptionRow, command_of};
use clap::Command;
use std::alloc::{AllocError, Global};

// The options of `init`.
#[tactic(auto, unfolding(crate::specs::Commands::init_options), using(crate::proofs::Simple::init_simple))]
pub fn init_command<'a>(alloc: Global) -> Result<Command<'a>, AllocError>
    ensures made { IfOk result (λ command. app_of command ≡ init_options) }
    ensures simple { IfOk result (λ command. is_simple_and_free (app_of command) ≡ true) }
{
    command_of(
        alloc,
        &[
            OptionRow::Valued("chunk"),
            OptionRow::Valued("width"),
            OptionRow::Valued("threshold"),
        ],
    )
}

// The options and the argument of `add`.
#[tactic(auto, unfolding(crate::specs::Commands::add_options), using(crate::proofs::Simple::add_simple))]
pub fn add_command<'a>(alloc: Global) -> Result<Command<'a>, AllocError>
    ensures made { IfOk result (λ command. app_of command ≡ add_options) }
    ensures simple { IfOk result (λ command. is_simple_and_free (app_of command) ≡ true) }
{
    command_of(
        alloc,
        &[
            OptionRow::Flag("recursive", 'r'),
            OptionRow::Flag("only-hash", 'n'),
            OptionRow::Valued("to-files"),
            OptionRow::Optional("HOSTPATH"),
        ],
    )
}

// The flag and the argument of `files ls`.
#[tactic(auto, unfolding(crate::specs::Commands::ls_options), using(crate::proofs::Simple::ls_simple))]
pub fn ls_command<'a>(alloc: Global) -> Result<Command<'a>, AllocError>
    ensures made { IfOk result (λ command. app_of command ≡ ls_options) }
    ensures simple { IfOk result (λ command. is_simple_and_free (app_of command) ≡ true) }
{
    command_of(
        alloc,
        &[OptionRow::Flag("long", 'l'), OptionRow::Optional("PATH")],
    )
}

// The options and the argument of `files read`.
#[tactic(auto, unfolding(crate::specs::Commands::read_options), using(crate::proofs::Simple::read_simple))]
pub fn read_command<'a>(alloc: Global) -> Result<Command<'a>, AllocError>
    ensures made { IfOk result (λ command. app_of command ≡ read_options) }
    ensures simple { IfOk result (λ command. is_simple_and_free (app_of command) ≡ true) }
{
    command_of(
        alloc,
        &[
            OptionRow::ValuedShort("offset", 'o'),
            OptionRow::ValuedShort("count", 'n'),
            OptionRow::Argument("PATH"),
        ],
    )
}

// The options and the argument of `files write`.
#[tactic(auto, unfolding(crate::specs::Commands::write_options), using(crate::proofs::Simple::write_simple))]
pub fn write_command<'a>(alloc: Global) -> Result<Command<'a>, AllocError>
    ensures made { IfOk result (λ command. app_of command ≡ write_options) }
    ensures simple { IfOk result (λ command. is_simple_and_free (app_of command) ≡ true) }
{
    command_of(
        alloc,
        &[
            OptionRow::ValuedShort("offset", 'o'),
            OptionRow::Flag("create", 'e'),
            OptionRow::Flag("truncate", 't'),
            OptionRow::ValuedShort("hex", 'x'),
            OptionRow::Argument("PATH"),
        ],
    )
}

// The option and the arguments of `files touch`.
#[tactic(auto, unfolding(crate::specs::Commands::touch_options), using(crate::proofs::Simple::touch_simple))]
pub fn touch_command<'a>(alloc: Global) -> Result<Command<'a>, AllocError>
    ensures made { IfOk result (λ command. app_of command ≡ touch_options) }
    ensures simple { IfOk result (λ command. is_simple_and_free (app_of command) ≡ true) }
{
    command_of(
        alloc,
        &[
            OptionRow::Valued("nanos"),
            OptionRow::Argument("SECONDS"),
            OptionRow::Argument("PATH"),
        ],
    )
}

// The flag and the argument of `prove`.
#[tactic(auto, unfolding(crate::specs::Commands::prove_options), using(crate::proofs::Simple::prove_simple))]
pub fn prove_command<'a>(alloc: Global) -> Result<Command<'a>, AllocError>
    ensures made { IfOk result (λ command. app_of command ≡ prove_options) }
    ensures simple { IfOk result (λ command. is_simple_and_free (app_of command) ≡ true) }
{
    command_of(
        alloc,
        &[OptionRow::LongFlag("absent"), OptionRow::Argument("PATH")],
    )
}

// The flag and the arguments of `check`.
#[tactic(auto, unfolding(crate::specs::Commands::check_options), using(crate::proofs::Simple::check_simple))]
pub fn check_command<'a>(alloc: Global) -> Result<Command<'a>, AllocError>
    ensures made { IfOk result (λ command. app_of command ≡ check_options) }
    ensures simple { IfOk result (λ command. is_simple_and_free (app_of command) ≡ true) }
{
    command_of(
        alloc,
        &[
            OptionRow::LongFlag("absent"),
            OptionRow::Argument("CID"),
            OptionRow::Argument("PATH"),
        ],
    )
}

// One argument.
#[tactic(auto, using(crate::proofs::Simple::argument_simple))]
pub fn one_argument_command<'a>(alloc: Global, name: &'a str) -> Result<Command<'a>, AllocError>
    ensures made { IfOk result (λ command. app_of command ≡ simple_command (argument name.entry.now ∷ [])) }
    ensures simple { IfOk result (λ command. is_simple_and_free (app_of command) ≡ true) }
{
    command_of(alloc, &[OptionRow::Argument(name)])
}

// Two arguments.
#[tactic(auto, using(crate::proofs::Simple::arguments_simple))]
pub fn two_arguments_command<'a>(
    alloc: Global,
    first: &'a str,
    second: &'a str,
) -> Result<Command<'a>, AllocError>
    ensures made { IfOk result (λ command. app_of command
        ≡ simple_command (argument first.entry.now ∷ argument second.entry.now ∷ [])) }
    ensures simple { IfOk result (λ command. is_simple_and_free (app_of command) ≡ true) }
{
    command_of(
        alloc,
        &[OptionRow::Argument(first), OptionRow::Argument(second)],
    )
}

// A flag and one argument.
#[tactic(auto, using(crate::proofs::Simple::flagged_simple))]
pub fn flagged_command<'a>(
    alloc: Global,
    name: &'a str,
    letter: char,
    value: &'a str,
) -> Result<Command<'a>, AllocError>
    ensures made { IfOk result (λ command. app_of command
        ≡ simple_command (flag name.entry.now letter ∷ argument value.entry.now ∷ [])) }
    ensures simple { IfOk result (λ command. is_simple_and_free (app_of command) ≡ true) }
{
    command_of(
        alloc,
        &[OptionRow::Flag(name, letter), OptionRow::Argument(value)],
    )
}
