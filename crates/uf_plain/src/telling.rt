//! A rule reported with the path up to the name that decides.
ghost use Rattle.std.specs.Prelude.{◌≡◌, IfOk, take};
ghost use Rattle.uf_plain.specs.Rules.{path_text as text_of, rule_of};
ghost use Rattle.uf_plain.specs.declared.rule.Rule.TheVariants as rules;

use crate::{Refused, Rule};
use std::alloc::Global;
use uf_cid::{Memory, Text};
use uf_tree::Name;

/// The rule that refuses a command with this path.
pub fn rule_at(alloc: Global, names: &[Name], why: Refused) -> Result<Rule, Memory>
    ensures { IfOk result (λ rule. rule ≡ rule_of names.now why) }
{
    match why {
        Refused::NotFound(led) => Ok(Rule::NotFound(path_to(alloc, names, led)?)),
        Refused::NotADirectory(led) => Ok(Rule::NotADirectory(path_to(alloc, names, led)?)),
        Refused::IsADirectory(led) => Ok(Rule::IsADirectory(path_to(alloc, names, led)?)),
        Refused::Exists(led) => Ok(Rule::Exists(path_to(alloc, names, led)?)),
        Refused::NeedsRecursive(led) => Ok(Rule::NeedsRecursive(path_to(alloc, names, led)?)),
        Refused::RootRefused => Ok(Rule::RootRefused),
        Refused::FileTooLong => Ok(Rule::FileTooLong),
        Refused::Collision(first, second) => Ok(Rule::Collision(first, second)),
        Refused::TooBig => Ok(Rule::TooBig),
    }
}

/// The rule that refuses a move into what it moves.
pub fn inside_rule(alloc: Global, source: &[Name], target: &[Name]) -> Result<Rule, Memory>
    ensures { IfOk result (λ rule. rule ≡ rules.Inside (text_of source.now) (text_of target.now)) }
{
    Ok(Rule::Inside(path_text(alloc, source)?, path_text(alloc, target)?))
}

/// A path as text.
pub fn path_text(alloc: Global, names: &[Name]) -> Result<Text, Memory>
    ensures { IfOk result (λ text. text ≡ text_of names.now) }
{
    path_to(alloc, names, names.len())
}

// The path of the first n names.
fn path_to(alloc: Global, names: &[Name], led: usize) -> Result<Text, Memory>
    ensures { IfOk result (λ text. text ≡ text_of (take led names.now)) }
{
    let mut text = Text::new(alloc);
    let count = led.min(names.len());
    if count == 0 {
        text.push_str("/")?;
        return Ok(text);
    }
    for name in &names[..count] {
        text.push_str("/")?;
        text.push_str(name.as_str())?;
    }
    Ok(text)
}
