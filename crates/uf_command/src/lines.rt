//! Error lines.
ghost use Rattle.std.specs.Prelude.{◌≡◌, ◌++◌, ◌∷◌, [], IfOk, OnOk};
ghost use Rattle.std.specs.Fmt.{decimal};
ghost use Rattle.hex.specs.Hex.{encode_lower};
ghost use Rattle.uf_words.specs.Shown.{shown_bytes};
ghost use Rattle.uf_command.specs.Lines.{bad_block_line, bad_path_line, car_line as line_of_car, clash_line};
ghost use Rattle.uf_command.specs.Lines.{dag_line as line_of_dag, fault_line, missing_line, host_line as line_of_host};
ghost use Rattle.uf_command.specs.Lines.{host_words as words_of_host, line as line_text, line_of};
ghost use Rattle.uf_command.specs.Lines.{path_number as number_of_path, path_place as place_of_path};
ghost use Rattle.uf_command.specs.Lines.{ready_line as line_of_ready, role_word, rule_line as line_of_rule};
ghost use Rattle.uf_command.specs.Lines.{rule_words as words_of_rule, two_blocks_line, with_detail, with_details};
ghost use Rattle.uf_command.specs.Statuses.{fault_status, status_of};

use crate::dags::dag_words;
use crate::{DagRule, HostRule, Refusal, Status};
use std::alloc::Global;
use uf_cid::{Block, Cid, Memory};
use uf_path::PathFault;
use uf_plain::{Ready, Rule};
use uf_store::{Role, StoreFault};
use uf_words::shown;

/// The status of a refusal.
pub fn refusal_status(refusal: &Refusal) -> Status
    ensures { result ≡ status_of refusal.now }
{
    match refusal {
        Refusal::Rule(_)
        | Refusal::Dag(_)
        | Refusal::Host(_)
        | Refusal::BadPath(_)
        | Refusal::InputTooLong
        | Refusal::Car { .. } => Status::Rule,
        Refusal::Usage => Status::Usage,
        Refusal::Ready(_) | Refusal::BadPins => Status::NotReady,
        Refusal::Read => Status::ReadFault,
        Refusal::Write => Status::WriteFault,
        Refusal::Store(fault) => status_of_fault(fault),
        Refusal::CarLacks(_) => Status::Missing,
        Refusal::OwnClash(_, _, _) => Status::Clash,
    }
}

// The status of a fault of the store.
fn status_of_fault(fault: &StoreFault) -> Status
    ensures { result ≡ fault_status fault.now }
{
    match fault {
        StoreFault::Failed | StoreFault::Damaged(_) => Status::StoreFault,
        StoreFault::Missing(_) => Status::Missing,
        StoreFault::BadBlock(_, _) => Status::BadBlock,
        StoreFault::Clash(_, _, _) => Status::Clash,
        StoreFault::Memory => Status::Memory,
    }
}

/// The error line of a refusal, with its end.
pub fn line(alloc: Global, refusal: &Refusal) -> Result<Block, Memory>
    ensures { IfOk result (λ b. b ≡ line_of refusal.now) }
{
    match refusal {
        Refusal::Rule(rule) => rule_line(alloc, rule),
        Refusal::Dag(rule) => dag_line(alloc, rule),
        Refusal::Host(rule) => host_line(alloc, rule),
        Refusal::BadPath(why) => path_line(alloc, *why),
        Refusal::InputTooLong => plain(alloc, b"error: rule InputTooLong\n"),
        Refusal::Usage => plain(alloc, Status::Usage.plain_line()),
        Refusal::Ready(why) => plain(alloc, ready_line(*why)),
        Refusal::BadPins => plain(alloc, b"error: not ready 4\n"),
        Refusal::Read => plain(alloc, Status::ReadFault.plain_line()),
        Refusal::Write => plain(alloc, Status::WriteFault.plain_line()),
        Refusal::Store(fault) => store_line(alloc, fault),
        Refusal::Car { number, place } => car_line(alloc, *number, *place),
        Refusal::CarLacks(cid) => missing(alloc, cid),
        Refusal::OwnClash(cid, first, second) => {
            clash(alloc, cid, first.as_slice(), second.as_slice())
        }
    }
}

// The error line of a fault of the store.
fn store_line(alloc: Global, fault: &StoreFault) -> Result<Block, Memory>
    ensures { IfOk result (λ b. b ≡ fault_line fault.now) }
{
    match fault {
        StoreFault::Failed | StoreFault::Damaged(_) => {
            plain(alloc, Status::StoreFault.plain_line())
        }
        StoreFault::Missing(cid) => missing(alloc, cid),
        StoreFault::BadBlock(cid, role) => bad_block(alloc, cid, *role),
        StoreFault::Clash(cid, held, bytes) => {
            clash(alloc, cid, held.as_slice(), bytes.as_slice())
        }
        StoreFault::Memory => plain(alloc, Status::Memory.plain_line()),
    }
}

// The line of a block that is missing.
fn missing(alloc: Global, cid: &Cid) -> Result<Block, Memory>
    ensures { IfOk result (λ b. b ≡ missing_line cid.now) }
{
    wrapped(alloc, b"error: missing ", &cid.text())
}

// The line of a block that isn't canonical in its role.
fn bad_block(alloc: Global, cid: &Cid, role: Role) -> Result<Block, Memory>
    ensures { IfOk result (λ b. b ≡ bad_block_line cid.now role) }
{
    let mut words = plain(alloc, &cid.text())?;
    words.extend(b" ")?;
    words.extend(word_of_role(role))?;
    wrapped(alloc, b"error: bad block ", words.as_slice())
}

fn word_of_role(role: Role) -> &'static [u8]
    ensures { result.now ≡ role_word role }
{
    match role {
        Role::Directory => b"directory",
        Role::Shard(_) => b"shard",
        Role::FileNode => b"node",
        Role::Leaf => b"leaf",
    }
}

// The error line of two blocks of one digest, the held one first.
fn clash(alloc: Global, cid: &Cid, held: &[u8], bytes: &[u8]) -> Result<Block, Memory>
    ensures { IfOk result (λ b. b ≡ clash_line cid.now held.now bytes.now) }
{
    two_blocks(alloc, b"error: clash ", cid, held, bytes)
}

/// A line with a CID and two blocks in lower case hexadecimal digits.
pub fn two_blocks(
    alloc: Global,
    front: &[u8],
    cid: &Cid,
    first: &[u8],
    second: &[u8],
) -> Result<Block, Memory>
    ensures { IfOk result (λ b. b ≡ two_blocks_line front.now cid.now first.now second.now) }
{
    let mut words = plain(alloc, &cid.text())?;
    put_hex(alloc, &mut words, first)?;
    put_hex(alloc, &mut words, second)?;
    wrapped(alloc, front, words.as_slice())
}

// A space and bytes in lower case hexadecimal digits.
fn put_hex(alloc: Global, out: &mut Block, bytes: &[u8]) -> Result<(), Memory>
    ensures { OnOk result (out.new ≡ out.old ++ 32 ∷ encode_lower bytes.now) }
{
    let text = hex::encode(alloc, bytes)?;
    out.extend(b" ")?;
    out.extend(text.as_bytes())?;
    Ok(())
}

fn ready_line(why: Ready) -> &'static [u8]
    ensures { result.now ≡ line_of_ready why }
{
    match why {
        Ready::NoHead => b"error: not ready 1\n",
        Ready::HeadThere => b"error: not ready 2\n",
        Ready::BadHead => b"error: not ready 3\n",
    }
}

// The line of a text that is no path.
fn path_line(alloc: Global, why: PathFault) -> Result<Block, Memory>
    ensures { IfOk result (λ b. b ≡ bad_path_line why) }
{
    let number = path_number(why);
    let place = path_place(why);
    let words = format!(in alloc; "{number} {place}")?;
    wrapped(alloc, b"error: rule BadPath ", words.as_bytes())
}

fn path_number(why: PathFault) -> u8
    ensures { result ≡ number_of_path why }
{
    match why {
        PathFault::NotAbsolute => 1,
        PathFault::BadName(_) => 2,
        PathFault::TooLong => 3,
        PathFault::BadCid(_) => 4,
        PathFault::Memory => 5,
    }
}

fn path_place(why: PathFault) -> usize
    ensures { result ≡ place_of_path why }
{
    match why {
        PathFault::BadName(place) => place,
        _ => 0,
    }
}

// The line of a rule by which a DAG of others is refused.
fn dag_line(alloc: Global, rule: &DagRule) -> Result<Block, Memory>
    ensures { IfOk result (λ b. b ≡ line_of_dag rule.now) }
{
    let words = dag_words(alloc, rule)?;
    wrapped(alloc, b"error: rule ", words.as_slice())
}

// The line of a fault of a CAR.
fn car_line(alloc: Global, number: u8, place: u64) -> Result<Block, Memory>
    ensures { IfOk result (λ b. b ≡ line_of_car number place) }
{
    let words = format!(in alloc; "{number} {place}")?;
    wrapped(alloc, b"error: rule Car ", words.as_bytes())
}

// The line of a rule by which what is asked of the host is refused.
fn host_line(alloc: Global, rule: &HostRule) -> Result<Block, Memory>
    ensures { IfOk result (λ b. b ≡ line_of_host rule.now) }
{
    let words = host_words(alloc, rule)?;
    wrapped(alloc, b"error: rule ", words.as_slice())
}

// The name of such a rule and its path.
fn host_words(alloc: Global, rule: &HostRule) -> Result<Block, Memory>
    ensures { IfOk result (λ b. b ≡ words_of_host rule.now) }
{
    match rule {
        HostRule::Absent(path) => detailed(alloc, b"HostAbsent ", path.as_str()),
        HostRule::Other(path) => detailed(alloc, b"HostOther ", path.as_str()),
        HostRule::Exists(path) => detailed(alloc, b"HostExists ", path.as_str()),
        HostRule::Name(path) => detailed(alloc, b"HostName ", path.as_str()),
        HostRule::Deep(path) => detailed(alloc, b"HostDeep ", path.as_str()),
    }
}

// The line of a rule.
fn rule_line(alloc: Global, rule: &Rule) -> Result<Block, Memory>
    ensures { IfOk result (λ b. b ≡ line_of_rule rule.now) }
{
    let words = rule_words(alloc, rule)?;
    wrapped(alloc, b"error: rule ", words.as_slice())
}

// The name of a rule and its details.
fn rule_words(alloc: Global, rule: &Rule) -> Result<Block, Memory>
    ensures { IfOk result (λ b. b ≡ words_of_rule rule.now) }
{
    match rule {
        Rule::NotFound(path) => detailed(alloc, b"NotFound ", path.as_str()),
        Rule::NotADirectory(path) => detailed(alloc, b"NotADirectory ", path.as_str()),
        Rule::IsADirectory(path) => detailed(alloc, b"IsADirectory ", path.as_str()),
        Rule::Exists(path) => detailed(alloc, b"Exists ", path.as_str()),
        Rule::NeedsRecursive(path) => detailed(alloc, b"NeedsRecursive ", path.as_str()),
        Rule::RootRefused => plain(alloc, b"RootRefused"),
        Rule::Inside(source, target) => {
            twice_detailed(alloc, b"Inside ", source.as_str(), target.as_str())
        }
        Rule::FileTooLong => plain(alloc, b"FileTooLong"),
        Rule::Collision(first, second) => {
            twice_detailed(alloc, b"Collision ", first.as_str(), second.as_str())
        }
        Rule::TooBig => plain(alloc, b"TooBig"),
    }
}

// The name of a rule and one detail as it is shown.
fn detailed(alloc: Global, name: &[u8], detail: &str) -> Result<Block, Memory>
    ensures { IfOk result (λ b. b ≡ with_detail name.now detail.now) }
{
    let mut out = plain(alloc, name)?;
    out.extend(shown(alloc, detail)?.as_str().as_bytes())?;
    Ok(out)
}

// The name of a rule and two details as they are shown.
fn twice_detailed(alloc: Global, name: &[u8], first: &str, second: &str) -> Result<Block, Memory>
    ensures { IfOk result (λ b. b ≡ with_details name.now first.now second.now) }
{
    let mut out = detailed(alloc, name, first)?;
    out.extend(b" ")?;
    out.extend(shown(alloc, second)?.as_str().as_bytes())?;
    Ok(out)
}

// A line: what comes first, what comes after it, and a line feed.
pub fn wrapped(alloc: Global, front: &[u8], rest: &[u8]) -> Result<Block, Memory>
    ensures { IfOk result (λ b. b ≡ line_text front.now rest.now) }
{
    let mut out = plain(alloc, front)?;
    out.extend(rest)?;
    out.extend(b"\n")?;
    Ok(out)
}

/// These bytes in a block of their own.
pub fn plain(alloc: Global, bytes: &[u8]) -> Result<Block, Memory>
    ensures { IfOk result (λ b. b ≡ bytes.now) }
{
    let mut out = Block::new(alloc);
    out.extend(bytes)?;
    Ok(out)
}
