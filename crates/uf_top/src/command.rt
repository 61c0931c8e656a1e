//! One command.
ghost use Rattle.std.specs.Prelude.{◌≡◌, Bool, IfErr, IfOk, Ok, true, false};
ghost use Rattle.std.specs.declared.result.Result.{Result as TheResult};
ghost use Rattle.std.specs.Prelude.{map, string_bytes};
ghost use Rattle.uf_cid.specs.declared.cid.Cid.{Cid as TheCid};
ghost use Rattle.uf_mfs.specs.Standing.{TellsAs};
ghost use Rattle.uf_path.specs.declared.path.Path.{Path as ThePath};
ghost use Rattle.uf_tree.specs.Standing.{Standing};
ghost use Rattle.uf_top.specs.Cars.{ByOwnStore};
ghost use Rattle.uf_command.specs.Commands.{IsAccepted, IsAsked, IsOfWords, of_command};
ghost use Rattle.uf_command.specs.Kinds.{IsOf};
ghost use Rattle.uf_command.specs.Natures.{IsOfCommand, NoStore, generates, may_end, own_store};
ghost use Rattle.uf_command.specs.Natures.{reads_input, touches_nothing, uses_host};
ghost use Rattle.uf_command.specs.Requests.{request_in};
ghost use Rattle.uf_command.specs.declared.requests.Request.TheVariants as requests;
ghost use Rattle.uf_command.specs.declared.types.Command.{Command as TheCommand};
ghost use Rattle.uf_command.specs.declared.types.Refusal.{Refusal as TheRefusal};
ghost use Rattle.uf_top.specs.Lent.{OverAll, lent};
ghost use Rattle.uf_top.specs.Batch.{Batches};
ghost use Rattle.uf_top.specs.Caused.{BlamesWhereRead};
ghost use Rattle.uf_top.specs.Checking.{RunsCheck};
ghost use Rattle.uf_top.specs.Collecting.{RunsGc};
ghost use Rattle.uf_top.specs.Running.{Runs};
ghost use Rattle.uf_top.specs.Talking.{RunsPull, RunsServe};
ghost use Rattle.uf_top.specs.Working.{Does, SaysText, Serves, Spares};

use crate::commands::adding::adds;
use crate::commands::batch::{MOST_OF_BATCH, MOST_OF_LINE, batch};
use crate::commands::cat::cat;
use crate::commands::dag::{compare_car, export_car, import_car};
use crate::commands::files::{at, init};
use crate::commands::files_cp::graft;
use crate::commands::files_read::send_part;
use crate::commands::files_write::write_input;
use crate::commands::gc::collect_rest;
use crate::commands::generate::print_generated;
use crate::commands::get::get;
use crate::commands::pin::pin;
use crate::commands::prove::{check_input, prove_at};
use crate::commands::pull::{pull_from, serve_wants};
use std::alloc::Global;
use std::sync::ledger::Ledger;
use uf_cid::Block;
use uf_command::{Command, Refusal, Request, Status, print, read_request, tell_end};
use uf_edge::{Host, Sink, Source};
use uf_murmur::NameHash;
use uf_store::{Steps, Store, Sweep};

/// Does one command, which the words after the program's name say.
///
/// `init` makes a store ready; `files mkdir`, `files ls`, `files stat`, `files read`, `files write`, `files truncate`,
/// `files cp`, `files mv`, `files rm`, `files chmod`, `files touch` and `files strip` work on the tree that its Head
/// names. `add` prints the CID of its input as a file (UnixFS v1; Kubo's balanced layout with raw leaves), or those of
/// a file of the host or of a folder and everything in it. Without `-n` it keeps their blocks, and with `--to-files`
/// it puts them into the tree; `cat` prints a file of a DAG, and `get` writes what is in one to the host. `gen` makes
/// a tree on stores of its own and says its root; `pin add`, `pin rm` and `pin ls` work on the note of pins; `pull`
/// fetches what is below a CID from a peer, and `serve` is one. `repo gc` lets go of what neither the tree nor a pin
/// leads to; `prove` writes the blocks that decide a path of the tree, and `check` reads them and needs no store.
/// Refused are first words that are none, then texts that are no paths, then a Head that is refused, then an input
/// that is too long, and then what the rules of the command refuse. The status says how the command ended; after a
/// refusal its line goes to `errors`, and a failed write of that line changes no status.
pub fn run<S: Sweep, N: NameHash, W: Host, I: Source, O: Sink, E: Sink, L: Ledger>(
    alloc: Global,
    words: &[String],
    store: &mut S,
    host: &mut W,
    input: &mut I,
    output: &mut O,
    errors: &mut E,
    touches: &mut Steps<L>,
) -> Status
    // Of one command: the answer, the cause of each answer, what is printed, and what is left. Each fact is a field of
    // its own.
    ensures runs { (asked : TheResult TheCommand TheRefusal)
        → request_in (map string_bytes words.now) ≡ requests.One asked
        → Runs S.X.block32 N.name64 asked result
        (lent I.Source O.Sink W.Host E.Sink (S.seen store.old) input.old output.old touches.old host.old errors.old)
        (lent I.Source O.Sink W.Host E.Sink (S.seen store.new) input.new output.new touches.new host.new errors.new) }

    // A block that is called bad isn't canonical where it lay: as a directory or a shard, or at its place in a file.
    ensures blames { (asked : TheResult TheCommand TheRefusal)
        → request_in (map string_bytes words.now) ≡ requests.One asked
        → BlamesWhereRead S.X.block32 N.name64
        (lent I.Source O.Sink W.Host E.Sink (S.seen store.old) input.old output.old touches.old host.old errors.old)
        (lent I.Source O.Sink W.Host E.Sink (S.seen store.new) input.new output.new touches.new host.new errors.new)
        result }

    // Of `batch`: every line that has a word did what was said of a command, one after the other.
    ensures batch { request_in (map string_bytes words.now) ≡ requests.Batch
        → Batches S.X.block32 N.name64 MOST_OF_LINE MOST_OF_BATCH result
        (lent I.Source O.Sink W.Host E.Sink (S.seen store.old) input.old output.old touches.old host.old errors.old)
        (lent I.Source O.Sink W.Host E.Sink (S.seen store.new) input.new output.new touches.new host.new errors.new) }

    // Of `pull`: what is due over the peer's bytes was asked for and kept, and the tree stands as before.
    ensures pull { (cid : TheCid) → request_in (map string_bytes words.now) ≡ requests.Pull cid
        → RunsPull S.X.block32 N.name64 cid result
        (lent I.Source O.Sink W.Host E.Sink (S.seen store.old) input.old output.old touches.old host.old errors.old)
        (lent I.Source O.Sink W.Host E.Sink (S.seen store.new) input.new output.new touches.new host.new errors.new) }

    // Of `serve`: each line of the peer that asks for a block was answered by one frame, and nothing was kept.
    ensures serve { request_in (map string_bytes words.now) ≡ requests.Serve
        → RunsServe S.X.block32 N.name64 result
        (lent I.Source O.Sink W.Host E.Sink (S.seen store.old) input.old output.old touches.old host.old errors.old)
        (lent I.Source O.Sink W.Host E.Sink (S.seen store.new) input.new output.new touches.new host.new errors.new) }

    // Of `repo gc`: what neither the Head's root nor a pin leads to went; what they lead to stays, whatever failed.
    ensures collect { request_in (map string_bytes words.now) ≡ requests.Gc
        → RunsGc S.X.block32 N.name64 result
        (lent I.Source O.Sink W.Host E.Sink (S.seen store.old) input.old output.old touches.old host.old errors.old)
        (lent I.Source O.Sink W.Host E.Sink (S.seen store.new) input.new output.new touches.new host.new errors.new) }

    // Of `check`: the input was read as the proof of what is at a path below a root, and that was written; the store
    // is as before.
    ensures check { (absent : Bool) (cid : TheCid) (path : ThePath)
        → request_in (map string_bytes words.now) ≡ requests.Check absent cid path
        → RunsCheck S.X.block32 N.name64 absent cid path.names result
        (lent I.Source O.Sink W.Host E.Sink (S.seen store.old) input.old output.old touches.old host.old errors.old)
        (lent I.Source O.Sink W.Host E.Sink (S.seen store.new) input.new output.new touches.new host.new errors.new) }

    // Equal roots mean equal trees: what the store tells stands for one tree at most.
    ensures one { (standing other : Standing) → TellsAs S.X.block32 N.name64 (S.seen store.new).told standing
        → TellsAs S.X.block32 N.name64 (S.seen store.new).told other → standing ≡ other }

    // Refused words do nothing to the store, nor does a command that works on stores of its own; a command that
    // doesn't use the input or the host leaves it as it was; and `add -n` and `gen` make no touch.
    ensures left { (asked : TheResult TheCommand TheRefusal)
        → request_in (map string_bytes words.now) ≡ requests.One asked
        → of_command generates true asked ≡ true → store.new ≡ store.old }
    ensures input { (asked : TheResult TheCommand TheRefusal)
        → request_in (map string_bytes words.now) ≡ requests.One asked
        → of_command reads_input false asked ≡ false → input.new ≡ input.old }
    ensures host { (asked : TheResult TheCommand TheRefusal)
        → request_in (map string_bytes words.now) ≡ requests.One asked
        → of_command uses_host false asked ≡ false → host.new ≡ host.old }
    ensures untouched { (asked : TheResult TheCommand TheRefusal)
        → request_in (map string_bytes words.now) ≡ requests.One asked
        → of_command touches_nothing true asked ≡ true → touches.new ≡ touches.old }
{
    match read_request(alloc, words) {
        Request::Batch => batch::<S, N, W, I, O, E, L>(
            alloc,
            MOST_OF_BATCH,
            store,
            host,
            input,
            output,
            errors,
            touches,
        ),
        Request::Pull { cid } => pull_from(alloc, &cid, store, input, output, errors, touches),
        Request::Serve => serve_wants(alloc, store, input, output, errors, touches),
        Request::One { asked } => {
            let done = serve::<S, N, W, I, O, L>(alloc, asked, store, host, input, output, touches);
            tell_end(alloc, done, errors)
        }
        Request::Gc => {
            let done = collect_rest(alloc, store, output, touches);
            tell_end(alloc, done, errors)
        }
        Request::Check { absent, cid, path } => {
            let done = check_input::<S::X, N, I, O, L>(
                alloc, absent, cid, path, input, output, touches,
            );
            tell_end(alloc, done, errors)
        }
    }
}

// Does the command that was asked for, or says why there is none.
fn serve<S: Store, N: NameHash, W: Host, I: Source, O: Sink, L: Ledger>(
    alloc: Global,
    asked: Result<Command, Refusal>,
    store: &mut S,
    host: &mut W,
    input: &mut I,
    output: &mut O,
    touches: &mut Steps<L>,
) -> Result<(), Refusal>
    requires { IfOk asked IsAccepted }
    ensures serves { (told : TheResult TheCommand TheRefusal) → IsAsked asked told
        → OverAll I.Source O.Sink W.Host (Serves S.X.block32 N.name64 told result)
        (S.seen store.old) input.old output.old touches.old host.old
        (S.seen store.new) input.new output.new touches.new host.new }
    ensures own { (told : TheResult TheCommand TheRefusal) → IsAsked asked told → IsOfWords told
        → IfErr result (ByOwnStore S.X.block32 (of_command own_store NoStore told) (I.left input.old)
        (S.seen store.old) (S.seen store.new)) }
    ensures kinds { (told : TheResult TheCommand TheRefusal) → IsAsked asked told → IsOfCommand told result }
    ensures spares { (told : TheResult TheCommand TheRefusal) → IsAsked asked told
        → Spares told store.old store.new input.old input.new host.old host.new touches.old touches.new }
{
    let command = asked?;
    work::<S, N, W, I, O, L>(alloc, &command, store, host, input, output, touches)
}

// Does a command and prints what it says, or says why it is refused. One that writes nothing to the store meets no
// clash.
pub fn work<S: Store, N: NameHash, W: Host, I: Source, O: Sink, L: Ledger>(
    alloc: Global,
    command: &Command,
    store: &mut S,
    host: &mut W,
    input: &mut I,
    output: &mut O,
    touches: &mut Steps<L>,
) -> Result<(), Refusal>
    requires { IsAccepted command.now }
    ensures does { OverAll I.Source O.Sink W.Host (Does S.X.block32 N.name64 command.now result)
        (S.seen store.old) input.old output.old touches.old host.old
        (S.seen store.new) input.new output.new touches.new host.new }
    ensures own { IfErr result (ByOwnStore S.X.block32 (own_store command.now) (I.left input.old)
        (S.seen store.old) (S.seen store.new)) }
    ensures kinds { IsOf (may_end command.now) result }
    ensures spares { Spares (Ok command.now) store.old store.new input.old input.new host.old host.new touches.old
        touches.new }
{
    let done = carry_out::<S, N, W, I, O, L>(alloc, command, store, host, input, output, touches);
    command.settle(done)
}

// Does a command and prints what it says, or says why it is refused.
fn carry_out<S: Store, N: NameHash, W: Host, I: Source, O: Sink, L: Ledger>(
    alloc: Global,
    command: &Command,
    store: &mut S,
    host: &mut W,
    input: &mut I,
    output: &mut O,
    touches: &mut Steps<L>,
) -> Result<(), Refusal>
    requires { IsAccepted command.now }
    ensures does { OverAll I.Source O.Sink W.Host (Does S.X.block32 N.name64 command.now result)
        (S.seen store.old) input.old output.old touches.old host.old
        (S.seen store.new) input.new output.new touches.new host.new }
    ensures own { IfErr result (ByOwnStore S.X.block32 (own_store command.now) (I.left input.old)
        (S.seen store.old) (S.seen store.new)) }
    ensures spares { Spares (Ok command.now) store.old store.new input.old input.new host.old host.new touches.old
        touches.new }
{
    match command {
        Command::Init { profile } => say(init::<S, N, L>(alloc, *profile, store, touches), output),
        Command::Add { adding } => {
            let rows = adds::<S, N, W, I, L>(alloc, adding, store, host, input, touches);
            say(rows, output)
        }
        Command::WriteInput { how, path } => {
            let nothing = write_input::<S, N, I, L>(alloc, *how, path, store, input, touches);
            say(nothing, output)
        }
        Command::At { ask, path } => say(at::<S, N, L>(alloc, ask, path, store, touches), output),
        Command::Read {
            offset,
            count,
            path,
        } => send_part::<S, N, O, L>(alloc, *offset, *count, path, store, output, touches),
        Command::Cat { path } => cat(alloc, path, store, output, touches),
        Command::Get { path, host_path } => get(alloc, path, host_path, store, host, touches),
        Command::Export { cid } => export_car(alloc, cid, store, output, touches),
        Command::Import => import_car(alloc, store, input, output, touches),
        Command::Same { cid } => compare_car(alloc, cid, store, input, output, touches),
        Command::Adopt { source, dest } => graft::<S, N, L>(alloc, source, dest, store, touches),
        Command::Gen { n, seed } => print_generated::<S::X, N, O>(alloc, *n, *seed, output),
        Command::Pin { ask } => pin(alloc, ask, store, output, touches),
        Command::Prove { absent, path } => {
            prove_at::<S, N, O, L>(alloc, *absent, path, store, output, touches)
        }
    }
}

// Prints the text of a command, or says why it is refused.
fn say<O: Sink>(text: Result<Block, Refusal>, output: &mut O) -> Result<(), Refusal>
    ensures { SaysText text result (O.holds output.old) (O.holds output.new) (O.faults output.old)
        (O.faults output.new) }
{
    print(&text?, output)
}
