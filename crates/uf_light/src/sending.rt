//! What is at a path, written to a sink.
ghost use Rattle.std.specs.Prelude.{◌≡◌, ◌<◌, ◌^◌, ◌-◌, IfErr, IfOk, length, true};
ghost use Rattle.uf_car.specs.Exporting.{WritesAll, WritesSome};
ghost use Rattle.uf_store.specs.Calls.{OnlyReads};
ghost use Rattle.uf_light.specs.Answers.{CountsSink, is_light_sink, light_fault};
ghost use Rattle.uf_light.specs.Bad.{IsBadLight};
ghost use Rattle.uf_light.specs.Below.{HasNames};
ghost use Rattle.uf_light.specs.FileCids.{IsBadInSome};
ghost use Rattle.uf_light.specs.Light.{absent_text};
ghost use Rattle.uf_light.specs.Sending.{IsNoCar, SendsAbsent};
ghost use Rattle.uf_light.specs.Along.{AcceptsPath, RefusesFileFirst, RefusesPathFirst, SendsPrefixOfFile};
ghost use Rattle.uf_light.specs.Along.{SendsWholeFile, WritesPrefixOfSaid};

use crate::LightFault;
use crate::deciding::wanted;
use crate::looking::{look, thing_of};
use crate::nowhere::Nowhere;
use std::alloc::Global;
use std::sync::ledger::Ledger;
use uf_cid::{Cid, Memory, Text};
use uf_edge::{Sent, Sink, write_all};
use uf_fileread::read_range;
use uf_murmur::NameHash;
use uf_plain::path_text;
use uf_store::{Steps, Store};
use uf_tree::{Entry, Name};
use uf_words::shown;

// Writes the file at a path below a root, or, with `absent`, that nothing is there, and says how many bytes that has.
pub fn show<S: Store, N: NameHash, O: Sink, L: Ledger>(
    alloc: Global,
    store: &mut S,
    root: &Cid,
    names: &[Name],
    absent: bool,
    out: &mut O,
    touches: &mut Steps<L>,
) -> Result<u64, LightFault>
    requires { length names.now < 2 ^ 32 }
    ensures accepts { AcceptsPath S.X.block32 N.name64 root.now names.now absent (S.seen store.old) (S.seen store.new)
        result (O.holds out.old) (O.holds out.new) }
    ensures prefix { WritesPrefixOfSaid S.X.block32 N.name64 root.now names.now absent (S.seen store.old)
        (O.holds out.old) (O.holds out.new) }
    ensures first { RefusesPathFirst S.X.block32 N.name64 root.now names.now (S.seen store.old) (S.seen store.new)
        result (O.holds out.old) (O.holds out.new) }
    ensures some { WritesSome (O.holds out.old) (O.holds out.new) }
    ensures reads { OnlyReads S.X.block32 (IsBadLight S.X.block32 N.name64 (S.seen store.old).told root.now)
        (light_fault result) (S.seen store.old) (S.seen store.new) }
    ensures counts { CountsSink (is_light_sink result) (O.faults out.old) (O.faults out.new) }
    ensures behind { IfErr result IsNoCar }
    ensures root { IfOk result (λ _. HasNames S.X.block32 (S.seen store.old).told root.now names.now) }
    ensures line { absent ≡ true
        → IfOk result (λ n. WritesAll (absent_text names.now) n (O.holds out.old) (O.holds out.new)) }
{
    let entry = Entry {
        cid: *root,
        tsize: 0,
    };
    let thing = thing_of::<S, N, L>(alloc, store, &entry, touches)?;
    let met = look::<S, N, L>(alloc, store, 0, names, thing, touches)?;
    match wanted(absent, met)? {
        Some(file) => send_file(alloc, store, &file, out, touches),
        None => send_absent(alloc, names, out),
    }
}

// Writes a file, once it was read whole.
fn send_file<S: Store, O: Sink, L: Ledger>(
    alloc: Global,
    store: &mut S,
    entry: &Entry,
    out: &mut O,
    touches: &mut Steps<L>,
) -> Result<u64, LightFault>
    ensures sends { SendsWholeFile S.X.block32 entry.now.cid (S.seen store.old) (S.seen store.new) result
        (O.holds out.old) (O.holds out.new) }
    ensures prefix { SendsPrefixOfFile S.X.block32 entry.now.cid (S.seen store.old) (O.holds out.old)
        (O.holds out.new) }
    ensures first { RefusesFileFirst S.X.block32 entry.now.cid (S.seen store.old) (S.seen store.new) result
        (O.holds out.old) (O.holds out.new) }
    ensures some { WritesSome (O.holds out.old) (O.holds out.new) }
    ensures reads { OnlyReads S.X.block32 (IsBadInSome (S.seen store.old).told) (light_fault result)
        (S.seen store.old) (S.seen store.new) }
    ensures counts { CountsSink (is_light_sink result) (O.faults out.old) (O.faults out.new) }
    ensures behind { IfErr result IsNoCar }
{
    read_range(alloc, store, entry, 0, u64::MAX, &mut Nowhere, touches)?;
    let count = read_range(alloc, store, entry, 0, u64::MAX, out, touches)?;
    Ok(count)
}

// Writes that nothing is at a path.
fn send_absent<O: Sink>(alloc: Global, names: &[Name], out: &mut O) -> Result<u64, LightFault>
    ensures sends { SendsAbsent (absent_text names.now) result (O.holds out.old) (O.holds out.new) }
    ensures some { WritesSome (O.holds out.old) (O.holds out.new) }
    ensures counts { CountsSink (is_light_sink result) (O.faults out.old) (O.faults out.new) }
{
    let line = absent_line(alloc, names)?;
    let bytes = line.as_str().as_bytes();
    match write_all(out, bytes) {
        Sent::Done => Ok(bytes.len() as u64),
        Sent::Failed => Err(LightFault::Sink),
    }
}

// The line that says that nothing is at a path.
fn absent_line(alloc: Global, names: &[Name]) -> Result<Text, Memory>
    ensures { IfOk result (λ line. line ≡ absent_text names.now) }
{
    let path = path_text(alloc, names)?;
    let path = shown(alloc, path.as_str())?;
    let mut line = Text::new(alloc);
    line.push_str("absent ")?;
    line.push_str(path.as_str())?;
    line.push_str("\n")?;
    Ok(line)
}
