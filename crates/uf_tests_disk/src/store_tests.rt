//! Rows of a store, in the folder that the test runs in.
ghost use Rattle.std.specs.Prelude.{◌≡◌, ◌<◌};
ghost use Rattle.uf_cid.specs.Cid.{cid_of};
ghost use Rattle.uf_cid.specs.declared.cid.Codec.TheVariants.{Raw};

use crate::failing::FailingFiles;
use std::alloc::Global;
use std::fs::{Files, OpenFile};
use std::marker::Brand;
use std::random::RandomSource;
use std::sync::ledger::{Blank, Ledger};
use std::{fs, io, str};
use uf_cid::{BlockHash, Cid, Cids, Codec, Sha256Hash, Sum8Hash};
use uf_disk::DiskStore;
use uf_edge::Put;
use uf_store::{Load, Note, NoteRead, Presence, Save, Steps, Store, Sweep, Swept};

// What is done with a store or with its files, and what is to come of it.
#[derive(Clone, Copy)]
enum StoreCall {
    // A store anew, over the same files.
    Anew,
    Loads(&'static [u8], Load),
    Asks(&'static [u8], Presence),
    Lends(&'static [u8]),
    Saves(&'static [u8], Save),
    Syncs(Put),
    Reads(Note, NoteState),
    Writes(Put),
    // These blocks are foreseen.
    Foresees(&'static [&'static [u8]]),
    // All goes but for these blocks.
    Sweeps(&'static [&'static [u8]], Swept),
    // A text is put in the place of the file of the block `a`, or the file is made too long, or a folder stands there.
    Spoils,
    Lengthens,
    Blocks,
    Frees,
    // The file of the first of these blocks gets the bytes of the second.
    Damages(&'static [u8], &'static [u8]),
    // The file of the block `a` is moved into its own folder, as an earlier run may have done.
    Files,
    // A file of another name stands beside the blocks, and it is still there.
    Adds,
    IsThere,
    // A file that a killed run left half written, and that there is none.
    Leaves,
    IsClean,
    // A file stands in the place of the store's folder.
    Closes,
    Opens,
}

// What a note answered: its text, that it is absent, or neither.
#[derive(Clone, Copy, PartialEq, Eq)]
enum NoteState {
    Whole,
    Absent,
    Unread,
}

const BLOCKS: &str = ".unixfs/blocks";

const HALF_WRITTEN: &str = ".unixfs/new-0";

const BESIDE: &str = ".unixfs/blocks/x";

// What is saved and noted is there again, for another store too.
const KEEPS: [StoreCall; 14] = [
    StoreCall::Loads(b"a", Load::Missing),
    StoreCall::Asks(b"a", Presence::Missing),
    StoreCall::Reads(Note::Head, NoteState::Absent),
    StoreCall::Saves(b"a", Save::Done),
    StoreCall::Loads(b"a", Load::Found),
    StoreCall::Lends(b"a"),
    StoreCall::Saves(b"a", Save::Done),
    StoreCall::Syncs(Put::Done),
    StoreCall::Writes(Put::Done),
    StoreCall::Anew,
    StoreCall::Asks(b"a", Presence::There),
    StoreCall::Loads(b"a", Load::Found),
    StoreCall::Reads(Note::Head, NoteState::Whole),
    StoreCall::Reads(Note::Pins, NoteState::Absent),
];

// A file that isn't its CID's is there, and damaged until the block is saved again; what isn't a file can't be used.
const MENDS: [StoreCall; 14] = [
    StoreCall::Spoils,
    StoreCall::Asks(b"a", Presence::There),
    StoreCall::Loads(b"a", Load::Damaged),
    StoreCall::Saves(b"a", Save::Done),
    StoreCall::Loads(b"a", Load::Found),
    StoreCall::Lengthens,
    StoreCall::Loads(b"a", Load::Damaged),
    StoreCall::Saves(b"a", Save::Done),
    StoreCall::Loads(b"a", Load::Found),
    StoreCall::Blocks,
    StoreCall::Asks(b"a", Presence::Failed),
    StoreCall::Loads(b"a", Load::Failed),
    StoreCall::Saves(b"a", Save::Failed),
    StoreCall::Frees,
];

// What a killed run left is taken away at the first write.
const CLEARS: [StoreCall; 4] = [
    StoreCall::Leaves,
    StoreCall::Anew,
    StoreCall::Saves(b"b", Save::Done),
    StoreCall::IsClean,
];

// Blocks that are foreseen are found without their files; one whose file isn't its CID's isn't.
const FORESEES: [StoreCall; 13] = [
    StoreCall::Saves(b"a", Save::Done),
    StoreCall::Saves(b"b", Save::Done),
    StoreCall::Foresees(&[b"a", b"b"]),
    StoreCall::Spoils,
    StoreCall::Loads(b"a", Load::Found),
    StoreCall::Lends(b"a"),
    StoreCall::Loads(b"b", Load::Found),
    StoreCall::Lends(b"b"),
    StoreCall::Anew,
    StoreCall::Foresees(&[b"a", b"b"]),
    StoreCall::Loads(b"a", Load::Damaged),
    StoreCall::Saves(b"a", Save::Done),
    StoreCall::Loads(b"a", Load::Found),
];

// So are blocks of unlike lengths: one that is damaged before isn't found, and those that are damaged later are. The
// one that is lent stays while others are foreseen.
const UNLIKE: [StoreCall; 31] = [
    StoreCall::Saves(b"01234567", Save::Done),
    StoreCall::Saves(b"012345678", Save::Done),
    StoreCall::Saves(b"0123456789", Save::Done),
    StoreCall::Saves(b"0123456789a", Save::Done),
    StoreCall::Saves(b"0123456789ab", Save::Done),
    StoreCall::Saves(b"0123456789abc", Save::Done),
    StoreCall::Saves(b"0123456789abcd", Save::Done),
    StoreCall::Saves(b"0123456789abcde", Save::Done),
    StoreCall::Damages(b"0123456789", b"0123456780"),
    StoreCall::Foresees(&[
        b"01234567",
        b"012345678",
        b"0123456789",
        b"0123456789a",
        b"0123456789ab",
        b"0123456789abc",
        b"0123456789abcd",
        b"0123456789abcde",
    ]),
    StoreCall::Damages(b"01234567", b"x"),
    StoreCall::Damages(b"0123456789abcde", b"x"),
    StoreCall::Loads(b"01234567", Load::Found),
    StoreCall::Lends(b"01234567"),
    StoreCall::Loads(b"0123456789", Load::Damaged),
    StoreCall::Loads(b"012345678", Load::Found),
    StoreCall::Loads(b"0123456789abcde", Load::Found),
    StoreCall::Lends(b"0123456789abcde"),
    StoreCall::Foresees(&[b"a", b"b"]),
    StoreCall::Lends(b"0123456789abcde"),
    StoreCall::Foresees(&[b"0123456789a", b"0123456789ab"]),
    StoreCall::Lends(b"0123456789abcde"),
    StoreCall::Loads(b"0123456789ab", Load::Found),
    StoreCall::Lends(b"0123456789ab"),
    StoreCall::Foresees(&[
        b"012345678",
        b"0123456789a",
        b"0123456789abc",
        b"0123456789abcd",
        b"0123456789ab",
    ]),
    StoreCall::Lends(b"0123456789ab"),
    StoreCall::Damages(b"0123456789ab", b"x"),
    StoreCall::Loads(b"0123456789ab", Load::Found),
    StoreCall::Loads(b"012345678", Load::Found),
    StoreCall::Lends(b"012345678"),
    StoreCall::Sweeps(&[b"a", b"b"], Swept::Done(8)),
];

// A sweep takes away what isn't kept, also what was foreseen, and leaves what is no block's file.
const SWEEPS: [StoreCall; 19] = [
    StoreCall::Saves(b"a", Save::Done),
    StoreCall::Saves(b"b", Save::Done),
    StoreCall::Adds,
    StoreCall::Foresees(&[b"a", b"b"]),
    StoreCall::Loads(b"b", Load::Found),
    StoreCall::Sweeps(&[b"b"], Swept::Done(1)),
    StoreCall::Lends(b""),
    StoreCall::Loads(b"a", Load::Missing),
    StoreCall::Loads(b"b", Load::Found),
    StoreCall::IsThere,
    StoreCall::Anew,
    StoreCall::Loads(b"a", Load::Missing),
    StoreCall::Saves(b"a", Save::Done),
    StoreCall::Blocks,
    StoreCall::Sweeps(&[], Swept::Done(1)),
    StoreCall::Loads(b"a", Load::Failed),
    StoreCall::Frees,
    StoreCall::Loads(b"b", Load::Missing),
    StoreCall::IsThere,
];

// A block whose file stands in its own folder is found, mended and swept there.
const FILED: [StoreCall; 16] = [
    StoreCall::Saves(b"a", Save::Done),
    StoreCall::Files,
    StoreCall::Asks(b"a", Presence::There),
    StoreCall::Loads(b"a", Load::Found),
    StoreCall::Saves(b"a", Save::Done),
    StoreCall::Syncs(Put::Done),
    StoreCall::Files,
    StoreCall::Anew,
    StoreCall::Foresees(&[b"a", b"b"]),
    StoreCall::Loads(b"a", Load::Found),
    StoreCall::Spoils,
    StoreCall::Anew,
    StoreCall::Loads(b"a", Load::Damaged),
    StoreCall::Saves(b"a", Save::Done),
    StoreCall::Sweeps(&[], Swept::Done(1)),
    StoreCall::Loads(b"a", Load::Missing),
];

// Another block of the same digest is met and lent.
const CLASHES: [StoreCall; 3] = [
    StoreCall::Saves(b"ab", Save::Done),
    StoreCall::Saves(b"ba", Save::Clash),
    StoreCall::Lends(b"ab"),
];

// A file in the place of the folder leaves no store.
const REFUSES: [StoreCall; 6] = [
    StoreCall::Closes,
    StoreCall::Loads(b"a", Load::Failed),
    StoreCall::Saves(b"a", Save::Failed),
    StoreCall::Reads(Note::Head, NoteState::Unread),
    StoreCall::Writes(Put::Failed),
    StoreCall::Opens,
];

// The tables of blocks with hashes of SHA-256, of which each begins with what the one before it left.
const TABLES: [&[StoreCall]; 8] = [
    &KEEPS, &MENDS, &CLEARS, &FORESEES, &UNLIKE, &SWEEPS, &FILED, &REFUSES,
];

// Three writes, of which one fails where a call of the machine does.
const WRITES: [StoreCall; 3] = [
    StoreCall::Saves(b"a", Save::Done),
    StoreCall::Syncs(Put::Done),
    StoreCall::Writes(Put::Done),
];

// What none of them may leave.
const TORN: [StoreCall; 3] = [
    StoreCall::Loads(b"a", Load::Damaged),
    StoreCall::Loads(b"a", Load::Failed),
    StoreCall::Reads(Note::Head, NoteState::Unread),
];

// Two blocks, of which `b` is to go.
const TWO: [StoreCall; 3] = [
    StoreCall::Saves(b"a", Save::Done),
    StoreCall::Saves(b"b", Save::Done),
    StoreCall::Syncs(Put::Done),
];

// The one that is kept stays.
const STAYS: [StoreCall; 1] = [StoreCall::Loads(b"a", Load::Found)];

// They can be done again, and nothing that was begun is left.
const AGAIN: [StoreCall; 6] = [
    StoreCall::Saves(b"a", Save::Done),
    StoreCall::Syncs(Put::Done),
    StoreCall::Writes(Put::Done),
    StoreCall::Anew,
    StoreCall::Loads(b"a", Load::Found),
    StoreCall::Reads(Note::Head, NoteState::Whole),
];

fn cid_of_raw<X: BlockHash>(bytes: &[u8]) -> Cid
    ensures { result ≡ cid_of X.block32 Raw bytes.now }
{
    Cid::of::<X>(Codec::Raw, bytes)
}

fn text_of(note: NoteRead) -> NoteState {
    match note {
        NoteRead::Text(block) if block.as_slice() == b"text".as_slice() => NoteState::Whole,
        NoteRead::Absent => NoteState::Absent,
        _ => NoteState::Unread,
    }
}

// The text of bytes of a CID's text.
fn ascii(bytes: &[u8]) -> io::Result<&str> {
    match str::from_utf8(bytes) {
        Ok(text) => Ok(text),
        Err(_) => Err(io::Error::from(io::ErrorKind::InvalidFilename)),
    }
}

// The path of the file of a block among those of late.
fn late_path(alloc: Global, block: &[u8]) -> io::Result<String> {
    let name = cid_of_raw::<Sha256Hash>(block).text();
    Ok(format!(in alloc; "{}/{}", BLOCKS, ascii(&name)?)?)
}

// The path of the folder of the last two characters of a block's CID.
fn own_folder(alloc: Global, block: &[u8]) -> io::Result<String> {
    let name = cid_of_raw::<Sha256Hash>(block).text();
    Ok(format!(in alloc; "{}/{}", BLOCKS, ascii(&name[57..])?)?)
}

// The path of the file of a block in that folder.
fn filed_path(alloc: Global, block: &[u8]) -> io::Result<String> {
    let name = cid_of_raw::<Sha256Hash>(block).text();
    let folder = own_folder(alloc, block)?;
    Ok(format!(in alloc; "{}/{}", folder, ascii(&name)?)?)
}

// The path of the file of a block, which is in its own folder where one is there.
fn path_of<R: Files>(alloc: Global, files: &R, block: &[u8]) -> io::Result<String> {
    let filed = filed_path(alloc, block)?;
    if let Ok(true) = fs::exists(files, filed.as_str()) {
        return Ok(filed);
    }
    late_path(alloc, block)
}

// Moves the file of the block `a` into its own folder.
fn files_a<R: Files>(alloc: Global, files: &R) -> io::Result<()> {
    let folder = own_folder(alloc, b"a")?;
    fs::create_dir_all(files, folder.as_str())?;
    moves_a(alloc, files)
}

fn moves_a<R: Files>(alloc: Global, files: &R) -> io::Result<()> {
    let late = late_path(alloc, b"a")?;
    if fs::exists(files, late.as_str())? {
        fs::rename(files, late.as_str(), filed_path(alloc, b"a")?.as_str())?;
    }
    Ok(())
}

// Does what is done with the file of the block `a`, which is at this path.
fn sets_a<R: Files>(files: &R, path: &str, step: &StoreCall) -> io::Result<bool> {
    match step {
        StoreCall::Spoils => fs::write(files, path, "b")?,
        StoreCall::Lengthens => fs::create(files, path)?.set_len(2097153)?,
        StoreCall::Blocks => {
            fs::remove_file(files, path)?;
            fs::create_dir(files, path)?;
        }
        StoreCall::Frees => fs::remove_dir(files, path)?,
        _ => return Ok(false),
    }
    Ok(true)
}

// Gives the file of a block these bytes.
fn damages<R: Files>(alloc: Global, files: &R, block: &[u8], bytes: &[u8]) -> io::Result<()> {
    let path = path_of(alloc, files, block)?;
    fs::write(files, path.as_str(), bytes)
}

// Puts a file in the place of the store's folder.
fn closes<R: Files>(alloc: Global, files: &R) -> io::Result<()> {
    fs::remove_dir_all(&(files, alloc), ".unixfs")?;
    fs::write(files, ".unixfs", "text")
}

// Does what is done with the files.
fn sets<R: Files>(alloc: Global, files: &R, step: &StoreCall) -> io::Result<bool> {
    match step {
        StoreCall::Damages(block, bytes) => damages(alloc, files, *block, *bytes)?,
        StoreCall::Files => files_a(alloc, files)?,
        StoreCall::Adds => fs::write(files, BESIDE, "text")?,
        StoreCall::IsThere => return fs::exists(files, BESIDE),
        StoreCall::Leaves => fs::write(files, HALF_WRITTEN, "half")?,
        StoreCall::IsClean => return Ok(!fs::exists(files, HALF_WRITTEN)?),
        StoreCall::Closes => closes(alloc, files)?,
        StoreCall::Opens => fs::remove_file(files, ".unixfs")?,
        _ => {
            let path = path_of(alloc, files, b"a")?;
            return sets_a(files, path.as_str(), step);
        }
    }
    Ok(true)
}

fn saves<X: BlockHash, L: Ledger, R: Files + RandomSource>(
    store: &mut DiskStore<X, &R>,
    bytes: &[u8],
    touches: &mut Steps<L>,
) -> Save {
    if bytes.len() > 64 {
        return Save::Failed;
    }
    store.save(&cid_of_raw::<X>(bytes), bytes, touches)
}

// The CIDs of these blocks.
fn cids_of<X: BlockHash>(alloc: Global, blocks: &[&[u8]]) -> io::Result<Cids> {
    let mut cids = Cids::new(alloc);
    for bytes in blocks {
        if cids.push(cid_of_raw::<X>(*bytes)).is_err() {
            return Err(io::Error::from(io::ErrorKind::OutOfMemory));
        }
    }
    Ok(cids)
}

// Sweeps all away but for these blocks.
fn sweeps<X: BlockHash, R: Files + RandomSource>(
    alloc: Global,
    store: &mut DiskStore<X, &R>,
    blocks: &[&[u8]],
) -> io::Result<Swept> {
    Ok(store.sweep(&cids_of::<X>(alloc, blocks)?))
}

// Whether a step goes so.
fn goes<'a, X: BlockHash, L: Ledger, R: Files + RandomSource>(
    alloc: Global,
    files: &'a R,
    store: &mut DiskStore<X, &'a R>,
    step: &StoreCall,
    touches: &mut Steps<L>,
) -> io::Result<bool> {
    match step {
        StoreCall::Anew => *store = DiskStore::new(alloc, files),
        StoreCall::Loads(bytes, answer) => {
            return Ok(store.load(&cid_of_raw::<X>(*bytes), touches) == *answer);
        }
        StoreCall::Asks(bytes, answer) => {
            return Ok(store.holds(&cid_of_raw::<X>(*bytes), touches) == *answer);
        }
        StoreCall::Lends(bytes) => return Ok(store.block() == *bytes),
        StoreCall::Saves(bytes, answer) => return Ok(saves(store, *bytes, touches) == *answer),
        StoreCall::Foresees(blocks) => store.foresee(cids_of::<X>(alloc, *blocks)?.as_slice()),
        StoreCall::Sweeps(kept, answer) => return Ok(sweeps(alloc, store, *kept)? == *answer),
        StoreCall::Syncs(answer) => return Ok(store.sync() == *answer),
        StoreCall::Reads(which, text) => return Ok(text_of(store.read_note(*which)) == *text),
        StoreCall::Writes(answer) => return Ok(store.write_note(Note::Head, b"text") == *answer),
        _ => return sets(alloc, files, step),
    }
    Ok(true)
}

// How many of the steps go as they should over a store.
fn count_over<'a, X: BlockHash, L: Ledger, R: Files + RandomSource>(
    alloc: Global,
    files: &'a R,
    store: &mut DiskStore<X, &'a R>,
    steps: &[StoreCall],
    touches: &mut Steps<L>,
) -> io::Result<usize> {
    let mut count = 0usize;
    for step in steps {
        if goes(alloc, files, store, step, touches)? {
            count = count.saturating_add(1);
        }
    }
    Ok(count)
}

// How many of the steps go as they should over a store anew.
fn count_right<X: BlockHash, L: Ledger, R: Files + RandomSource>(
    alloc: Global,
    files: &R,
    steps: &[StoreCall],
    touches: &mut Steps<L>,
) -> io::Result<usize> {
    let mut store = DiskStore::<X, &R>::new(alloc, files);
    count_over(alloc, files, &mut store, steps, touches)
}

fn are_right<X: BlockHash, L: Ledger, R: Files + RandomSource>(
    alloc: Global,
    files: &R,
    steps: &[StoreCall],
    touches: &mut Steps<L>,
) -> io::Result<bool> {
    Ok(count_right::<X, L, R>(alloc, files, steps, touches)? == steps.len())
}

// Whether one of three writes fails exactly where the call of the machine with this number does.
fn writes_or_fails<L: Ledger, R: Files + RandomSource>(
    alloc: Global,
    files: &R,
    number: u64,
    touches: &mut Steps<L>,
) -> io::Result<bool> {
    let failing = FailingFiles::new(files, number);
    let count = count_right::<Sha256Hash, L, FailingFiles<'_, R>>(
        alloc, &failing, &WRITES, touches,
    )?;
    let wanted = if failing.has_failed() { 2 } else { 3 };
    Ok(count == wanted)
}

// Where the call of the machine with this number fails, one of three writes fails, no file is torn, and the writes can
// be done again. Where there are fewer calls, none does.
fn survives<L: Ledger, R: Files + RandomSource>(
    alloc: Global,
    files: &R,
    number: u64,
    touches: &mut Steps<L>,
) -> io::Result<bool> {
    fs::remove_dir_all(&(files, alloc), ".unixfs")?;
    let writes = writes_or_fails(alloc, files, number, touches)?;
    let torn = count_right::<Sha256Hash, L, R>(alloc, files, &TORN, touches)?;
    let again = are_right::<Sha256Hash, L, R>(alloc, files, &AGAIN, touches)?;
    Ok(writes && torn == 0 && again)
}

// The first call of the machine whose failure isn't survived.
fn first_lost<L: Ledger, R: Files + RandomSource>(
    alloc: Global,
    files: &R,
    touches: &mut Steps<L>,
) -> io::Result<Option<u64>> {
    for number in 0..40 {
        if !survives(alloc, files, number, touches)? {
            return Ok(Some(number));
        }
    }
    Ok(None)
}

// What a sweep of a store anew answers that keeps the block `a`.
fn swept_over<R: Files + RandomSource>(alloc: Global, files: &R) -> io::Result<Swept> {
    let mut store = DiskStore::<Sha256Hash, &R>::new(alloc, files);
    sweeps(alloc, &mut store, &[b"a"])
}

// Whether a sweep fails exactly where the call of the machine with this number does.
fn sweeps_or_fails<R: Files + RandomSource>(
    alloc: Global,
    files: &R,
    number: u64,
) -> io::Result<bool> {
    let failing = FailingFiles::new(files, number);
    let swept = swept_over(alloc, &failing)?;
    let wanted = if failing.has_failed() {
        Swept::Failed
    } else {
        Swept::Done(1)
    };
    Ok(swept == wanted)
}

// Where the call of the machine with this number fails, a sweep fails, and the block that is kept stays.
fn survives_sweep<L: Ledger, R: Files + RandomSource>(
    alloc: Global,
    files: &R,
    number: u64,
    touches: &mut Steps<L>,
) -> io::Result<bool> {
    let stood = are_right::<Sha256Hash, L, R>(alloc, files, &TWO, touches)?;
    let fails = sweeps_or_fails(alloc, files, number)?;
    let stays = are_right::<Sha256Hash, L, R>(alloc, files, &STAYS, touches)?;
    Ok(stood && fails && stays)
}

// The first call of the machine whose failure a sweep doesn't survive. It looks into 257 folders.
fn first_lost_by_sweep<L: Ledger, R: Files + RandomSource>(
    alloc: Global,
    files: &R,
    touches: &mut Steps<L>,
) -> io::Result<Option<u64>> {
    for number in 0..280 {
        if !survives_sweep(alloc, files, number, touches)? {
            return Ok(Some(number));
        }
    }
    Ok(None)
}

// The first of these tables that isn't right.
fn first_wrong<L: Ledger, R: Files + RandomSource>(
    alloc: Global,
    files: &R,
    touches: &mut Steps<L>,
) -> io::Result<Option<usize>> {
    for at in 0..TABLES.len() {
        if !are_right::<Sha256Hash, L, R>(alloc, files, TABLES[at], touches)? {
            return Ok(Some(at));
        }
    }
    Ok(None)
}

// The first table that isn't right, whether that of clashes is, and the first calls of the machine whose failure a
// sweep or a write doesn't survive.
fn outcome_by<L: Ledger, R: Files + RandomSource>(
    alloc: Global,
    files: &R,
    blank: Blank,
) -> io::Result<(Option<usize>, bool, Option<u64>, Option<u64>)>
    requires name { blank.name ≡ L.name }
    requires parts { blank.parts ≡ L.parts }
    requires some { 0 < blank.parts }
{
    let mut touches = Steps::<L>::new(blank);
    let wrong = first_wrong(alloc, files, &mut touches)?;
    let lost_by_sweep = first_lost_by_sweep(alloc, files, &mut touches)?;
    let clashes = are_right::<Sum8Hash, L, R>(alloc, files, &CLASHES, &mut touches)?;
    let lost = first_lost(alloc, files, &mut touches)?;
    Ok((wrong, clashes, lost_by_sweep, lost))
}

fn outcome<R: Files + RandomSource>(
    alloc: Global,
    files: &R,
) -> io::Result<(Option<usize>, bool, Option<u64>, Option<u64>)> {
    outcome_by::<Brand, R>(alloc, files, Blank::new(1))
}

#[test]
fn a_store_keeps_mends_clears_foresees_sweeps_clashes_refuses_and_survives(
    rt: HostRuntime,
) -> io::Result<()> {
    assert_eq!(rt; outcome(rt.alloc(), &rt)?, (None, true, None, None));
    Ok(())
}
