//! Rows of a host, in the folder that the test runs in.
use std::alloc::Global;
use std::fs::Files;
use uf_disk::DiskHost;
use uf_edge::{Fetched, Host, Kind, Listing, Put};

// A call of a host, and what is to come of it.
#[derive(Clone, Copy)]
enum HostStep {
    Is(&'static str, Kind),
    Makes(&'static str, Put),
    Appends(&'static str, &'static [u8], Put),
    Reads(&'static str, u64, Fetched),
    // The buffer begins with these bytes.
    Gives(&'static [u8]),
    Lists(&'static str, &'static [&'static str]),
}

// A host makes, grows, lists and reads files. At the empty path it makes nothing.
const HOSTS: [HostStep; 21] = [
    HostStep::Is("", Kind::Absent),
    HostStep::Makes("", Put::Failed),
    HostStep::Appends("", b"x", Put::Failed),
    HostStep::Is("host", Kind::Absent),
    HostStep::Makes("host", Put::Done),
    HostStep::Makes("host", Put::Failed),
    HostStep::Is("host", Kind::Folder),
    HostStep::Appends("host/b", b"0123456789", Put::Done),
    HostStep::Appends("host/a", b"", Put::Done),
    HostStep::Appends("host/b", b"x", Put::Done),
    HostStep::Appends("host", b"x", Put::Failed),
    HostStep::Is("host/b", Kind::File),
    HostStep::Is("host/b/c", Kind::Absent),
    HostStep::Reads("host/b", 0, Fetched::Got(8)),
    HostStep::Reads("host/b", 8, Fetched::Got(3)),
    HostStep::Gives(b"89x"),
    HostStep::Reads("host/b", 11, Fetched::End),
    HostStep::Reads("host/b", 5, Fetched::Got(6)),
    HostStep::Reads("host/a", 0, Fetched::End),
    HostStep::Reads("host/none", 0, Fetched::Failed),
    HostStep::Lists("host", &["a", "b"]),
];

fn lists(listing: Listing, wanted: &[&str]) -> bool {
    match listing {
        Listing::Names(names) => {
            names.len() == wanted.len()
                && names
                    .as_slice()
                    .iter()
                    .zip(wanted)
                    .all(|(name, text)| name.as_str() == *text)
        }
        _ => false,
    }
}

// Whether a call of a host goes so.
fn host_goes<R: Files>(host: &mut DiskHost<R>, buffer: &mut [u8; 8], step: &HostStep) -> bool {
    match step {
        HostStep::Is(path, kind) => host.kind(*path) == *kind,
        HostStep::Makes(path, answer) => host.make_folder(*path) == *answer,
        HostStep::Appends(path, piece, answer) => host.append(*path, *piece) == *answer,
        HostStep::Reads(path, offset, answer) => host.read_at(*path, *offset, buffer) == *answer,
        HostStep::Gives(bytes) => buffer.starts_with(*bytes),
        HostStep::Lists(path, names) => lists(host.list(*path), *names),
    }
}

fn first_wrong_call<R: Files>(alloc: Global, files: &R) -> Option<usize> {
    let mut host = DiskHost::<&R>::new(alloc, files);
    let mut buffer = [0u8; 8];
    for at in 0..HOSTS.len() {
        if !host_goes(&mut host, &mut buffer, &HOSTS[at]) {
            return Some(at);
        }
    }
    None
}

#[test]
fn a_host_makes_grows_lists_and_reads_files(rt: HostRuntime) {
    assert_eq!(rt; first_wrong_call(rt.alloc(), &rt), None);
}
