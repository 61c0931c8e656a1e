//! How often an edit of a file may touch the store.

/// What is done to a file: bytes are written at a place, or it is cut there.
pub type FileEdit<'a> = (u64, Option<&'a [u8]>);

// How many pieces have one of the bytes from one place up to another.
fn pieces_of(chunk: u64, from: u64, to: u64) -> u64 {
    let chunk = chunk.max(1);
    (to.saturating_add(chunk - 1) / chunk).saturating_sub(from / chunk)
}

// How many bytes a file has after a write, and how many pieces that changes.
fn written(chunk: u64, size: u64, place: u64, more: u64) -> (u64, u64) {
    if more == 0 {
        return (size, 0);
    }
    let end = place.saturating_add(more);
    let from = place.min(size.saturating_sub(1));
    (size.max(end), pieces_of(chunk, from, end))
}

// The same after a cut.
fn cut(chunk: u64, size: u64, place: u64) -> (u64, u64) {
    if place == size {
        return (size, 0);
    }
    let from = place.min(size).saturating_sub(1);
    (place, pieces_of(chunk, from, place.max(1)))
}

// How many rows of nodes stand over the leaves of a file of n bytes.
fn height(sizes: (u64, u64), size: u64) -> u64 {
    let mut span = sizes.0;
    for height in 0..64 {
        if size <= span {
            return height;
        }
        span = span.saturating_mul(sizes.1);
    }
    64
}

/// How often an edit may touch the store: twice for each piece that it changes, and for two more, with the rows of
/// the taller file and two more. The pieces and the nodes have these sizes.
pub fn most_touches(sizes: (u64, u64), size: u64, edit: FileEdit<'_>) -> u64 {
    let (place, piece) = edit;
    let (new, pieces) = match piece {
        Some(piece) => written(sizes.0, size, place, piece.len() as u64),
        None => cut(sizes.0, size, place),
    };
    let each = height(sizes, size)
        .max(height(sizes, new))
        .saturating_add(2);
    pieces
        .saturating_add(2)
        .saturating_mul(each)
        .saturating_mul(2)
}
