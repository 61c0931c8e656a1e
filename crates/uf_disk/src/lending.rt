//! The block that is lent.
ghost use Rattle.std.specs.Prelude.{◌≡◌, [], false, IfSome, IsTrue, None, OnOk};
ghost use Rattle.std.proofs.Props.{props};
ghost use Rattle.uf_disk.specs.Ahead.{IsWholeFor, IsInside};

use crate::ahead::{Ahead, Span};
use crate::folder::Folder;
use std::alloc::{AllocError, Global};
use std::fs::Files;
use std::mem;
use std::random::RandomSource;
use uf_cid::{BlockHash, Cid};

/// The block that is lent, and those that were read ahead. It lies among them, or in a buffer of its own.
#[derive(Drop)]
pub struct Lending<X: BlockHash> {
    own: Vec<u8>,
    ahead: Ahead<X>,
    span: Option<Span>,
    ghost inside: { IfSome span (λ s. IsInside s ahead.bytes.items) } by { Prim.hlevel props },
}

impl<X: BlockHash> Lending<X> {
    ghost use Rattle.uf_disk.specs.Lending.{lent_by};

    /// No bytes are lent.
    pub fn new(alloc: Global) -> Self
        ensures { lent_by result ≡ [] }
    {
        Lending {
            own: Vec::new(alloc),
            ahead: Ahead::new(alloc),
            span: None,
        }
    }

    /// The bytes that are lent.
    pub fn block(&self) -> &[u8]
        ensures { result.now ≡ lent_by self.now }
    {
        match self.span {
            Some(span) => self.ahead.bytes_at(span),
            None => self.own.as_slice(),
        }
    }

    /// Lends the bytes of a buffer, which gets another one for it.
    pub fn lend(&mut self, buffer: &mut Vec<u8>)
        ensures { lent_by self.new ≡ buffer.old.items }
    {
        mem::swap(&mut self.own, buffer);
        self.span = None;
    }

    /// Lends a block that was read ahead and has its CID's digest, where it lies: whether there is one.
    pub fn lend_ahead(&mut self, cid: &Cid) -> bool
        ensures lent { IsTrue result → IsWholeFor X.block32 cid.now (lent_by self.new) }
        ensures none { result ≡ false → lent_by self.new ≡ lent_by self.old }
    {
        let Some(span) = self.ahead.find(cid) else {
            return false;
        };
        self.span = Some(span);
        true
    }

    /// Reads the first of these blocks ahead, but where the first one is there already, or where there is no memory.
    pub fn foresee<R: Files + RandomSource>(&mut self, folder: &Folder<R>, cids: &[Cid])
        ensures { lent_by self.new ≡ lent_by self.old }
    {
        let Some(first) = cids.first() else {
            return;
        };
        if self.ahead.find(first).is_none() && self.keep().is_ok() {
            self.ahead.read(folder, cids);
        }
    }

    // Copies the block that is lent out of the buffer of those that were read ahead, so that others can be read there.
    fn keep(&mut self) -> Result<(), AllocError>
        ensures ok { OnOk result (self.new.span ≡ None) }
        ensures lent { lent_by self.new ≡ lent_by self.old }
    {
        if let Some(span) = self.span {
            self.own.clear();
            self.own.extend_from_slice(self.ahead.bytes_at(span))?;
            self.span = None;
        }
        Ok(())
    }

    /// Lets go of the block that is lent, and of those that were read ahead.
    pub fn forget(&mut self)
        ensures { lent_by self.new ≡ [] }
    {
        self.own.clear();
        self.span = None;
        self.ahead.forget();
    }
}
