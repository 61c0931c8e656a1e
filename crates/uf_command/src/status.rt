//! How a command ends.
ghost use Rattle.std.specs.Prelude.{◌≡◌};

/// How a command ended.
#[derive(Clone, Copy, PartialEq, Eq)]
pub enum Status {
    /// 0: it was done.
    Ok,
    /// 1: a rule refuses it.
    Rule,
    /// 2: its words are none of a command.
    Usage,
    /// 3: the store failed, or has a damaged block.
    StoreFault,
    /// 4: a block is missing.
    Missing,
    /// 5: a block isn't canonical.
    BadBlock,
    /// 6: a reading failed.
    ReadFault,
    /// 7: a writing failed.
    WriteFault,
    /// 8: two blocks clash.
    Clash,
    /// 9: memory was wanting.
    Memory,
    /// 10: the store isn't ready for it.
    NotReady,
}

impl Status {
    ghost use Rattle.uf_command.specs.Statuses.{ends_batch, mark, plain_line, status_number};

    /// The exit status of the process, 0 to 10 in the order of the variants.
    pub fn number(&self) -> u8
        ensures { result ≡ status_number self.now }
    {
        *self as u8
    }

    /// The line that goes to `errors`, with its end, where the status alone says it; nothing where there is none, or
    /// where it has details.
    pub fn plain_line(&self) -> &'static [u8]
        ensures { result.now ≡ plain_line self.now }
    {
        match self {
            Status::Usage => b"error: usage\n",
            Status::StoreFault => b"error: store\n",
            Status::ReadFault => b"error: read\n",
            Status::WriteFault => b"error: write\n",
            Status::Memory => b"error: memory\n",
            Status::Ok
            | Status::Rule
            | Status::Missing
            | Status::BadBlock
            | Status::Clash
            | Status::NotReady => b"",
        }
    }

    /// Whether a batch ends at a line with this status.
    pub fn ends_batch(&self) -> bool
        ensures { result ≡ ends_batch self.now }
    {
        !matches!(
            self,
            Status::Ok | Status::Rule | Status::Usage | Status::Missing | Status::NotReady
        )
    }

    /// What is printed after a line's command.
    pub fn mark(&self) -> &'static [u8]
        ensures { result.now ≡ mark self.now }
    {
        match self {
            Status::Ok => b"[0]\n",
            Status::Rule => b"[1]\n",
            Status::Usage => b"[2]\n",
            Status::StoreFault => b"[3]\n",
            Status::Missing => b"[4]\n",
            Status::BadBlock => b"[5]\n",
            Status::ReadFault => b"[6]\n",
            Status::WriteFault => b"[7]\n",
            Status::Clash => b"[8]\n",
            Status::Memory => b"[9]\n",
            Status::NotReady => b"[10]\n",
        }
    }
}
