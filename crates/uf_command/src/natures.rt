//! The nature of commands, where they run.
ghost use Rattle.std.specs.Prelude.{◌≡◌};
ghost use Rattle.uf_command.specs.Natures.{calm_fault, only_reads, settled, without_clash as refusal_without_clash};
ghost use Rattle.uf_command.specs.declared.types.Command.TheVariants as commands;

use crate::{Adding, Ask, Command, PinAsk, Refusal};
use uf_store::StoreFault;

impl Adding {
    // Whether what is added is only hashed.
    fn only_hashes(&self) -> bool
        ensures { result ≡ only_reads (commands.Add self.now) }
    {
        match self {
            Adding::Input { only_hash: true }
            | Adding::Host {
                only_hash: true,
                ..
            } => true,
            Adding::Input { only_hash: false }
            | Adding::Host {
                only_hash: false,
                ..
            }
            | Adding::InputTo { .. }
            | Adding::HostTo { .. } => false,
        }
    }
}

impl Command {
    /// Whether the command writes nothing to the store.
    pub fn only_reads(&self) -> bool
        ensures { result ≡ only_reads self.now }
    {
        match self {
            Command::Add { adding } => adding.only_hashes(),
            Command::At {
                ask: Ask::Ls { .. } | Ask::Stat,
                ..
            }
            | Command::Read { .. }
            | Command::Cat { .. }
            | Command::Get { .. }
            | Command::Export { .. }
            | Command::Same { .. }
            | Command::Gen { .. }
            | Command::Pin { ask: PinAsk::List }
            | Command::Prove { .. } => true,
            Command::Init { .. }
            | Command::WriteInput { .. }
            | Command::At {
                ask: Ask::Edit { .. },
                ..
            }
            | Command::Import
            | Command::Adopt { .. }
            | Command::Pin {
                ask: PinAsk::Add { .. } | PinAsk::Remove { .. },
            } => false,
        }
    }

    /// How the command ended, as it is reported. One that writes nothing to the store saves no block, and a load meets
    /// no clash: were a store to answer one, it is reported as out of memory.
    pub fn settle(&self, done: Result<(), Refusal>) -> Result<(), Refusal>
        ensures { result ≡ settled (only_reads self.now) done }
    {
        if !self.only_reads() {
            return done;
        }
        match done {
            Ok(()) => Ok(()),
            Err(why) => Err(without_clash(why)),
        }
    }
}

// A refusal, with out of memory in place of a clash.
fn without_clash(why: Refusal) -> Refusal
    ensures { result ≡ refusal_without_clash why }
{
    match why {
        Refusal::Store(fault) => Refusal::Store(calm(fault)),
        why => why,
    }
}

// A fault of the store, with out of memory in place of a clash.
fn calm(fault: StoreFault) -> StoreFault
    ensures { result ≡ calm_fault fault }
{
    match fault {
        StoreFault::Clash(..) => StoreFault::Memory,
        other => other,
    }
}
