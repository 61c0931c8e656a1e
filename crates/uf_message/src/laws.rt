//! What holds of messages and their spellings, whoever writes or reads them.
ghost use Rattle.std.specs.Prelude.{◌≡◌, ◌<◌, ◌^◌, ℕ, Ok, IfSome, FitsSigned, length};
ghost use Rattle.std.specs.Int.{w64};
ghost use Rattle.std.specs.List.{AllByRecursion};
ghost use Rattle.uf_message.specs.Reading.{message_reads};
ghost use Rattle.uf_message.specs.Spelling.{IsMessage, message_bytes};
ghost use Rattle.uf_message.specs.declared.message.Message.{Message as TheMessage};

use crate::{Message, Mtime};
use uf_cid::Block;

/// What is written is read again.
pub fn messages_are_read_again()
    ensures { (m : TheMessage) → IsMessage m → message_reads (message_bytes m) ≡ Ok m }
{}

/// A spelling stands for one message.
pub fn spellings_are_one()
    ensures { (a : TheMessage) → (b : TheMessage) → IsMessage a → IsMessage b → message_bytes a ≡ message_bytes b
        → a ≡ b }
{}

/// The numbers and lengths of a message have the widths of their types.
pub fn messages_fit(message: &Message)
    ensures { IsMessage message.now }
{
    content_fits(&message.content);
    number_fits(message.filesize);
    sizes_fit(message.blocksizes.as_slice());
    number_fits(message.hash_type);
    number_fits(message.fanout);
    mode_fits(message.mode);
    mtime_fits(message.mtime);
}

fn content_fits(content: &Option<Block>)
    ensures { IfSome content.now (λ bytes. length bytes < 2 ^ 64) }
{
    if let Some(block) = content {
        let _len = block.as_slice().len();
    }
}

fn number_fits(number: Option<u64>)
    ensures { IfSome number (λ n. n < 2 ^ 64) }
{}

fn mode_fits(mode: Option<u32>)
    ensures { IfSome mode (λ n. n < 2 ^ 32) }
{}

fn sizes_fit(sizes: &[u64])
    ensures { AllByRecursion (λ n. n < 2 ^ 64) sizes.now }
{}

fn mtime_fits(mtime: Option<Mtime>)
    ensures seconds { IfSome mtime (λ t. FitsSigned w64 t.seconds) }
    ensures nanos { IfSome mtime (λ t. IfSome t.nanos (λ n. n < 2 ^ 32)) }
{}
