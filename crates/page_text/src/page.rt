//! A page of bytes, which goes to a sink when it is full.
ghost use Rattle.std.specs.Prelude.{◌≡◌, [], ◌∷◌, OnOk, Result};
ghost use Rattle.jx_base.specs.Puts.{Puts};
ghost use Rattle.page_text.specs.Writes.{Writes};

use arrayvec::ArrayVec;
use jx_base::{Failed, Sink};
use std::marker::Model;

/// Up to 4,096 bytes that are still to be put. It takes no memory.
#[derive(Drop)]
pub struct Page {
    bytes: ArrayVec<u8, 4096>,
}

impl Model for Page {
    ghost use Rattle.std.specs.Prelude.{List, ℕ};

    ghost Value = { List ℕ };

    ghost view = { λ page. page.bytes.items };
}

impl Page {
    /// An empty page.
    pub fn new() -> Page
        ensures { result ≡ [] }
    {
        Page {
            bytes: ArrayVec::new(),
        }
    }

    /// Puts what stands on the page, in one piece.
    pub fn flush<K: Sink>(&mut self, sink: &mut K) -> Result<(), Failed>
        ensures puts { Puts self.old (K.state sink.old) (K.state sink.new) result }
        ensures empty { OnOk result (self.new ≡ []) }
    {
        sink.put(self.bytes.as_slice())?;
        self.bytes.clear();
        Ok(())
    }

    /// Writes the byte behind the others.
    pub fn write_byte<K: Sink>(&mut self, byte: u8, sink: &mut K) -> Result<(), Failed>
        ensures { Writes (byte ∷ []) (self.old, K.state sink.old)
            (self.new, K.state sink.new) result }
    {
        if self.bytes.is_full() {
            self.flush(sink)?;
        }
        self.bytes.push(byte);
        Ok(())
    }

    /// Writes the bytes behind the others.
    pub fn write<K: Sink>(&mut self, bytes: &[u8], sink: &mut K) -> Result<(), Failed>
        ensures { Writes bytes.now (self.old, K.state sink.old)
            (self.new, K.state sink.new) result }
    {
        for byte in bytes {
            self.write_byte(*byte, sink)?;
        }
        Ok(())
    }
}

/// Puts the bytes in pieces of at most 4,096.
pub fn put_bytes<K: Sink>(bytes: &[u8], sink: &mut K) -> Result<(), Failed>
    ensures { Puts bytes.now (K.state sink.old) (K.state sink.new) result }
{
    let mut page = Page::new();
    page.write(bytes, sink)?;
    page.flush(sink)
}
