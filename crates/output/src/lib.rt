// Standard output, as the programs write to it. It stands on the C library's `write` alone, and uses no heap.
#![tactic(auto)]

ghost use Rattle.std.specs.Prelude.{◌≡◌, [], IsOk};
ghost use Rattle.output.specs.Buffered.{buffered_after};

use arrayvec::ArrayVec;
use std::fmt;

const STDOUT: i32 = 1;

// How many bytes are buffered. More would cost stack, fewer would cost writes.
const ROOM: usize = 4096;

// What is put is buffered until there is no room for it, or until it is flushed. What is not written then, because a write fails, is passed over, so
// that the run goes on to its end, and no call here fails.
#[derive(Drop)]
pub struct Output {
    pub buffered: ArrayVec<u8, ROOM>,
}

impl Output {
    pub fn new() -> Output
        ensures { result.buffered.items ≡ [] }
    {
        let buffered = ArrayVec::new();
        Output { buffered }
    }

    // Bytes that need not be text.
    pub fn put(&mut self, bytes: &[u8])
        ensures { self.new.buffered.items ≡ buffered_after self.old.buffered.items bytes.now }
    {
        if self.buffered.try_extend_from_slice(bytes).is_ok() {
            return;
        }
        self.flush();
        if self.buffered.try_extend_from_slice(bytes).is_err() {
            io::write_all(STDOUT, bytes);
        }
    }

    pub fn flush(&mut self)
        ensures { self.new.buffered.items ≡ [] }
    {
        io::write_all(STDOUT, self.buffered.as_slice());
        self.buffered.clear();
    }
}

impl fmt::Write for Output {
    ghost write_str_gives = { λ old text new. new.buffered.items ≡ buffered_after old.buffered.items text };

    fn write_str(&mut self, text: &str) -> fmt::Result
        ensures ok { IsOk result }
        ensures buffered { self.new.buffered.items ≡ buffered_after self.old.buffered.items text.now }
    {
        self.put(text.as_bytes());
        Ok(())
    }
}
