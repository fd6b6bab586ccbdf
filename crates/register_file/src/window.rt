// What was read of standard input and is not judged yet.
ghost use Rattle.std.specs.Prelude.{◌≡◌, ◌+◌, ◌≤◌, length};

use std::io::{Eprint, Read};
use streams::{Said, or_said};

// The bytes from `from` to `to`, and whether the input ends after them. There is no heap, so no VecDeque.
#[derive(Drop)]
pub(crate) struct Window {
    room: [u8; 65536],
    from: usize,
    to: usize,
    pub ended: bool,
    ghost begins: { from ≤ to },
    ghost ends: { to ≤ 65536 },
}

impl Window {
    pub(crate) fn new() -> Window
        ensures { (result.from ≡ 0) × (result.to ≡ 0) }
    {
        Window {
            room: [0; 65536],
            from: 0,
            to: 0,
            ended: false,
        }
    }

    pub(crate) fn bytes(&self) -> &[u8]
        ensures { self.now.from + length result.now ≡ self.now.to }
    {
        &self.room[self.from..self.to]
    }

    // The first of them are judged.
    pub(crate) fn take(&mut self, judged: usize)
        requires { self.old.from + judged ≤ self.old.to }
        ensures { (self.new.from ≡ self.old.from + judged) × (self.new.to ≡ self.old.to) }
    {
        self.from += judged;
    }

    // They move to the front, and one read follows them.
    pub(crate) fn read_more<R: Eprint + Alloc, I: Read>(
        &mut self,
        rt: &R,
        reader: &mut I,
    ) -> Result<(), Said> {
        self.room.copy_within(self.from..self.to, 0);
        let left = self.to - self.from;
        self.from = 0;
        self.to = left;
        let read = streams::read_once(reader, &mut self.room[left..]);
        match or_said(rt, "register_file: standard input can't be read", read)? {
            Some(got) => self.to = left + got,
            None => self.ended = true,
        }
        Ok(())
    }
}
