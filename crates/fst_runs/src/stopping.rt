//! A writer that has room for so many bytes, takes one at a time, and then stops.

ghost use Rattle.std.specs.Prelude.{Some};

use std::alloc::Global;
use std::io;
use std::io::Write;

/// How a writer without room answers.
#[derive(Clone, Copy)]
pub enum NoRoom {
    /// It takes nothing, and says that it took no byte.
    TakesNothing,
    /// One error, and then it takes all.
    FailsOnce,
    /// An error each time.
    Fails,
}

/// Takes a byte at a time, as long as there is room.
#[derive(Drop)]
pub struct Stopping {
    pub held: Vec<u8>,
    room: usize,
    then: NoRoom,
}

impl Write for Stopping {
    ghost contents = { λ w. Some w.held.items };

    fn write(&mut self, buf: &[u8]) -> io::Result<usize> {
        let Some(first) = buf.first() else {
            return Ok(0);
        };
        if self.room == 0 {
            match self.then {
                NoRoom::TakesNothing => return Ok(0),
                NoRoom::FailsOnce => self.room = usize::MAX,
                NoRoom::Fails => {}
            }
            return Err(io::Error::from(io::ErrorKind::Other));
        }
        self.held.push(*first)?;
        self.room -= 1;
        Ok(1)
    }

    fn flush(&mut self) -> io::Result<()> {
        Ok(())
    }
}

/// Takes so many bytes.
pub fn with_room(alloc: Global, room: usize, then: NoRoom) -> Stopping {
    Stopping {
        held: Vec::new(alloc),
        room,
        then,
    }
}
