// Where a run stands between two turns, and how a turn, a write and a read move it on.
ghost use Rattle.std.specs.Prelude.{◌≤◌};
ghost use Rattle.resample.specs.Sizes.{buffer_size};

use program_spec::{Next, Stream};
use std::io;
use std::io::{Read, Write};

pub const BUFFER_SIZE: usize = 65536;

/// The bytes of input, or the text: memory of a fixed size, since the program has no heap.
pub type Buffer = [u8; BUFFER_SIZE];

/// Where a run stands: of its input the bytes from `from` to `to` are unread, and the first `filled` bytes of text wait to be written.
#[derive(Clone, Copy)]
pub struct Marks {
    stream: Stream,
    from: usize,
    to: usize,
    /// No more input comes.
    ended: bool,
    filled: usize,
    ghost in_order: { from ≤ to },
    ghost in_bounds: { to ≤ buffer_size },
    ghost text_in_bounds: { filled ≤ buffer_size },
}

impl Marks {
    ghost use Rattle.std.specs.Prelude.{◌≡◌, ◌++◌, ℕ, false, true, List, length, take, drop, IfOk, OnOk, OnErr};
    ghost use Rattle.std.specs.Io.KnownBytes.{Appends, Consumes, IsAtEnd, Keeps};
    ghost use Rattle.resample.specs.Buffers.{begun, as_marks, unread, waiting};
    ghost use Rattle.resample.specs.Moves.{TurnMade, HasRoom, RoomIfRead, MoreRead, came_in, emptied};
    ghost use Rattle.resample.specs.Streams.{ReadStops};

    /// Before the first turn: nothing is read, and nothing waits.
    pub fn new() -> Self
        ensures { as_marks result false ≡ begun }
    {
        Self {
            stream: program::open(),
            from: 0,
            to: 0,
            ended: false,
            filled: 0,
        }
    }

    /// The bytes that are read and not yet used.
    fn unread(self, bytes: &Buffer) -> &[u8]
        ensures { result.now ≡ unread (as_marks self false) bytes.now }
    {
        &bytes[self.from..self.to]
    }

    /// The text that is made and not yet written.
    fn waiting(self, text: &Buffer) -> &[u8]
        ensures { result.now ≡ waiting (as_marks self false) text.now }
    {
        &text[..self.filled]
    }

    /// Makes one turn over what is unread, whose text goes behind the text that waits. Tells what the turn asks for.
    pub fn turn(&mut self, bytes: &Buffer, text: &mut Buffer) -> Next
        ensures room { RoomIfRead result (as_marks self.new false) }
        ensures made { TurnMade (as_marks self.old false) bytes.now text.old (record { marks = as_marks self.new false; next = result }) text.new }
    {
        let made = program::make_turn(
            self.stream,
            self.unread(bytes),
            self.ended,
            &mut text[self.filled..],
        );
        self.stream = made.stream;
        self.from += made.used;
        self.filled += made.written;
        made.next
    }

    /// Writes the text that waits.
    pub fn write_text<W: Write>(&mut self, text: &Buffer, writer: &mut W) -> io::Result<()>
        ensures marks { OnOk result (as_marks self.new false ≡ emptied (as_marks self.old false) false) }
        ensures ok { OnOk result (Appends (W.contents writer.old) (W.contents writer.new) (waiting (as_marks self.old false) text.now)) }
        ensures err { OnErr result ((n : ℕ) × Appends (W.contents writer.old) (W.contents writer.new) (take n (waiting (as_marks self.old false) text.now))) }
    {
        crate::write_whole(writer, self.waiting(text))?;
        self.filled = 0;
        Ok(())
    }

    /// Reads more input behind the unread bytes.
    pub fn read_more<R: Read>(&mut self, bytes: &mut Buffer, reader: &mut R) -> io::Result<()>
        requires room { HasRoom (as_marks self.old false) }
        ensures more { OnOk result (MoreRead (as_marks self.old false) bytes.old (as_marks self.new false) bytes.new) }
        ensures read { OnOk result (Consumes (R.remaining reader.old) (R.remaining reader.new) (came_in (as_marks self.old false) bytes.old (as_marks self.new false) bytes.new)) }
        ensures end { OnOk result (self.new.ended ≡ true → IsAtEnd (R.remaining reader.new)) }
        ensures err { OnErr result (Keeps (R.remaining reader.old) (R.remaining reader.new)) }
        ensures stops { OnErr result (ReadStops (as_marks self.old false) bytes.old bytes.new) }
    {
        program::to_front(&mut bytes[..self.to], self.from);
        self.to -= self.from;
        self.from = 0;
        let n = reader.read(&mut bytes[self.to..])?;
        self.to += n;
        self.ended = n == 0;
        Ok(())
    }
}
