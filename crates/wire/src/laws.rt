// The laws of the codec: written then read is itself, read then written is itself.
ghost use Rattle.grammar.specs.Meaning.{meaning};
ghost use Rattle.wire.specs.Laws.{WrittenRead, ReadWritten, Returned, Copied};

use crate::reading::read;
use crate::writing::write;
use grammar::message::Message;
use terms::refusal::Refusal;

// The laws hold.
pub fn codec_stands()
    ensures written_read { WrittenRead }
    ensures read_written { ReadWritten }
{}

// Writes a message, and reads what was written: the message itself.
pub fn write_then_read<'b>(message: Message<'_>, buf: &'b mut [u8]) -> Result<Message<'b>, Refusal>
    ensures { Returned (meaning message.entry) buf.old result }
{
    let end = write(message, buf)?;
    read(&buf[0..end])
}

// Reads a datagram, and writes what was read: the datagram to the byte.
pub fn read_then_write(bytes: &[u8], buf: &mut [u8]) -> Result<usize, Refusal>
    ensures { Copied bytes.now buf.old buf.new result }
{
    write(read(bytes)?, buf)
}
