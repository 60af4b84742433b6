// Reading a filing by way of a walker: it is taken apart, and the covered reader goes on from its offset in its bytes.
ghost use Rattle.std.specs.Prelude.{◌≡◌};
ghost use Rattle.filing.specs.Reader.{told, read_from, read};

use crate::Walker;
use crate::walkers::walker_over;
use book::Book;
use filing::Reading;
use reader::read_from;

// The fields from where a walker stands, into a book.
pub fn read_on<'a>(b: Book, w: Walker<'a>) -> Reading
    ensures { told result ≡ read_from b w.entry.bytes.now w.entry.offset }
{
    read_from(b, w.bytes, w.offset)
}

// A whole filing, into a book.
pub fn read(b: Book, bytes: &[u8]) -> Reading
    ensures { told result ≡ read b bytes.now }
{
    read_on(b, walker_over(bytes))
}
