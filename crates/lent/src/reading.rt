// Reading a filing into a lent book, by way of a walker. It is its core, lent, as each filing call is.
ghost use Rattle.std.specs.Prelude.{◌≡◌};
ghost use Rattle.filing.specs.Reader.{reached_by, read};

use book::Book;
use filing::Progress;

pub fn read(b: &mut Book, bytes: &[u8]) -> Progress
    ensures { reached_by b.new result ≡ read b.old bytes.now }
{
    let after = walker::read(*b, bytes);
    *b = after.book;
    after.progress
}
