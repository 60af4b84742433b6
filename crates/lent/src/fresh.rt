// A filing read into a fresh book by way of the lent reader.
ghost use Rattle.std.specs.Prelude.{◌≡◌};
ghost use Rattle.calls.specs.Indicators.{indicators_of};
ghost use Rattle.book.specs.Book.{fresh_book};
ghost use Rattle.filing.specs.Reader.{told, read_as, read_gas, read};

use crate::held;
use calls::Kind;
use filing::Reading;

// What reading gives, of the filing alone.
pub fn read_fresh(bytes: &[u8]) -> Reading
    ensures { told result ≡ read fresh_book bytes.now }
{
    held::read(book::fresh(), bytes)
}

// The same of a filing of gas, for which 02 wants calls of its own.
pub fn read_fresh_gas(bytes: &[u8]) -> Reading
    ensures { told result ≡ read_gas fresh_book bytes.now }
{
    held::read_gas(book::fresh(), bytes)
}

// The same of a filing of a kind.
pub fn read_fresh_as(kind: Kind, bytes: &[u8]) -> Reading
    ensures { told result ≡ read_as (indicators_of kind) fresh_book bytes.now }
{
    match kind {
        Kind::Electricity => read_fresh(bytes),
        Kind::Gas => read_fresh_gas(bytes),
    }
}
