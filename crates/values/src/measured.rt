// A lent book whose measures of operators are within their limits, so that what is worked out from them fits.
ghost use Rattle.values.specs.Bounds.{Within};

use book::Book;

#[derive(Clone, Copy)]
pub struct Measured<'a> {
    pub book: &'a Book,
    pub ghost within: { Within book.now },
}
