// Shows a whole book, or its whole settlement, on one line: a list has a place and a value for each that is not 0.
use book::Book;
use calls::Kind;
use printing::print::{answered, list};
use settlement::Settlement;
use std::io;

// Who has joined and the rates; marks, indices, settings and figures.
pub(crate) fn book(rt: &impl Print, b: &Book) -> io::Result<()> {
    print!(rt; " = {} {} {}", b.joined, b.pot_rate, b.cap_rate)?;
    list(rt, &b.marks)?;
    list(rt, &b.indices)?;
    list(rt, &b.settings)?;
    list(rt, &b.figures)
}

pub(crate) fn settled(rt: &impl Print, kind: Kind, b: Book) -> io::Result<()> {
    let s = match kind {
        Kind::Electricity => settlement::settle(b),
        Kind::Gas => settlement::settle_gas(b),
    };
    answered(rt, s.answer)?;
    whole(rt, &s.settlement)
}

// The pot; pools, points, contributions, returns, limits and adjustments.
fn whole(rt: &impl Print, s: &Settlement) -> io::Result<()> {
    print!(rt; " {}", s.pot)?;
    list(rt, &s.pools)?;
    list(rt, &s.points)?;
    list(rt, &s.contributions)?;
    list(rt, &s.returns)?;
    list(rt, &s.limits)?;
    list(rt, &s.adjustments)
}
