// Settling: the refusals first, then points, money and adjustments.
ghost use Rattle.std.specs.Prelude.{◌≡◌, true};
ghost use Rattle.calls.specs.Answers.{refused_by, number_of, said};
ghost use Rattle.book.specs.Book.{in_range};
ghost use Rattle.calls.specs.Indicators.{indicators_of};
ghost use Rattle.settlement.specs.Settlement.{settlement_by, nothing, settled_by, settled, settled_gas};

use crate::{Settled, Settlement};
use apportion::share;
use book::Book;
use calls::{Answer, Kind, Refusal};
use gathering::{Gathered, gather};
use money::{adjust, limits_of, pot_of, return_weights};
use range::in_range;
use readiness::{all_marked, network_missing};
use values::{Measured, settings_of};

// The settlement of a book of electricity, or its refusal with all numbers 0. The book is unchanged.
pub fn settle(b: Book) -> Settled
    ensures { (said result.answer ≡ (settled b).said) × (result.settlement ≡ (settled b).settlement) }
{
    settle_as(Kind::Electricity, b)
}

// Of a book of gas, for which 02 wants calls of its own.
pub fn settle_gas(b: Book) -> Settled
    ensures { (said result.answer ≡ (settled_gas b).said) × (result.settlement ≡ (settled_gas b).settlement) }
{
    settle_as(Kind::Gas, b)
}

// Of a book of a kind.
pub fn settle_as(kind: Kind, b: Book) -> Settled
    ensures { (said result.answer ≡ (settled_by b (indicators_of kind)).said) × (result.settlement ≡ (settled_by b (indicators_of kind)).settlement) }
{
    if !in_range(kind, b) {
        return refuse(Refusal::OutOfRange);
    }
    if b.joined == 0 {
        return refuse(Refusal::NoneJoined);
    }
    if network_missing(kind, &b) {
        return refuse(Refusal::NetworkMissing);
    }
    if all_marked(kind, &b) {
        return refuse(Refusal::AllMarked);
    }
    Settled {
        settlement: settle_in_range(kind, &b),
        answer: Answer::Yes,
    }
}

// The refusal, beside numbers that are all 0.
fn refuse(refusal: Refusal) -> Settled
    ensures { (said result.answer ≡ refused_by (number_of refusal)) × (result.settlement ≡ nothing) }
{
    Settled {
        settlement: Settlement::default(),
        answer: Answer::Refused(refusal),
    }
}

// From points to adjustments.
fn settle_in_range(kind: Kind, b: &Book) -> Settlement
    requires { in_range (indicators_of kind) b.now ≡ true }
    ensures { result ≡ settlement_by b.now (indicators_of kind) }
{
    let Gathered {
        pools,
        points,
        totals,
    } = gather(kind, Measured { book: b });
    let access = settings_of(b, 1);
    let incomes = settings_of(b, 2);
    let pot = pot_of(b.pot_rate, incomes);
    let contributions = share(pot, access, access);
    let weights = return_weights(access, totals);
    let returns = share(pot, weights, access);
    let limits = limits_of(b.cap_rate, incomes);
    let adjustments = adjust(returns, contributions, limits, access);
    Settlement {
        pools,
        points,
        pot,
        contributions,
        returns,
        limits,
        adjustments,
    }
}
