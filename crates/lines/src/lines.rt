// The lines of the printed settlement, put into a slice at a place; each answers with the place after it.
ghost use Rattle.std.specs.Prelude.{◌≡◌, cond, [], ◌+◌, ◌≤◌, length};
ghost use Rattle.book.specs.Book.{is_joined};
ghost use Rattle.lines.specs.Lines.{Printable, LineFits, operator_line, operator_lines, last_line, printed};
ghost use Rattle.text.specs.Steps.{with_text_at};

use apportion::sum_of;
use book::{Book, is_joined};
use columns::{Row, points_of_operator, put_columns};
use settlement::Settlement;
use text::{put_decimal, put_word};

// The header, the joined operators rising, and the sums.
pub fn put_lines(out: &mut [u8], b: Book, s: Settlement) -> usize
    requires { Printable s × (0 + length (printed b s) ≤ length out.old) }
    ensures { (out.new ≡ with_text_at out.old 0 (printed b s)) × (result ≡ 0 + length (printed b s)) }
{
    let first = put_word(out, 0, b"operator points out in adjustment\n");
    let last = put_operators(out, first, b, s);
    put_last(out, last, s)
}

fn put_operators(out: &mut [u8], at: usize, b: Book, s: Settlement) -> usize
    requires { Printable s × (at + length (operator_lines b s 16) ≤ length out.old) }
    ensures { (out.new ≡ with_text_at out.old at (operator_lines b s 16)) × (result ≡ at + length (operator_lines b s 16)) }
{
    let mut next = at;
    for operator in 0..16 {
        next = put_if_joined(out, next, b, s, operator);
    }
    next
}

fn put_if_joined(out: &mut [u8], at: usize, b: Book, s: Settlement, operator: u8) -> usize
    requires { LineFits s operator at (cond (is_joined b operator) (operator_line s operator) []) out.old }
    ensures { (out.new ≡ with_text_at out.old at (cond (is_joined b operator) (operator_line s operator) [])) × (result ≡ at + length (cond (is_joined b operator) (operator_line s operator) [])) }
{
    if !is_joined(b, operator) {
        return at;
    }
    put_operator(out, at, s, operator as usize)
}

fn put_operator(out: &mut [u8], at: usize, s: Settlement, operator: usize) -> usize
    requires { LineFits s operator at (operator_line s operator) out.old }
    ensures { (out.new ≡ with_text_at out.old at (operator_line s operator)) × (result ≡ at + length (operator_line s operator)) }
{
    let row = Row {
        points: points_of_operator(s, operator),
        paid: s.contributions[operator],
        received: s.returns[operator],
        adjustment: s.adjustments[operator],
    };
    let next = put_decimal(out, at, operator as u64);
    put_columns(out, next, row)
}

// The adjustments' sum is 0: `adjustments_cancel` of the settlement's laws.
fn put_last(out: &mut [u8], at: usize, s: Settlement) -> usize
    requires { Printable s × (at + length (last_line s) ≤ length out.old) }
    ensures { (out.new ≡ with_text_at out.old at (last_line s)) × (result ≡ at + length (last_line s)) }
{
    let row = Row {
        points: sum_of(s.points),
        paid: sum_of(s.contributions),
        received: sum_of(s.returns),
        adjustment: 0,
    };
    let next = put_word(out, at, b"all");
    put_columns(out, next, row)
}
