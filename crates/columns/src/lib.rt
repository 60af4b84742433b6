// The columns of a line of the printed settlement, put into a slice at a place, and the sum of an operator's points that stands in one.
// What puts something answers with the place after it.
#![tactic(auto)]

ghost use Rattle.std.specs.Prelude.{◌≡◌, [], ◌∷◌, ◌++◌, ◌+◌, ◌^◌, ◌≤◌, ◌<◌, length};
ghost use Rattle.apportion.specs.Sum.{sum};
ghost use Rattle.text.specs.Text.{decimal, signed_decimal};
ghost use Rattle.columns.specs.Columns.{columns_of, points_of_operator};
ghost use Rattle.text.specs.Steps.{with_text_at};

use calls::INDICATORS;
use settlement::Settlement;
use text::{put_byte, put_decimal, put_signed};

// The numbers of a line.
#[derive(Clone, Copy)]
pub struct Row {
    pub points: u64,
    pub paid: u64,
    pub received: u64,
    pub adjustment: i64,
}

// All of a line but its name.
pub fn put_columns(out: &mut [u8], at: usize, row: Row) -> usize
    requires { at + length (columns_of row) ≤ length out.old }
    ensures { (out.new ≡ with_text_at out.old at (columns_of row)) × (result ≡ at + length (columns_of row)) }
{
    let first = put_column(out, at, row.points);
    let second = put_column(out, first, row.paid);
    let third = put_column(out, second, row.received);
    put_adjustment(out, third, row.adjustment)
}

fn put_column(out: &mut [u8], at: usize, n: u64) -> usize
    requires { at + length (32 ∷ decimal n) ≤ length out.old }
    ensures { (out.new ≡ with_text_at out.old at (32 ∷ decimal n)) × (result ≡ at + length (32 ∷ decimal n)) }
{
    let next = put_byte(out, at, b' ');
    put_decimal(out, next, n)
}

// The last column, and the end of the line.
fn put_adjustment(out: &mut [u8], at: usize, n: i64) -> usize
    requires { at + length ((32 ∷ signed_decimal n) ++ (10 ∷ [])) ≤ length out.old }
    ensures { (out.new ≡ with_text_at out.old at ((32 ∷ signed_decimal n) ++ (10 ∷ []))) × (result ≡ at + length ((32 ∷ signed_decimal n) ++ (10 ∷ []))) }
{
    let first = put_byte(out, at, b' ');
    let last = put_signed(out, first, n);
    put_byte(out, last, b'\n')
}

// An operator's points over all indicators.
pub fn points_of_operator(s: Settlement, operator: usize) -> u64
    requires { (operator < 16) × (sum s.points < 2 ^ 60) }
    ensures { result ≡ points_of_operator s operator }
{
    (0..INDICATORS)
        .map(|number| s.points[16 * number + operator])
        .sum()
}
