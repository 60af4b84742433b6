// A figure that is filed to or withdrawn from.
ghost use Rattle.std.specs.Prelude.{◌≡◌};
ghost use Rattle.judging.specs.Figures.{moved_said, moved_by};

use calls::{FIGURE_LIMIT, Refusal};

// A figure with a value added, or with sign 1 subtracted; refused above its limit or below 0.
pub fn move_figure(sign: u8, value: u64, old: u64) -> Result<u64, Refusal>
    ensures { moved_said result ≡ moved_by sign value old }
{
    if sign == 0 {
        if FIGURE_LIMIT < value {
            return Err(Refusal::AboveLimit);
        }
        if FIGURE_LIMIT - value < old {
            return Err(Refusal::AboveLimit);
        }
        return Ok(old + value);
    }
    if old < value {
        return Err(Refusal::BelowZero);
    }
    Ok(old - value)
}
