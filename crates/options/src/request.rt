// The checks of a request before the store is asked: its name, its mode, its options.
ghost use Rattle.std.specs.Prelude.{◌≡◌};
ghost use Rattle.options.specs.Request.{Judges};

use crate::offer::{Offer, answer_pairs};
use grammar::message::Request;
use grammar::mode::Mode;
use terms::name::Name;
use terms::patience::Patience;
use terms::refusal::Refusal;

// What the cabin makes of a request: refused in this order are a name that is not legal, a mode that is not served, and options.
pub fn judge_request(request: Request<'_>, own: Patience) -> Result<Offer, Refusal>
    ensures { Judges request.entry.name.now request.entry.mode.now request.entry.pairs.now own result }
{
    Name::new(request.name)?;
    Mode::read(request.mode)?;
    answer_pairs(request.pairs, own)
}
