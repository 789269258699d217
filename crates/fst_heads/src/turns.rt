//! Going through the list of a block, or a part of it, from both ends by turns. The changes that a call looks for mostly
//! stand near its ends: they are the oldest, or the newest, or some of each with many that wait between. A call that knows
//! how many there are stops where it has found them, and has then looked at no more than twice as many as it had to.

ghost use Rattle.std.specs.Prelude.{◌≡◌, ◌∷◌, ◌++◌, [], true, false, IfSome, IfNone};

use crate::lists::Listed;

/// The first or the last of what is left of the list, and what is left then.
pub fn next_in_turn(rest: &[Listed], from_back: bool) -> Option<(Listed, &[Listed])>
    ensures none { IfNone result (rest.now ≡ []) }
    ensures front { from_back ≡ false → IfSome result (λ r. rest.now ≡ r.0 ∷ r.1.now) }
    ensures back { from_back ≡ true → IfSome result (λ r. rest.now ≡ r.1.now ++ r.0 ∷ []) }
{
    let (listed, others) = if from_back {
        rest.split_last()?
    } else {
        rest.split_first()?
    };
    Some((*listed, others))
}
