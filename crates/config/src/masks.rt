// Masks: whether one has a bit, and the bits one at a time from either end. Those are in line, since a loop over a mask is short.
ghost use Rattle.std.specs.Prelude.{◌≡◌, MatchOption};
ghost use Rattle.machine.specs.Partitions.{bit};
ghost use Rattle.config.specs.Masks.{Lowest, Highest};

use crate::below::Guest;

/// Whether the mask has the partition.
pub fn is_member(mask: u8, q: Guest) -> bool
    ensures { result ≡ bit mask q }
{
    mask & (1 << q.number()) != 0
}

/// Takes the lowest bit out of a mask, and gives its number; none of 0.
#[tactic(auto, using(crate::proofs::Masking::lowest))]
#[inline(always)]
pub fn take_lowest(mask: &mut u32) -> Option<u8>
    ensures { MatchOption result (mask.old ≡ 0) (λ i. Lowest mask.old mask.new i) }
{
    let word = *mask;
    if word == 0 {
        return None;
    }
    let i = word.trailing_zeros();
    *mask = word & !(1 << i);
    Some(i as u8)
}

/// Takes the highest bit out of a mask, and gives its number; none of 0.
#[tactic(auto, using(crate::proofs::Masking::highest))]
#[inline(always)]
pub(crate) fn take_highest(mask: &mut u32) -> Option<u8>
    ensures { MatchOption result (mask.old ≡ 0) (λ i. Highest mask.old mask.new i) }
{
    let word = *mask;
    if word == 0 {
        return None;
    }
    let i = 31 - word.leading_zeros();
    *mask = word & !(1 << i);
    Some(i as u8)
}
