// Whose slot runs, kept from one edge of a slot to the next, so that neither a guest's event nor a tick in between looks at the slots.
ghost use Rattle.std.specs.Prelude.{◌≡◌, ℕ, ◌<◌};
ghost use Rattle.tables.specs.Fair.{Within};
ghost use Rattle.machine.specs.Searches.{Apart, Held};
ghost use Rattle.machine.specs.Questions.{plan as plan_of};
ghost use Rattle.machine.specs.Questions.{slots_of};
ghost use Rattle.tables.specs.Sound.{SoundPlan};
ghost use Rattle.config.specs.Turns.{Past, no_turn, Turned, turn_at, turn_of};

use crate::Config;
use crate::below::Guest;
use tables::{Offset, Plan};

/// The partition whose slot runs, the offset of the frame before which no slot starts or ends any more, and the number of the
/// first slot that has not ended: time goes on, so the next turn is looked for from there.
#[derive(Clone, Copy)]
pub struct Turn {
    pub holder: Option<Guest>,
    pub until: Offset,
    pub slot: usize,
}

impl Config {
    /// The turn at an offset of a plan's frame; the slots before `slot` have ended by then. Any slot that runs
    /// there gives its holder, since slots do not overlap. Past the last plan it is nobody's.
    // Only the caller knows which slots have ended: it kept the last turn. To ask for that turn would say no more.
    #[tactic(auto, using(crate::proofs::Turning::turned, machine::proofs::Slots::held))]
    pub fn turn(&self, plan: u8, slot: usize, offset: Offset) -> Turn
        requires { Past (slots_of (plan_of self.now.tables plan)) offset slot }
        ensures is { result ≡ turn_at self.now.tables plan offset }
        ensures turned { plan < self.now.tables.plans.count → Turned (plan_of self.now.tables plan) offset result }
        ensures held { Held (plan_of self.now.tables plan) offset }
    {
        let number = usize::from(plan);
        if number >= self.tables.plans.count {
            return no_turn();
        }
        find(&self.tables.plans.rows[number], slot, offset)
    }
}

/// Nobody's turn, which changes at once.
// Out of line: no caller has the number of such a plan, and where a turn is found the results need not meet.
#[inline(never)]
fn no_turn() -> Turn
    ensures { result ≡ no_turn }
{
    Turn {
        holder: None,
        until: 0,
        slot: 0,
    }
}

/// The turn at an offset of the plan's frame: the slots are in order, so the first one that has not ended tells.
fn find(plan: &Plan, first: usize, offset: Offset) -> Turn
    requires sound { SoundPlan plan.now }
    requires within { Within plan.now }
    requires apart { Apart plan.now }
    requires past { Past (slots_of plan.now) offset first }
    ensures { result ≡ turn_of plan.now offset }
{
    let slots = &plan.slots.rows[..plan.slots.count];
    // by number, since the number is a part of the turn
    for i in first..slots.len() {
        let slot = &slots[i];
        let end = slot.start + slot.duration;
        if offset < end {
            if offset < slot.start {
                return Turn {
                    holder: None,
                    until: slot.start,
                    slot: i,
                };
            }
            return Turn {
                holder: Some(Guest::new(slot.partition)),
                until: end,
                slot: i,
            };
        }
    }
    Turn {
        holder: None,
        until: plan.frame,
        slot: slots.len(),
    }
}
