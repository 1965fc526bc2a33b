// The gaps of the plans' frames, added up once for each plan.
ghost use Rattle.std.specs.Prelude.{◌≡◌};
ghost use Rattle.tables.specs.Fair.{AllWithin, Within};
ghost use Rattle.tables.specs.Sound.{SoundPlan, SoundPlans};
ghost use Rattle.machine.specs.Management.{gaps};
ghost use Rattle.machine.specs.Questions.{slots_of};
ghost use Rattle.config.specs.Slotless.{Gapped, slotless_of};

use crate::Config;
use tables::{Offset, Plan, Plans};

impl Config {
    /// The microseconds that no slot has in the frame of the plan of a number; 0 past the last plan.
    pub fn slotless(&self, plan: u8) -> Offset
        ensures { result ≡ slotless_of self.now.tables plan }
    {
        self.slotless.get(usize::from(plan)).copied().unwrap_or(0)
    }
}

/// The sums of all plans; those past the last one are 0.
pub(crate) fn all_slotless(plans: &Plans) -> [Offset; 4]
    requires sound { SoundPlans plans.now }
    requires within { AllWithin plans.now }
    ensures { Gapped plans.now result }
{
    let mut sums = [0; 4];
    for (i, plan) in plans.as_slice().iter().enumerate() {
        sums[i] = gaps_of(plan);
    }
    sums
}

/// The microseconds of the plan's frame that no slot has, gap by gap.
fn gaps_of(plan: &Plan) -> Offset
    requires sound { SoundPlan plan.now }
    requires within { Within plan.now }
    ensures { result ≡ gaps 0 (slots_of plan.now) plan.now.frame }
{
    let mut end: Offset = 0;
    let mut sum: Offset = 0;
    for slot in plan.slots.as_slice() {
        sum += slot.start.saturating_sub(end);
        end = slot.start + slot.duration;
    }
    sum + plan.frame.saturating_sub(end)
}
