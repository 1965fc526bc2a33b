//! Time: a tick at a stroke, whatever the microseconds that it passes.
#![tactic(auto)]

ghost use Rattle.std.specs.Prelude.{◌≡◌, ◌-◌, ◌<◌, ◌≤◌};
ghost use Rattle.std.specs.List.{list_any};
ghost use Rattle.tables.specs.Sound.{SoundPlan, SoundPlans};
ghost use Rattle.machine.specs.Questions.{slots_of};
ghost use Rattle.machine.specs.Time.{plan_at, timed, micros};
ghost use Rattle.clock.specs.Ranges.{sleeps, wake, upto};
ghost use Rattle.clock.specs.Timely.{Timely};

use machine::clock::{Clock, Time};
use machine::partition::Partition;
use std::ops::Range;
use tables::{Offset, Plan, Plans};

// Plans, clock and partitions are three loans of one call: a struct of them would only be taken apart again below, and so
// are the facts on them that the three functions ask for. The core meets these from its invariant.
/// Goes on to the time t at a stroke: what t - now microseconds come to, at a cost that does not grow with them.
pub fn pass(plans: &Plans, clock: &mut Clock, parts: &mut [Partition; 8], t: Time)
    requires plans { SoundPlans plans.now }
    requires timely { Timely plans.now clock.old }
    requires ahead { clock.old.time ≤ t }
    ensures timely { Timely plans.now clock.new }
    ensures is { timed clock.new parts.new ≡ micros plans.now (t - clock.old.time) (timed clock.old parts.old) }
{
    if t - clock.start < plans.rows[clock.plan as usize].frame {
        pass_within(plans, clock, parts, t);
    } else {
        pass_over(plans, clock, parts, t);
    }
}

/// Goes on to a time within the present frame.
fn pass_within(plans: &Plans, clock: &mut Clock, parts: &mut [Partition; 8], t: Time)
    requires plans { SoundPlans plans.now }
    requires timely { Timely plans.now clock.old }
    requires ahead { clock.old.time ≤ t }
    requires within { t - clock.old.start < (plan_at plans.now clock.old.plan).frame }
    ensures timely { Timely plans.now clock.new }
    ensures is { timed clock.new parts.new ≡ micros plans.now (t - clock.old.time) (timed clock.old parts.old) }
{
    // who is due at the present offset has been woken when it came
    let plan = &plans.rows[clock.plan as usize];
    let offset = clock.time - clock.start;
    wake(plan, parts, offset + 1..t - clock.start + 1);
    clock.time = t;
}

/// Goes on to a time at or past the end of the present frame: the rest of this frame, and then frames of the next plan, of
/// which the second and later ones wake no one new.
fn pass_over(plans: &Plans, clock: &mut Clock, parts: &mut [Partition; 8], t: Time)
    requires plans { SoundPlans plans.now }
    requires timely { Timely plans.now clock.old }
    requires ahead { clock.old.time ≤ t }
    requires over { (plan_at plans.now clock.old.plan).frame ≤ t - clock.old.start }
    ensures timely { Timely plans.now clock.new }
    ensures is { timed clock.new parts.new ≡ micros plans.now (t - clock.old.time) (timed clock.old parts.old) }
{
    let plan = &plans.rows[clock.plan as usize];
    let next = &plans.rows[clock.next as usize];
    let rest = t - clock.start - plan.frame;
    let offset = clock.time - clock.start;
    let early = 0..upto(rest, next.frame);
    wake_both(plan, offset + 1..plan.frame, next, early, parts);
    *clock = Clock {
        time: t,
        plan: clock.next,
        next: clock.next,
        start: t - rest % next.frame,
    };
}

/// Whether a partition is idle.
fn has_sleeper(parts: &[Partition; 8]) -> bool
    ensures { result ≡ list_any sleeps parts.now }
{
    parts.iter().any(|partition| partition.status.is_idle())
}

/// Wakes each idle partition that has a slot starting at one of the offsets; where none is idle, no slot is looked at, since
/// its start changes nobody.
#[tactic(auto, using(crate::proofs::Waking::wake_awake))]
fn wake(plan: &Plan, parts: &mut [Partition; 8], offsets: Range<Offset>)
    requires { SoundPlan plan.now }
    ensures { parts.new ≡ wake (slots_of plan.now) offsets.start offsets.end parts.old }
{
    if has_sleeper(parts) {
        wake_each(plan, parts, offsets);
    }
}

/// Wakes who is due in a plan, and then who is due in the next one; it asks for sleepers once, since none falls asleep between.
#[tactic(auto, using(crate::proofs::Waking::both_awake))]
fn wake_both(
    plan: &Plan,
    late: Range<Offset>,
    next: &Plan,
    early: Range<Offset>,
    parts: &mut [Partition; 8],
)
    requires plan { SoundPlan plan.now }
    requires next { SoundPlan next.now }
    ensures { parts.new ≡ wake (slots_of next.now) early.start early.end
        (wake (slots_of plan.now) late.start late.end parts.old) }
{
    if has_sleeper(parts) {
        wake_each(plan, parts, late);
        wake_each(next, parts, early);
    }
}

/// Looks at each slot, and starts it where it starts at one of the offsets.
fn wake_each(plan: &Plan, parts: &mut [Partition; 8], offsets: Range<Offset>)
    requires { SoundPlan plan.now }
    ensures { parts.new ≡ wake (slots_of plan.now) offsets.start offsets.end parts.old }
{
    for slot in plan.slots.as_slice() {
        if offsets.contains(&slot.start) {
            parts[slot.partition as usize].start_slot();
        }
    }
}

/// The offsets below this one have come, rest microseconds after a frame began: after a whole frame, all of them.
fn upto(rest: Time, frame: Offset) -> Offset
    ensures { result ≡ upto rest frame }
{
    if rest < frame { rest + 1 } else { frame }
}
