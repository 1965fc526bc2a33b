// The calls on time, partitions and plans.
ghost use Rattle.std.specs.Prelude.{◌≡◌, ℕ, ◌<◌, ◌≤◌};
ghost use Rattle.machine.specs.declared.answer.Answer.TheVariants.{Done, Time, State, Plans};
ghost use Rattle.machine.specs.declared.partition.Status.TheVariants.{Ready};
ghost use Rattle.machine.specs.Shapes.{Shaped};
ghost use Rattle.machine.specs.Management.{get_time, get_partition_status, halt_partition, suspend_partition, resume_partition, reset_partition, idle_self, switch_plan, get_plan_status};
ghost use Rattle.kernel.specs.Events.{Does};

use crate::system::System;
use board::Board;
use config::Guest;
use machine::answer::{Answer, Outcome, Refusal};
use machine::event::{Args, ResetMode};
use tables::Offset;

impl<B: Board> System<B> {
    pub(crate) fn get_time(&mut self, q: Guest, args: Args) -> Outcome
        ensures is { Does B.areas get_time q args self.old result self.new }
        ensures shaped { Shaped (Time 0) result }
    {
        Ok(Answer::Time(self.core.clock.time))
    }

    pub(crate) fn get_partition_status(&mut self, q: Guest, args: Args) -> Outcome
        ensures is { Does B.areas get_partition_status q args self.old result self.new }
        ensures shaped { Shaped (State Ready) result }
    {
        let target = self.target(q, args[0])?;
        Ok(Answer::State(self.core.parts[target.index()].status))
    }

    pub(crate) fn halt_partition(&mut self, q: Guest, args: Args) -> Outcome
        ensures is { Does B.areas halt_partition q args self.old result self.new }
        ensures shaped { Shaped Done result }
    {
        let target = self.target(q, args[0])?;
        self.core.parts[target.index()].halt();
        Ok(Answer::Done)
    }

    pub(crate) fn suspend_partition(&mut self, q: Guest, args: Args) -> Outcome
        ensures is { Does B.areas suspend_partition q args self.old result self.new }
        ensures shaped { Shaped Done result }
    {
        let target = self.target(q, args[0])?;
        let status = self.core.parts[target.index()].status;
        if !status.is_active() {
            return Err(Refusal::NoAction);
        }
        self.core.parts[target.index()].suspend();
        Ok(Answer::Done)
    }

    pub(crate) fn resume_partition(&mut self, q: Guest, args: Args) -> Outcome
        ensures is { Does B.areas resume_partition q args self.old result self.new }
        ensures shaped { Shaped Done result }
    {
        let target = self.target(q, args[0])?;
        let status = self.core.parts[target.index()].status;
        if !status.is_suspended() {
            return Err(Refusal::NoAction);
        }
        self.core.parts[target.index()].resume();
        Ok(Answer::Done)
    }

    pub(crate) fn reset_partition(&mut self, q: Guest, args: Args) -> Outcome
        ensures is { Does B.areas reset_partition q args self.old result self.new }
        ensures shaped { Shaped Done result }
    {
        let mode = ResetMode::try_from(args[1])?;
        let target = self.target(q, args[0])?;
        self.core.parts[target.index()].reset();
        if mode == ResetMode::Cold {
            self.board.wipe(target.index());
        }
        Ok(Answer::Done)
    }

    pub(crate) fn idle_self(&mut self, q: Guest, args: Args) -> Outcome
        ensures is { Does B.areas idle_self q args self.old result self.new }
        ensures shaped { Shaped Done result }
    {
        self.core.parts[q.index()].idle();
        Ok(Answer::Done)
    }

    pub(crate) fn switch_plan(&mut self, q: Guest, args: Args) -> Outcome
        ensures is { Does B.areas switch_plan q args self.old result self.new }
        ensures shaped { Shaped Done result }
    {
        let plan = args[0];
        if plan as usize >= self.core.config.tables.plans.count {
            return Err(Refusal::InvalidParam);
        }
        self.only_system(q)?;
        self.core.clock.next = plan as u8;
        Ok(Answer::Done)
    }

    pub(crate) fn get_plan_status(&mut self, q: Guest, args: Args) -> Outcome
        ensures is { Does B.areas get_plan_status q args self.old result self.new }
        ensures shaped { Shaped (Plans 0 0 0) result }
    {
        Ok(Answer::Plans {
            plan: self.core.clock.plan,
            next: self.core.clock.next,
            slotless: self.core.config.slotless(self.core.clock.plan),
        })
    }
}
