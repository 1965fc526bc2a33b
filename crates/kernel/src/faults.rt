// The health monitor at work: faults, the log, and the calls on the system.
ghost use Rattle.std.specs.Prelude.{◌≡◌, ◌<◌};
ghost use Rattle.machine.specs.declared.answer.Answer.TheVariants.{Done, Logged, Responded};
ghost use Rattle.tables.specs.declared.response.Action.TheVariants.{Ignore};
ghost use Rattle.machine.specs.Shapes.{entry0, Shaped};
ghost use Rattle.machine.specs.Faults.{restarted};
ghost use Rattle.machine.specs.Monitor.{raise_partition_error, read_log, reset_system, halt_system};
ghost use Rattle.kernel.specs.Decisions.{CarriesOut};
ghost use Rattle.kernel.specs.Events.{Acts, ActsOnSystem, Becomes, Does, Faults, Notes, Strays, SystemFaults};
ghost use Rattle.kernel.specs.World.{core_of};

use crate::areas::wipe_all;
use crate::monitor::{Decision, decide};
use crate::system::System;
use board::Board;
use config::Guest;
use machine::answer::{Answer, Outcome, Refusal};
use machine::clock::Clock;
use machine::event::{Args, ResetMode};
use machine::log::Entry;
use machine::partition::Partition;
use tables::{Action, Event as FaultEvent, Response, Scope};

/// The bit that signals a fault.
const FAULT: u32 = 1 << 9;

// Fault events stay numbers: each is the row of its response.
/// The event of a load or store outside the area.
const MEM_PROTECTION: u8 = 6;

/// The event that a guest raises itself.
const PARTITION_ERROR: u8 = 7;

/// A fault event of a guest.
fn of_guest(q: Guest, number: u8) -> FaultEvent
    requires { number < 8 }
    ensures scope { result.scope ≡ Scope.Partition q }
    ensures number { result.number ≡ number }
{
    FaultEvent {
        scope: Scope::Partition(q.number()),
        number,
    }
}

impl<B: Board> System<B> {
    /// The entry of a fault event, where the response asks for one.
    fn note(&mut self, event: FaultEvent, response: Response)
        ensures { Notes B.areas event.scope event.number response self.old self.new }
    {
        if response.log {
            self.core.log.note(Entry {
                action: response.action,
                scope: event.scope,
                event: event.number,
                time: self.core.clock.time,
            });
        }
    }

    /// What an action does to a partition.
    fn act(&mut self, action: Action, q: Guest)
        ensures { Acts B.areas action q self.old self.new }
    {
        let i = q.index();
        match action {
            Action::Ignore => {}
            Action::Signal => self.core.parts[i].signal(FAULT),
            Action::Suspend => self.core.parts[i].suspend(),
            Action::Halt => self.core.parts[i].halt(),
            Action::WarmReset => self.core.parts[i].reset(),
            Action::ColdReset => {
                self.core.parts[i].reset();
                self.board.wipe(i);
            }
        }
    }

    /// A frame of plan 0 begins now, with every partition reset.
    fn restart(&mut self)
        ensures { Becomes B.areas (restarted (core_of self.old.core)) self.old self.new }
    {
        self.core.clock = Clock {
            plan: 0,
            next: 0,
            start: self.core.clock.time,
            ..self.core.clock
        };
        self.core.turn = self.core.config.turn(0, 0, 0);
        self.core.parts = [Partition::new(); 8];
        self.core.channels.clear();
    }

    /// What an action does to the system.
    fn act_whole(&mut self, action: Action)
        ensures { ActsOnSystem B.areas action self.old self.new }
    {
        match action {
            Action::Ignore | Action::Signal | Action::Suspend => {}
            Action::Halt => self.core.halted = true,
            Action::WarmReset => self.restart(),
            Action::ColdReset => {
                self.restart();
                self.core.log.clear();
                wipe_all(&mut self.board, self.core.config.tables.partitions.count);
            }
        }
    }

    /// Carries a decision out: the log entry first, then the action.
    // In line: the decision then needs no place in memory.
    #[inline(always)]
    fn carry_out(&mut self, decision: Decision) -> Answer
        ensures answered { result ≡ Responded decision.response.action }
        ensures is { CarriesOut B.areas decision self.old result self.new }
    {
        let Decision { event, response } = decision;
        self.note(event, response);
        match event.scope {
            Scope::Partition(q) => self.act(response.action, Guest::new(q)),
            Scope::System => self.act_whole(response.action),
        }
        Answer::Responded(response.action)
    }

    /// A load or store outside the area is a fault of its guest.
    // Out of line: right guests do not stray, and loads and stores stay short.
    #[inline(never)]
    pub(crate) fn stray(&mut self, q: Guest)
        ensures { Strays B.areas q self.old self.new }
    {
        let decision = decide(&self.core.config, of_guest(q, MEM_PROTECTION));
        let _ = self.carry_out(decision);
    }

    pub(crate) fn fault(&mut self, q: Guest, event: u8) -> Outcome
        ensures is { Faults B.areas q event self.old result self.new }
        ensures shaped { Shaped (Responded Ignore) result }
    {
        if event > 6 {
            return Err(Refusal::InvalidParam);
        }
        let decision = decide(&self.core.config, of_guest(q, event));
        Ok(self.carry_out(decision))
    }

    pub(crate) fn system_fault(&mut self, event: u8) -> Outcome
        ensures is { SystemFaults B.areas event self.old result self.new }
        ensures shaped { Shaped (Responded Ignore) result }
    {
        if event < 8 || event > 11 {
            return Err(Refusal::InvalidParam);
        }
        let decision = decide(
            &self.core.config,
            FaultEvent {
                scope: Scope::System,
                number: event,
            },
        );
        Ok(self.carry_out(decision))
    }

    pub(crate) fn raise_partition_error(&mut self, q: Guest, args: Args) -> Outcome
        ensures is { Does B.areas raise_partition_error q args self.old result self.new }
        ensures shaped { Shaped (Responded Ignore) result }
    {
        let decision = decide(&self.core.config, of_guest(q, PARTITION_ERROR));
        Ok(self.carry_out(decision))
    }

    pub(crate) fn read_log(&mut self, q: Guest, args: Args) -> Outcome
        ensures is { Does B.areas read_log q args self.old result self.new }
        ensures shaped { Shaped (Logged 0 entry0) result }
    {
        self.only_system(q)?;
        let entry = self.core.log.take().ok_or(Refusal::NotAvailable)?;
        Ok(Answer::Logged {
            left: self.core.log.count(),
            entry,
        })
    }

    pub(crate) fn reset_system(&mut self, q: Guest, args: Args) -> Outcome
        ensures is { Does B.areas reset_system q args self.old result self.new }
        ensures shaped { Shaped Done result }
    {
        let mode = ResetMode::try_from(args[0])?;
        self.only_system(q)?;
        self.restart();
        if mode == ResetMode::Cold {
            self.core.log.clear();
            wipe_all(&mut self.board, self.core.config.tables.partitions.count);
        }
        Ok(Answer::Done)
    }

    pub(crate) fn halt_system(&mut self, q: Guest, args: Args) -> Outcome
        ensures is { Does B.areas halt_system q args self.old result self.new }
        ensures shaped { Shaped Done result }
    {
        self.only_system(q)?;
        self.core.halted = true;
        Ok(Answer::Done)
    }
}
