// The system: a board, and the core whose clock stands in the frame of a plan and whose turn is right there; and what each event
// does to it.
ghost use Rattle.clock.specs.Timely.{Timely};
ghost use Rattle.config.specs.Turns.{Current};

use crate::channels::Channels;
use crate::inner::Core;
use crate::log::Log;
use board::Board;
use clock::pass;
use config::{Config, Guest};
use machine::answer::{Answer, Outcome, Refusal};
use machine::clock::{Clock, FARTHEST, Time};
use machine::event::{Args, Event, Hypercall};
use machine::partition::Partition;
use tables::ChannelKind;
use vector::checked::Checked;

/// A booted core on its board. Events change it, by `event` alone.
#[derive(Drop)]
pub struct System<B> {
    pub(crate) board: B,
    pub(crate) core: Core,
    ghost timely: { Timely core.config.tables.plans core.clock },
    ghost turned: { Current core.config.tables.plans core.clock core.turn },
}

impl<B: Board> System<B> {
    // The definitions that name the system itself: at the top of the file the struct would import them, and they it.
    ghost use Rattle.std.specs.Prelude.{◌≡◌, ◌-◌, ◌<◌, ◌≤◌, IfSome};
    ghost use Rattle.board.specs.Areas.{loaded};
    ghost use Rattle.tables.specs.Laws.{Kept};
    ghost use Rattle.vector.specs.Reading.{tables as tables_of};
    ghost use Rattle.machine.specs.Answers.{reply_of};
    ghost use Rattle.machine.specs.declared.answer.Answer.TheVariants.{Done, Byte};
    ghost use Rattle.machine.specs.Shapes.{Shaped, ShapedOrOutside, CallShaped, call_shape, Suits};
    ghost use Rattle.machine.specs.Laws.{Steady};
    ghost use Rattle.machine.specs.Partitions.{bit};
    ghost use Rattle.machine.specs.Circle.{Circle};
    ghost use Rattle.machine.specs.Calls.{call_of, called};
    ghost use Rattle.machine.specs.Calls.{perform as perform_of};
    ghost use Rattle.config.specs.Circles.{circle_mask};
    ghost use Rattle.kernel.specs.Events.{Does, Loads, Passes, Stores, Ticks};
    ghost use Rattle.kernel.specs.Promises.{Apart, Lasting, Planned, Unmoved};
    ghost use Rattle.kernel.specs.World.{world_of, gives, stepped, booted};

    /// Boots a checked vector on a board; on one that does not fit the system is halted.
    pub fn boot(vector: Checked, board: B) -> System<B>
        ensures is { world_of B.areas result ≡ booted (tables_of vector.entry.bytes.now) (B.areas board) }
        ensures kept { Kept (tables_of vector.entry.bytes.now) }
        ensures steady { Steady (tables_of vector.entry.bytes.now) (world_of B.areas result).state.core }
    {
        let config = Config::new(vector.tables());
        let halted = !config.fits(&board);
        let turn = config.turn(0, 0, 0);
        System {
            board,
            core: Core {
                config,
                clock: Clock {
                    time: 0,
                    plan: 0,
                    next: 0,
                    start: 0,
                },
                turn,
                halted,
                parts: [Partition::new(); 8],
                channels: Channels::new(),
                log: Log::new(),
            },
        }
    }

    fn load(&mut self, q: Guest, offset: u32) -> Outcome
        ensures is { Loads B.areas q offset self.old result self.new }
        ensures shaped { ShapedOrOutside (Byte 0) result }
    {
        let Some(byte) = self.board.load(q.index(), offset as usize) else {
            self.stray(q);
            return Ok(Answer::Outside);
        };
        Ok(Answer::Byte(byte))
    }

    fn store(&mut self, q: Guest, offset: u32, byte: u8) -> Outcome
        ensures is { Stores B.areas q offset byte self.old result self.new }
        ensures shaped { ShapedOrOutside Done result }
    {
        let Some(()) = self.board.store(q.index(), offset as usize, byte) else {
            self.stray(q);
            return Ok(Answer::Outside);
        };
        Ok(Answer::Done)
    }

    /// Goes on to the time t within the turn: only the time moves.
    fn stay(&mut self, t: Time)
        requires ahead { self.old.core.clock.time ≤ t }
        requires within { t - self.old.core.clock.start < self.old.core.turn.until }
        ensures { Passes B.areas t self.old self.new }
    {
        self.core.clock.time = t;
    }

    /// Goes on past the end of the turn to the time t, and finds the turn there.
    fn pass(&mut self, t: Time)
        requires ahead { self.old.core.clock.time ≤ t }
        ensures { Passes B.areas t self.old self.new }
    {
        let begun = self.core.clock.start;
        let config = &self.core.config;
        pass(
            &config.tables.plans,
            &mut self.core.clock,
            &mut self.core.parts,
            t,
        );
        let clock = self.core.clock;
        let first = if clock.start == begun {
            self.core.turn.slot
        } else {
            0
        };
        self.core.turn = self
            .core
            .config
            .turn(clock.plan, first, clock.time - clock.start);
    }

    /// Goes on to the time t, which is not before now and not too far ahead.
    fn tick(&mut self, t: Time) -> Outcome
        ensures is { Ticks B.areas t self.old result self.new }
        ensures shaped { Shaped Done result }
    {
        let time = self.core.clock.time;
        if t < time || t - time > FARTHEST {
            return Err(Refusal::OpNotAllowed);
        }
        if t - self.core.clock.start < self.core.turn.until {
            self.stay(t);
        } else {
            self.pass(t);
        }
        Ok(Answer::Done)
    }

    // Each call takes the caller and its five words, as the machine's calls do: nothing is known of the pair that a
    // struct would keep. The match stays: a table of functions could not be handed out, and would hide the names.
    fn perform(&mut self, call: Hypercall, q: Guest, args: Args) -> Outcome
        ensures is { Does B.areas (perform_of call) q args self.old result self.new }
        ensures shaped { Shaped (call_shape call) result }
    {
        match call {
            Hypercall::GetTime => self.get_time(q, args),
            Hypercall::GetPartitionStatus => self.get_partition_status(q, args),
            Hypercall::HaltPartition => self.halt_partition(q, args),
            Hypercall::SuspendPartition => self.suspend_partition(q, args),
            Hypercall::ResumePartition => self.resume_partition(q, args),
            Hypercall::ResetPartition => self.reset_partition(q, args),
            Hypercall::IdleSelf => self.idle_self(q, args),
            Hypercall::SwitchPlan => self.switch_plan(q, args),
            Hypercall::GetPlanStatus => self.get_plan_status(q, args),
            Hypercall::CreateSamplingPort => self.create(ChannelKind::Sampling, q, args),
            Hypercall::WriteSamplingMessage => self.write_sampling_message(q, args),
            Hypercall::ReadSamplingMessage => self.read_sampling_message(q, args),
            Hypercall::CreateQueuingPort => self.create(ChannelKind::Queuing, q, args),
            Hypercall::SendQueuingMessage => self.send_queuing_message(q, args),
            Hypercall::ReceiveQueuingMessage => self.receive_queuing_message(q, args),
            Hypercall::GetQueuingStatus => self.get_queuing_status(q, args),
            Hypercall::RaiseIpvi => self.raise_ipvi(q, args),
            Hypercall::GetIrqs => self.get_irqs(q, args),
            Hypercall::SetIrqMask => self.set_irq_mask(q, args),
            Hypercall::ClearIrqMask => self.clear_irq_mask(q, args),
            Hypercall::ClearIrqPending => self.clear_irq_pending(q, args),
            Hypercall::RaisePartitionError => self.raise_partition_error(q, args),
            Hypercall::ReadLog => self.read_log(q, args),
            Hypercall::ResetSystem => self.reset_system(q, args),
            Hypercall::HaltSystem => self.halt_system(q, args),
        }
    }

    fn call(&mut self, q: Guest, number: u8, args: Args) -> Outcome
        ensures is { Does B.areas (called number) q args self.old result self.new }
        ensures shaped { CallShaped (call_of number) result }
    {
        self.perform(Hypercall::try_from(number)?, q, args)
    }

    // What is promised on top of the equation follows from it, once: `handle` leaves in a dozen places.
    /// Takes one event. A refusal moves nothing, plans switch only where a frame ends or the system is reset, and an event of one
    /// partition leaves every other area as it was, save a system partition's cold reset.
    pub fn event(&mut self, e: Event) -> Outcome
        ensures is { gives (world_of B.areas self.new) (reply_of result) ≡ stepped e (world_of B.areas self.old) }
        ensures suited { Suits e result }
        ensures unmoved { Unmoved (reply_of result) (world_of B.areas self.old) (world_of B.areas self.new) }
        ensures planned { Planned e (world_of B.areas self.old) (world_of B.areas self.new) }
        ensures lasting { Lasting (world_of B.areas self.old) (world_of B.areas self.new) }
        ensures apart { Apart self.old.core.config.tables e (B.areas self.old.board) (B.areas self.new.board) }
    {
        self.handle(e)
    }

    /// The circle of a partition as a mask, or none where the vector has no such partition.
    pub fn circle(&self, partition: u8) -> Option<u8>
        ensures is { result ≡ circle_mask self.now.core.config.tables partition }
        ensures least { IfSome result (λ m. Circle self.now.core.config.tables partition (bit m)) }
    {
        self.core.config.circle(partition)
    }

    /// The byte at a place of a partition's area, for who looks at the board when the events are over; none outside the area.
    pub fn byte(&self, partition: u8, offset: usize) -> Option<u8>
        ensures { result ≡ loaded (B.areas self.now.board) partition offset }
    {
        self.board.load(usize::from(partition), offset)
    }

    /// Decides what an event does.
    fn handle(&mut self, e: Event) -> Outcome
        ensures is { gives (world_of B.areas self.new) (reply_of result) ≡ stepped e (world_of B.areas self.old) }
        ensures shaped { Suits e result }
    {
        if self.core.halted {
            return Err(Refusal::SystemHalted);
        }
        match e {
            Event::Tick { time } => self.tick(time),
            Event::Call {
                partition,
                number,
                args,
            } => {
                let q = self.running(partition)?;
                self.call(q, number, args)
            }
            Event::Load { partition, offset } => {
                let q = self.running(partition)?;
                self.load(q, offset)
            }
            Event::Store {
                partition,
                byte,
                offset,
            } => {
                let q = self.running(partition)?;
                self.store(q, offset, byte)
            }
            Event::Fault { partition, event } => {
                let q = self.running(partition)?;
                self.fault(q, event)
            }
            Event::Line { line } => self.line(line),
            Event::SystemFault { event } => self.system_fault(event),
        }
    }
}
