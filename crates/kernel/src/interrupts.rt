// The calls on interrupts, and the signals of lines.
ghost use Rattle.std.specs.Prelude.{◌≡◌, ℕ, ◌^◌, ◌<◌, ◌≤◌, if◌then◌else◌};
ghost use Rattle.machine.specs.declared.answer.Answer.TheVariants.{Done, Words};
ghost use Rattle.machine.specs.Shapes.{Shaped};
ghost use Rattle.machine.specs.Partitions.{signalled};
ghost use Rattle.machine.specs.Interrupts.{raised, raise_ipvi, get_irqs, set_irq_mask, clear_irq_mask, clear_irq_pending};
ghost use Rattle.kernel.specs.Events.{Does, Signals};

use crate::system::System;
use board::Board;
use config::{Below, Guest, is_member};
use machine::answer::{Answer, Outcome, Refusal};
use machine::event::Args;
use machine::partition::Partition;

/// Signals bits to a partition, where it is named.
fn hit(partition: &mut Partition, named: bool, bits: u32)
    ensures { partition.new ≡ (if named then signalled bits partition.old else partition.old) }
{
    if named {
        partition.signal(bits);
    }
}

/// Signals bits to each partition that the mask names.
fn raise(parts: &mut [Partition; 8], mask: u8, bits: u32)
    ensures { parts.new ≡ raised mask bits 8 parts.old }
{
    for (i, partition) in parts.iter_mut().enumerate() {
        hit(partition, is_member(mask, Guest::new(i as u8)), bits);
    }
}

impl<B: Board> System<B> {
    pub(crate) fn raise_ipvi(&mut self, q: Guest, args: Args) -> Outcome
        ensures is { Does B.areas raise_ipvi q args self.old result self.new }
        ensures shaped { Shaped Done result }
    {
        let number = args[0];
        if number > 7 {
            return Err(Refusal::InvalidParam);
        }
        let mask = self.core.config.mask_of(q, Below::new(number as u8));
        if mask == 0 {
            return Err(Refusal::NoAction);
        }
        raise(&mut self.core.parts, mask, 1 << number);
        Ok(Answer::Done)
    }

    pub(crate) fn get_irqs(&mut self, q: Guest, args: Args) -> Outcome
        ensures is { Does B.areas get_irqs q args self.old result self.new }
        ensures shaped { Shaped (Words 0 0) result }
    {
        let Partition { pending, mask, .. } = self.core.parts[q.index()];
        Ok(Answer::Words { pending, mask })
    }

    // the three calls below are one line each, with a method of their own
    pub(crate) fn set_irq_mask(&mut self, q: Guest, args: Args) -> Outcome
        ensures is { Does B.areas set_irq_mask q args self.old result self.new }
        ensures shaped { Shaped Done result }
    {
        self.core.parts[q.index()].mask(args[0]);
        Ok(Answer::Done)
    }

    pub(crate) fn clear_irq_mask(&mut self, q: Guest, args: Args) -> Outcome
        ensures is { Does B.areas clear_irq_mask q args self.old result self.new }
        ensures shaped { Shaped Done result }
    {
        self.core.parts[q.index()].unmask(args[0]);
        Ok(Answer::Done)
    }

    pub(crate) fn clear_irq_pending(&mut self, q: Guest, args: Args) -> Outcome
        ensures is { Does B.areas clear_irq_pending q args self.old result self.new }
        ensures shaped { Shaped Done result }
    {
        self.core.parts[q.index()].acknowledge(args[0]);
        Ok(Answer::Done)
    }

    /// A line signals its own bit to its owner.
    pub(crate) fn line(&mut self, line: u8) -> Outcome
        ensures is { Signals B.areas line self.old result self.new }
        ensures shaped { Shaped Done result }
    {
        if line > 15 {
            return Err(Refusal::InvalidParam);
        }
        let owner = self.core.config.owner_of(Below::new(line));
        let q = owner.ok_or(Refusal::NoAction)?;
        self.core.parts[q.index()].signal(1 << (16 + line));
        Ok(Answer::Done)
    }
}
