// What can be sent to a booted system.
ghost use Rattle.std.specs.Prelude.{◌≡◌};
ghost use Rattle.machine.specs.Calls.{call_of};
ghost use Rattle.machine.specs.Management.{mode_of};

use crate::answer::{Outcome, Refusal};
use crate::clock::Time;

/// The five arguments of a call; a call leaves its spare ones unread.
pub type Args = [u32; 5];

/// An event: one of seven sorts, each with its own numbers.
#[derive(Clone, Copy, Debug, PartialEq, Eq)]
pub enum Event {
    Tick {
        time: Time,
    },
    Call {
        partition: u8,
        number: u8,
        args: Args,
    },
    Load {
        partition: u8,
        offset: u32,
    },
    // The byte comes before the offset, so that in memory it shares a place with no word of a call.
    Store {
        partition: u8,
        byte: u8,
        offset: u32,
    },
    Fault {
        partition: u8,
        event: u8,
    },
    Line {
        line: u8,
    },
    SystemFault {
        event: u8,
    },
}

/// How a partition or the system is reset: a cold reset wipes areas too.
#[derive(Clone, Copy, Debug, PartialEq, Eq)]
pub enum ResetMode {
    Warm,
    Cold,
}

/// The mode of a number.
impl TryFrom<u32> for ResetMode {
    type Error = Refusal;

    ghost try_from_gives = { λ number r. r ≡ mode_of number };

    fn try_from(number: u32) -> Result<ResetMode, Refusal> {
        match number {
            0 => Ok(ResetMode::Warm),
            1 => Ok(ResetMode::Cold),
            _ => Err(Refusal::InvalidParam),
        }
    }
}

/// The calls, by their numbers from 0.
#[derive(Clone, Copy, Debug, PartialEq, Eq)]
pub enum Hypercall {
    GetTime,
    GetPartitionStatus,
    HaltPartition,
    SuspendPartition,
    ResumePartition,
    ResetPartition,
    IdleSelf,
    SwitchPlan,
    GetPlanStatus,
    CreateSamplingPort,
    WriteSamplingMessage,
    ReadSamplingMessage,
    CreateQueuingPort,
    SendQueuingMessage,
    ReceiveQueuingMessage,
    GetQueuingStatus,
    RaiseIpvi,
    GetIrqs,
    SetIrqMask,
    ClearIrqMask,
    ClearIrqPending,
    RaisePartitionError,
    ReadLog,
    ResetSystem,
    HaltSystem,
}

/// The call of a number.
impl TryFrom<u8> for Hypercall {
    type Error = Refusal;

    ghost try_from_gives = { λ number r. r ≡ call_of number };

    fn try_from(number: u8) -> Result<Hypercall, Refusal> {
        match number {
            0 => Ok(Hypercall::GetTime),
            1 => Ok(Hypercall::GetPartitionStatus),
            2 => Ok(Hypercall::HaltPartition),
            3 => Ok(Hypercall::SuspendPartition),
            4 => Ok(Hypercall::ResumePartition),
            5 => Ok(Hypercall::ResetPartition),
            6 => Ok(Hypercall::IdleSelf),
            7 => Ok(Hypercall::SwitchPlan),
            8 => Ok(Hypercall::GetPlanStatus),
            9 => Ok(Hypercall::CreateSamplingPort),
            10 => Ok(Hypercall::WriteSamplingMessage),
            11 => Ok(Hypercall::ReadSamplingMessage),
            12 => Ok(Hypercall::CreateQueuingPort),
            13 => Ok(Hypercall::SendQueuingMessage),
            14 => Ok(Hypercall::ReceiveQueuingMessage),
            15 => Ok(Hypercall::GetQueuingStatus),
            16 => Ok(Hypercall::RaiseIpvi),
            17 => Ok(Hypercall::GetIrqs),
            18 => Ok(Hypercall::SetIrqMask),
            19 => Ok(Hypercall::ClearIrqMask),
            20 => Ok(Hypercall::ClearIrqPending),
            21 => Ok(Hypercall::RaisePartitionError),
            22 => Ok(Hypercall::ReadLog),
            23 => Ok(Hypercall::ResetSystem),
            24 => Ok(Hypercall::HaltSystem),
            _ => Err(Refusal::UnknownHypercall),
        }
    }
}

/// A line of a history: an event, and what it came to.
#[derive(Clone, Copy, Debug, PartialEq, Eq)]
pub struct Exchange {
    pub event: Event,
    pub answer: Outcome,
}
