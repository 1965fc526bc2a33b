// The state of the core, without the board: what the vector decides, and what events change.
use crate::channels::Channels;
use crate::log::Log;
use config::{Config, Turn};
use machine::clock::Clock;
use machine::partition::Partition;

/// What the vector decides and what events change: the plan position, whose turn it is, whether the system is halted, the
/// partitions, the messages and the log.
#[derive(Drop)]
pub struct Core {
    pub(crate) config: Config,
    pub(crate) clock: Clock,
    pub(crate) turn: Turn,
    pub(crate) halted: bool,
    pub(crate) parts: [Partition; 8],
    pub(crate) channels: Channels,
    pub(crate) log: Log,
}
