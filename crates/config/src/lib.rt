//! What a booted system never changes: the vector's tables, and what is worked out of them once. The core asks it who manages whom,
//! whose port is which, who is in whose circle, and whose turn it is.
#![tactic(auto)]

ghost use Rattle.std.specs.Prelude.{◌≡◌};
ghost use Rattle.tables.specs.Fair.{Fair};
ghost use Rattle.tables.specs.Laws.{SlotsInPlace};
ghost use Rattle.tables.specs.Sound.{Sound};
ghost use Rattle.config.specs.Index.{Indexed};
ghost use Rattle.config.specs.Slotless.{Gapped};

mod below;
mod circle;
mod index;
mod masks;
mod partitions;
mod ports;
mod slotless;
mod turn;

pub use below::{Below, ChannelNumber, Guest};
use index::Index;
pub use masks::{is_member, take_lowest};
use slotless::all_slotless;
use tables::{Offset, Tables};
pub use turn::Turn;

/// The configuration: the vector's tables, an index of their ports, and the microseconds of each plan's frame that no slot has.
#[derive(Drop)]
pub struct Config {
    pub tables: Tables,
    index: Index,
    slotless: [Offset; 4],
    ghost sound: { Sound tables },
    ghost fair: { Fair tables },
    ghost slots: { SlotsInPlace tables },
    ghost indexed: { Indexed tables index },
    ghost gapped: { Gapped tables.plans slotless },
}

impl Config {
    /// The configuration of tables that are known to keep what those of every taken vector keep.
    // A boot has the facts from the checked vector: no test here could give them.
    // Run once: out of line, so that no event's code is laid out around it.
    #[inline(never)]
    pub fn new(tables: Tables) -> Config
        requires sound { Sound tables }
        requires fair { Fair tables }
        requires slots { SlotsInPlace tables }
        ensures { result.tables ≡ tables }
    {
        let index = Index::of(&tables);
        let slotless = all_slotless(&tables.plans);
        Config {
            tables,
            index,
            slotless,
        }
    }
}
