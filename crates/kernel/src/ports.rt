// The calls that open ports.
ghost use Rattle.std.specs.Prelude.{◌≡◌, ℕ, ◌+◌, ◌<◌, ◌≤◌, ◌&&◌, IfSome, length};
ghost use Rattle.machine.specs.declared.answer.Answer.TheVariants.{Port};
ghost use Rattle.machine.specs.Shapes.{Shaped};
ghost use Rattle.machine.specs.Ports.{agrees, deepens};
ghost use Rattle.machine.specs.Ports.{create as create_of};
ghost use Rattle.board.specs.Areas.{area};
ghost use Rattle.kernel.specs.Events.{Does};
ghost use Rattle.kernel.specs.Targets.{named_in};

use crate::copies::{is_ranged, load_name};
use crate::system::System;
use board::Board;
use config::{Config, Guest};
use machine::answer::{Answer, Outcome, Refusal};
use machine::event::Args;
use tables::ChannelKind;

/// Whether the longest message, the direction and, on a queuing channel, the depth are the vector's.
fn is_agreeing(config: &Config, i: u8, kind: ChannelKind, args: &Args) -> bool
    requires { i < config.now.tables.ports.count }
    ensures { result ≡ (agrees config.now.tables i args.now && deepens config.now.tables i kind args.now) }
{
    let port = &config.tables.ports.rows[i as usize];
    let channel = &config.tables.channels.rows[port.channel as usize];
    if args[2] != u32::from(channel.longest) || args[3] != u32::from(u8::from(port.direction)) {
        return false;
    }
    // the kinds ask different things: no comparison would say it
    match kind {
        ChannelKind::Sampling => true,
        ChannelKind::Queuing => args[4] == u32::from(channel.depth),
    }
}

impl<B: Board> System<B> {
    /// The port of q that has this type and the name of n bytes in a range of its area.
    // Out of line: the name is put together in memory.
    #[inline(never)]
    fn find_named(&self, q: Guest, kind: ChannelKind, at: u32, n: u32) -> Option<u8>
        requires short { n ≤ 16 }
        requires inside { at + n ≤ length (area (B.areas self.now.board) q) }
        ensures is { result ≡ named_in B.areas kind self.now q at n }
        ensures there { IfSome result (λ i. i < self.now.core.config.tables.ports.count) }
    {
        let name = load_name(&self.board, q.index(), at, n);
        self.core.config.find_port(q.number(), kind, &name)
    }

    /// Opens the port of q that has this type and the name in a range of its area.
    // In line, where its outcome goes on: handed over by its address, the outcome of every call would stay in memory.
    #[inline(always)]
    pub(crate) fn create(&mut self, kind: ChannelKind, q: Guest, args: Args) -> Outcome
        ensures is { Does B.areas (create_of kind) q args self.old result self.new }
        ensures shaped { Shaped (Port 0) result }
    {
        // the direction stays a number: it is only compared with the port's own
        if !is_ranged(&self.board, q.index(), args[0], args[1]) || args[1] > 16 || args[3] > 1 {
            return Err(Refusal::InvalidParam);
        }
        let i = self
            .find_named(q, kind, args[0], args[1])
            .ok_or(Refusal::InvalidParam)?;
        if !is_agreeing(&self.core.config, i, kind, &args) {
            return Err(Refusal::InvalidConfig);
        }
        if self.is_open(q, i) {
            return Err(Refusal::NoAction);
        }
        self.core.parts[q.index()].open(i);
        Ok(Answer::Port(i))
    }
}
