// The health monitor: what the fault table decides, a token that must be spent.
ghost use Rattle.std.specs.Prelude.{◌≡◌};
ghost use Rattle.kernel.specs.Decisions.{decided};

use config::Config;
use tables::{Event as FaultEvent, Response};

/// A decision of the health monitor. It is not `Drop`: whoever has one must carry it out, even one to ignore.
pub struct Decision {
    pub(crate) event: FaultEvent,
    pub(crate) response: Response,
}

/// What the fault table says at an event of a partition, or of the system.
pub(crate) fn decide(config: &Config, event: FaultEvent) -> Decision
    ensures { result ≡ decided config.now.tables event }
{
    Decision {
        event,
        response: config.response(event),
    }
}
