//! The reader of configuration vectors.
#![tactic(auto)]

ghost use Rattle.std.specs.Prelude.{◌≡◌};
ghost use Rattle.vector.specs.Config.{TakenIsValid};
ghost use Rattle.vector.specs.Laws.{RecordsWritten};
ghost use Rattle.vector.specs.Out.{out};
ghost use Rattle.vector.specs.Reasons.{reason};
ghost use Rattle.vector.specs.Reading.{verdict, verdict_of};

use crate::reader::Records;
use crate::refusal::Refusal;

pub(crate) mod bodies;
pub mod checked;
pub(crate) mod fields;
pub(crate) mod framed;
pub(crate) mod given;
pub mod kind;
pub mod reader;
pub mod record;
pub mod refusal;
pub(crate) mod relations;
pub(crate) mod sofar;

/// Whether the bytes are a vector that is taken: it is if and only if it is the vector of a valid configuration. What is shown of
/// a vector's records gives back its bytes.
#[tactic(auto, using(crate::proofs::Reached::taken_is_valid, crate::proofs::Written::records_written))]
pub fn check(bytes: &[u8]) -> Result<(), Refusal>
    ensures answer { verdict_of (out reason (λ u. u) result) ≡ verdict bytes.now }
    ensures exact { TakenIsValid }
    ensures written { RecordsWritten }
{
    Records::of(bytes).read_all()
}
