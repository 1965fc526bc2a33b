//! The reader of a vector's records, one after another, and of a vector to its end.
ghost use Rattle.std.specs.Prelude.{◌+◌, ◌^◌, ◌<◌, length};
ghost use Rattle.vector.specs.Rooms.{Promised, Counted, Ported};

use crate::bodies::hear;
use crate::framed::split;
use crate::record::Record;
use crate::refusal::Refusal;
use crate::sofar::Sofar;

/// A record, and the place of its first byte.
#[derive(Clone, Copy)]
pub struct Shown<'a> {
    pub at: usize,
    pub record: Record<'a>,
}

/// The records of a vector, one after another: what was said so far, the place of the next record, and the bytes
/// that are left.
#[derive(Drop)]
pub struct Records<'a> {
    pub(crate) at: usize,
    pub(crate) sofar: Sofar,
    pub(crate) rest: &'a [u8],
    ghost promised: { Promised sofar },
    ghost counted: { Counted sofar },
    ghost ported: { Ported sofar.tables },
    ghost small: { at + length rest.now < 2 ^ 64 },
}

impl<'a> Records<'a> {
    ghost use Rattle.std.specs.Prelude.{◌≡◌};
    ghost use Rattle.vector.specs.Laws.{RecordsWritten};
    ghost use Rattle.vector.specs.Out.{out};
    ghost use Rattle.vector.specs.Points.{point_of, shown_of, next, shown, moved, remaining};
    ghost use Rattle.vector.specs.Reasons.{reason};
    ghost use Rattle.vector.specs.Sofars.{nothing};

    /// The records of a vector, none read yet; what is shown of each gives back its bytes.
    #[tactic(auto, using(crate::proofs::Written::records_written))]
    pub fn of(bytes: &'a [u8]) -> Records<'a>
        ensures start { point_of result ≡ record { at = 0; sofar = nothing; rest = bytes.now } }
        ensures written { RecordsWritten }
    {
        Records {
            at: 0,
            sofar: Sofar::new(),
            rest: bytes,
        }
    }

    /// The next record, or none at the end, or the refusal of the next record, which stays where it is.
    pub fn next_record(&mut self) -> Result<Option<Shown<'a>>, Refusal>
        ensures answer { out reason shown_of result ≡ shown (next (point_of self.old)) }
        ensures after { point_of self.new ≡ moved (point_of self.old) (next (point_of self.old)) }
    {
        let at = self.at;
        if self.rest.is_empty() {
            self.sofar.finish(at)?;
            return Ok(None);
        }
        let cut = split(self.rest, at)?;
        let said = hear(cut.kind, cut.body, &self.sofar, at)?;
        self.sofar.join(said, at)?;
        self.at = at + 4 + cut.body.len();
        self.rest = cut.rest;
        Ok(Some(Shown { at, record: said }))
    }

    /// Reads the records that are left, or gives the first refusal.
    pub(crate) fn read_all(&mut self) -> Result<(), Refusal>
        ensures { out reason (λ _. self.new.sofar) result ≡ remaining (point_of self.old) }
    {
        while let Some(_) = self.next_record()? {}
        Ok(())
    }
}
