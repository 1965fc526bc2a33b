// Why a session ends before its records do.
ghost use Rattle.std.specs.Prelude.{◌≡◌};
ghost use Rattle.entrance.specs.declared.error.EntranceError.TheVariants.{Vector};

use vector::refusal::Refusal;

#[derive(Clone, Copy, Debug, PartialEq, Eq)]
pub enum EntranceError {
    Vector(Refusal),
    /// A record is cut, of no kind, or of a wrong length.
    Malformed,
    /// A record is left, and the answers have no room for another.
    NoRoom,
}

impl From<Refusal> for EntranceError {
    ghost from_gives = { λ refusal r. r ≡ Vector refusal };

    fn from(refusal: Refusal) -> EntranceError {
        EntranceError::Vector(refusal)
    }
}
