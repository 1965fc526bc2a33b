//! Why a vector is refused: a fault of its frame, of a field, or of the relation of a record to those before it. Each carries its
//! place, and has a number.
ghost use Rattle.std.specs.Prelude.{◌≡◌};
ghost use Rattle.vector.specs.Reasons.{reason};
ghost use Rattle.vector.specs.declared.refusal.Refusal.TheVariants.{Frame, Field, Relation};

/// A record cannot be cut off the bytes, or does not belong where it stands; `at` is its place.
#[derive(Clone, Copy, Debug, PartialEq, Eq)]
pub enum FrameFault {
    /// A record passes the end of the vector.
    PastEnd { at: usize },
    UnknownKind { at: usize },
    /// The body's length is wrong for the kind.
    WrongLength { at: usize },
    OutOfTurn { at: usize },
    /// The vector ends while more is owed.
    Owed { at: usize },
}

/// A field is out of its range; `at` is the place of its first byte.
#[derive(Clone, Copy, Debug, PartialEq, Eq)]
pub enum FieldFault {
    OutOfRange { at: usize },
}

/// A record does not go with those before it; `at` is the place of its first byte.
#[derive(Clone, Copy, Debug, PartialEq, Eq)]
pub enum RelationFault {
    TooMany { at: usize },
    Repeated { at: usize },
    /// A slot begins before the end of the last one, or ends after its frame.
    Misplaced { at: usize },
}

/// Why a vector is refused, by the layer that found it.
// Three types and not one reason with a place: each layer passes its own faults up whole, by `?`.
#[derive(Clone, Copy, Debug, PartialEq, Eq)]
pub enum Refusal {
    Frame(FrameFault),
    Field(FieldFault),
    Relation(RelationFault),
}

/// The layers of the check, in the order in which a record passes them.
#[derive(Clone, Copy, Debug, PartialEq, Eq)]
pub enum Layer {
    Frame,
    Field,
    Relation,
}

impl From<FrameFault> for Refusal {
    ghost from_gives = { λ f r. r ≡ Frame f };

    fn from(fault: FrameFault) -> Refusal {
        Refusal::Frame(fault)
    }
}

impl From<FieldFault> for Refusal {
    ghost from_gives = { λ f r. r ≡ Field f };

    fn from(fault: FieldFault) -> Refusal {
        Refusal::Field(fault)
    }
}

impl From<RelationFault> for Refusal {
    ghost from_gives = { λ f r. r ≡ Relation f };

    fn from(fault: RelationFault) -> Refusal {
        Refusal::Relation(fault)
    }
}

impl Refusal {
    // C reads refusals by these numbers.
    /// The number of the refusal: 12 to 16 of the frame, 21 of a field, 31 to 33 of a relation.
    pub fn number(&self) -> u32
        ensures { result ≡ (reason self.now).number }
    {
        match self {
            Refusal::Frame(FrameFault::PastEnd { .. }) => 12,
            Refusal::Frame(FrameFault::UnknownKind { .. }) => 13,
            Refusal::Frame(FrameFault::WrongLength { .. }) => 14,
            Refusal::Frame(FrameFault::OutOfTurn { .. }) => 15,
            Refusal::Frame(FrameFault::Owed { .. }) => 16,
            Refusal::Field(FieldFault::OutOfRange { .. }) => 21,
            Refusal::Relation(RelationFault::TooMany { .. }) => 31,
            Refusal::Relation(RelationFault::Repeated { .. }) => 32,
            Refusal::Relation(RelationFault::Misplaced { .. }) => 33,
        }
    }

    /// The layer that found the fault.
    pub fn layer(&self) -> Layer
        ensures { result ≡ (reason self.now).layer }
    {
        match self {
            Refusal::Frame(_) => Layer::Frame,
            Refusal::Field(_) => Layer::Field,
            Refusal::Relation(_) => Layer::Relation,
        }
    }

    /// The place of the field for a fault of a field, the vector's length for what is owed, the record's first byte else.
    pub fn place(&self) -> usize
        ensures { result ≡ (reason self.now).place }
    {
        match *self {
            Refusal::Frame(
                FrameFault::PastEnd { at }
                | FrameFault::UnknownKind { at }
                | FrameFault::WrongLength { at }
                | FrameFault::OutOfTurn { at }
                | FrameFault::Owed { at },
            ) => at,
            Refusal::Field(FieldFault::OutOfRange { at }) => at,
            Refusal::Relation(
                RelationFault::TooMany { at }
                | RelationFault::Repeated { at }
                | RelationFault::Misplaced { at },
            ) => at,
        }
    }
}
