// The text of an outcome, and of a vector's refusal.
ghost use Rattle.std.specs.Prelude.{Some};
ghost use Rattle.script.specs.Lines.{text, refused_text};

use machine::answer::{Outcome, Reply};
use std::fmt;
use vector::refusal::Refusal;

/// An outcome as a line shows it: its code and its two values.
#[derive(Clone, Copy)]
pub struct Line(pub Outcome);

impl fmt::Display for Line {
    ghost output = { λ x. Some (text x) };

    fn fmt<W: fmt::Write>(&self, f: &mut fmt::Formatter<W>) -> fmt::Result {
        let Reply { code, a, b } = Reply::from(self.0);
        write!(f, "{code} {a} {b}")
    }
}

/// A vector's refusal as a line shows it: its number and its place.
#[derive(Clone, Copy)]
pub struct Refused(pub Refusal);

impl fmt::Display for Refused {
    ghost output = { λ x. Some (refused_text x) };

    fn fmt<W: fmt::Write>(&self, f: &mut fmt::Formatter<W>) -> fmt::Result {
        write!(f, "refused {} {}", self.0.number(), self.0.place())
    }
}
