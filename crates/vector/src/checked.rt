// A vector that was checked: the value that gives the tables, once.
ghost use Rattle.std.specs.Prelude.{◌≡◌, true};
ghost use Rattle.vector.specs.Reading.{takes, tables as tables_of};
ghost use Rattle.tables.specs.Sound.{Sound};
ghost use Rattle.tables.specs.Fair.{Fair};
ghost use Rattle.tables.specs.Laws.{AreasSized, Lawful};

use crate::reader::Records;
use tables::Tables;

/// Bytes that are known to be taken, and their tables. It can be neither copied nor let go: `tables` spends it.
pub struct Checked<'a> {
    pub(crate) bytes: &'a [u8],
    tables: Tables,
    ghost ok: { takes bytes.now ≡ true },
    ghost read: { tables ≡ tables_of bytes.now },
}

impl<'a> Checked<'a> {
    /// There is no refusal here: whoever calls this has checked the bytes.
    pub fn new(bytes: &'a [u8]) -> Checked<'a>
        requires { takes bytes.now ≡ true }
        ensures { result.bytes.now ≡ bytes.now }
    {
        let mut records = Records::of(bytes);
        match records.read_all() {
            Ok(()) => Checked {
                bytes,
                tables: records.sofar.tables,
            },
            Err(_) => unreachable(),
        }
    }

    /// The tables, for a look.
    pub fn shown(&self) -> &Tables
        ensures value { result.now ≡ tables_of self.now.bytes.now }
        ensures sound { Sound result.now }
        ensures lawful { Lawful result.now }
        ensures areas { AreasSized result.now }
        ensures fair { Fair result.now }
    {
        &self.tables
    }

    /// The tables that the bytes give, and what is true of those of every vector that is taken: all that the core knows of a
    /// vector. It spends the value.
    pub fn tables(self) -> Tables
        ensures value { result ≡ tables_of self.entry.bytes.now }
        ensures sound { Sound result }
        ensures lawful { Lawful result }
        ensures areas { AreasSized result }
        ensures fair { Fair result }
    {
        let Checked { bytes: _, tables } = self;
        tables
    }
}
