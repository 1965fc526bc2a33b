//! The name of a partition or a port.
ghost use Rattle.std.specs.Prelude.{◌≡◌, ◌≤◌, length};
ghost use Rattle.tables.specs.Names.{padded};
ghost use Rattle.tables.specs.Rows.{no_name};

// Memory is fixed, so a name lies in its row, and is no String.
/// A name of 1 to 16 bytes; the bytes past its length are 0. Names that differ only in zeros at their ends differ in
/// length.
#[derive(Clone, Copy, Debug, PartialEq, Eq)]
pub struct Name {
    pub length: usize,
    pub bytes: [u8; 16],
}

impl Name {
    pub(crate) fn none() -> Name
        ensures { result ≡ no_name }
    {
        Name {
            length: 0,
            bytes: [0; 16],
        }
    }

    /// The name with these bytes, and zeros behind them.
    pub fn of(text: &[u8]) -> Name
        requires { length text.now ≤ 16 }
        ensures { result ≡ padded text.now }
    {
        let mut bytes = [0; 16];
        bytes[..text.len()].copy_from_slice(text);
        Name {
            length: text.len(),
            bytes,
        }
    }
}
