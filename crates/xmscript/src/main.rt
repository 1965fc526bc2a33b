//! Runs a script on each board, and prints what each event is answered; asked by the word `areas`, also the bytes of the areas
//! at the end.
#![tactic(auto)]

ghost use Rattle.std.specs.Prelude.{◌≡◌, ◌≤◌, true, OnOk};
ghost use Rattle.std.specs.List.{list_any};
ghost use Rattle.vector.specs.Reading.{takes, tables as tables_of};
ghost use Rattle.machine.specs.Runs.{lines_of, events_of};
ghost use Rattle.zero_boards.specs.Layouts.{zeroed};
ghost use Rattle.xmscript.specs.Words.{areas_of, is_areas, wanted_of};
ghost use Rattle.xmscript.specs.Areas.{area_bytes, area_line, area_lines};
ghost use Rattle.xmscript.specs.Boards.{answer_lines, told, board_text, boards_text};
ghost use Rattle.xmscript.specs.Output.{Replies};
ghost use Rattle.xmscript.specs.Printing.{Prints};

use board::Board;
use kernel::{System, run};
use machine::event::Exchange;
use script::error::ScriptError;
use script::line::{Line, Refused};
use script::read_script;
use std::alloc::Global;
use std::io::{BufWriter, Read, Write};
use std::{env, io};
use tables::Tables;
use vector::check;
use vector::checked::Checked;
use zero_boards::{fenced, paged};

/// No area is larger.
const LARGEST: usize = 1024;

/// Is one of the words `areas`?
fn ask_areas(words: &[String]) -> bool
    ensures { result ≡ list_any is_areas words.now }
{
    words.iter().any(|word| word.as_str() == "areas")
}

/// What the program is asked to print.
#[derive(Clone, Copy)]
enum Wanted {
    Answers,
    Areas,
}

impl Wanted {
    /// The areas are wanted where one of the words is `areas`.
    fn of(words: &[String]) -> Wanted
        ensures { result ≡ wanted_of words.now }
    {
        if ask_areas(words) {
            Wanted::Areas
        } else {
            Wanted::Answers
        }
    }

    // The bound is the one that every taken vector keeps; the tables are plain values, so it is asked where it is needed.
    /// How many areas are printed.
    fn areas(self, tables: &Tables) -> u8
        requires { tables.now.partitions.count ≤ 8 }
        ensures { result ≡ areas_of self tables.now }
    {
        match self {
            Wanted::Answers => 0,
            Wanted::Areas => tables.partitions.count as u8,
        }
    }
}

/// Prints the bytes of a partition's area.
fn show_bytes<B: Board, W: Write>(system: &System<B>, i: u8, writer: &mut W) -> io::Result<()>
    ensures { Prints W.contents writer.old writer.new result (area_bytes (B.areas system.now.board) i) }
{
    for at in 0..LARGEST {
        let Some(byte) = system.byte(i, at) else {
            return Ok(());
        };
        write!(writer, "{byte:02x}")?;
    }
    Ok(())
}

/// Prints the line of a partition's area.
fn show_area<B: Board, W: Write>(system: &System<B>, i: u8, writer: &mut W) -> io::Result<()>
    ensures { Prints W.contents writer.old writer.new result (area_line (B.areas system.now.board) i) }
{
    write!(writer, "area {i} ")?;
    show_bytes(system, i, writer)?;
    writer.writeln("")
}

/// Prints the areas of the first `shown` partitions.
fn show_areas<B: Board, W: Write>(system: &System<B>, shown: u8, writer: &mut W) -> io::Result<()>
    ensures { Prints W.contents writer.old writer.new result (area_lines (B.areas system.now.board) shown) }
{
    // an area is shown and headed by its number, so the range is the iterator
    for i in 0..shown {
        show_area(system, i, writer)?;
    }
    Ok(())
}

/// Prints what each event was answered.
fn show_answers<W: Write>(history: &[Exchange], writer: &mut W) -> io::Result<()>
    ensures { Prints W.contents writer.old writer.new result (answer_lines (lines_of history.now)) }
{
    for exchange in history {
        writer.writeln(Line(exchange.answer))?;
    }
    Ok(())
}

/// Boots the vector on a board, takes the history, and prints the board's heading, each answer, and the areas of the first
/// `shown` partitions. The history has the machine's answers afterwards, also where a print fails.
fn play<B: Board + Drop, W: Write>(
    heading: &str,
    vector: Checked,
    board: B,
    history: &mut [Exchange],
    shown: u8,
    writer: &mut W,
) -> io::Result<()>
    ensures answered { lines_of history.new ≡ told vector.entry.bytes.now (B.areas board) (events_of history.old) }
    ensures printed { Prints W.contents writer.old writer.new result
        (board_text heading.now (tables_of vector.entry.bytes.now) (B.areas board) (events_of history.old) shown) }
{
    let system = run(vector, board, history);
    writer.writeln(heading)?;
    show_answers(history, writer)?;
    show_areas(&system, shown, writer)
}

// A boot spends a `Checked` and there are two boots, so that the bytes are taken is asked here.
/// Plays a history on the fenced and on the paged board. Their areas are the same, and so are the answers.
fn play_each<W: Write>(
    bytes: &[u8],
    history: &mut [Exchange],
    wanted: Wanted,
    writer: &mut W,
) -> io::Result<()>
    requires { takes bytes.now ≡ true }
    ensures answered { lines_of history.new ≡ told bytes.now (zeroed (tables_of bytes.now)) (events_of history.old) }
    ensures printed { Prints W.contents writer.old writer.new result
        (boards_text (tables_of bytes.now) (events_of history.old) wanted) }
{
    let vector = Checked::new(bytes);
    let shown = wanted.areas(vector.shown());
    let board = fenced(vector.shown());
    play("fenced", vector, board, history, shown, writer)?;
    let vector = Checked::new(bytes);
    let board = paged(vector.shown());
    play("paged", vector, board, history, shown, writer)
}

/// Reads a script, and prints what it is answered and nothing else.
fn play_script<R: Read, W: Write>(
    alloc: Global,
    wanted: Wanted,
    reader: &mut R,
    writer: &mut W,
) -> anyhow::Result<()>
    ensures { OnOk result (Replies (R.remaining reader.old) wanted (W.contents writer.old) (W.contents writer.new)) }
{
    let mut input = Vec::new(alloc);
    reader.read_to_end(&mut input)?;
    let mut script = match read_script(alloc, input.as_slice()) {
        Ok(script) => script,
        Err(error @ ScriptError::Malformed) => {
            writer.writeln(error)?;
            return Ok(());
        }
        Err(error @ ScriptError::OutOfMemory) => return Err(error.into()),
    };
    match check(script.vector) {
        Ok(()) => play_each(script.vector, script.history.as_mut_slice(), wanted, writer)?,
        Err(refusal) => writer.writeln(Refused(refusal))?,
    }
    Ok(())
}

// No contract can say what the command line and the streams give and take, so this opens them and no more. The first word is the
// program's name.
fn main(rt: HostRuntime) -> anyhow::Result<()> {
    let words: Vec<String> = env::args(&rt)?.skip(1).collect(rt.alloc())?;
    let wanted = Wanted::of(words.as_slice());
    let mut output = BufWriter::new(rt.alloc(), io::writer(&rt))?;
    play_script(rt.alloc(), wanted, &mut rt.stdin(), &mut output)?;
    output.flush()?;
    Ok(())
}
