//! How a run of the program ends.

ghost use Rattle.std.specs.Prelude.{◌≡◌, ◌≤◌, ◌+◌, ◌++◌, ◌↔◌, Some, length, IsAscii, IsTrue};
ghost use Rattle.std.specs.Prelude.{decimal};
ghost use Rattle.run_ends.specs.Status.{code_of, end_line, file_status, fault_kind_text};
ghost use Rattle.run_ends.specs.Status.{located, script_line, text_of};

use cdma_io::FileFault;
use cell_script::ScriptFault;
use chip_core::OutOfMemory;
use line_text::Text;
use std::{fmt, str};

/// How a run ended.
///
/// A failed read is [`Status::ReadFault`]; [`Status::BadFile`] concerns only the file's bytes. Out
/// of memory for a script is [`Status::NoMemory`]; [`Status::BadScript`] concerns only its bytes.
///
/// Its text is the line that the program writes on standard error, without the line feed:
/// `no sync message`, `bad words`, `bad file: KIND at PLACE` with the fault's place in decimal,
/// `read fault`, `write fault`, `out of memory` or `bad script: FAULT`, with the fault's text. That
/// of [`Status::Done`] is empty.
#[derive(Clone, Copy, PartialEq, Eq, Debug)]
pub enum Status {
    /// The input was read to its end, and all text was written.
    Done,
    /// The input was read to its end, and it contains no sync message.
    NoSync,
    /// The arguments of the command line aren't a command.
    BadWords,
    /// The input isn't a sample file, or it has too few samples.
    BadFile(FileFault),
    /// A read of the input failed.
    ReadFault,
    /// A write of the output failed.
    WriteFault,
    /// Memory ran out before anything was written.
    NoMemory,
    /// The input isn't the script of a cell that can be sent.
    BadScript(ScriptFault),
}

impl Status {
    /// Whether the run is done.
    pub fn is_done(&self) -> bool
        ensures { IsTrue result ↔ (self.now ≡ Status.Done) }
    {
        matches!(self, Status::Done)
    }

    /// Returns the text of the status.
    pub fn text(&self) -> Text
        ensures value { result ≡ text_of self.now }
        ensures most { length result ≤ 64 }
    {
        match *self {
            Status::Done => Text::empty(),
            Status::NoSync => piece("no sync message"),
            Status::BadWords => piece("bad words"),
            Status::BadFile(fault) => located(kind(fault), fault.place()),
            Status::ReadFault => piece("read fault"),
            Status::WriteFault => piece("write fault"),
            Status::NoMemory => piece("out of memory"),
            Status::BadScript(fault) => script_text(fault),
        }
    }

    /// Returns the line for standard error; empty if the run is done.
    pub fn line(&self) -> Text
        ensures { result ≡ end_line self.now }
    {
        match self {
            Status::Done => Text::empty(),
            _ => {
                let mut line = self.text();
                line.append_str("\n");
                line
            }
        }
    }

    /// Returns the exit status of the process: 0 if the run is done.
    pub fn code(&self) -> u8
        ensures { result ≡ code_of self.now }
    {
        match self {
            Status::Done => 0,
            Status::NoSync => 1,
            Status::BadWords => 2,
            Status::BadFile(_) => 3,
            Status::ReadFault => 4,
            Status::WriteFault => 5,
            Status::NoMemory => 6,
            Status::BadScript(_) => 8,
        }
    }
}

impl fmt::Display for Status {
    ghost output = { λ status. Some (text_of status) };

    fn fmt<W: fmt::Write>(&self, f: &mut fmt::Formatter<W>) -> fmt::Result {
        let text = self.text();
        match str::from_utf8(text.bytes()) {
            Ok(text) => f.write_str(text),
            Err(_) => Err(fmt::Error),
        }
    }
}

// Returns the kind of a fault of the file.
fn kind(fault: FileFault) -> &'static str
    ensures value { result.now ≡ fault_kind_text fault }
    ensures ascii { IsAscii result.now }
    ensures most { length result.now ≤ 10 }
{
    match fault {
        FileFault::Magic => "magic",
        FileFault::Version => "version",
        FileFault::Flags => "flags",
        FileFault::Count => "count",
        FileFault::Short { .. } => "short",
        FileFault::Extra { .. } => "extra",
        FileFault::ReadFault => "read fault",
        FileFault::TooFew { .. } => "too few",
    }
}

// Returns the text of this piece.
fn piece(piece: &str) -> Text
    requires ascii { IsAscii piece.now }
    requires room { length piece.now ≤ 1024 }
    ensures { result ≡ piece.now }
{
    let mut text = Text::empty();
    text.append_str(piece);
    text
}

// Returns the text of these two pieces.
fn joined(front: &str, back: &str) -> Text
    requires ascii { IsAscii front.now }
    requires ascii_back { IsAscii back.now }
    requires room { length front.now + length back.now ≤ 1024 }
    ensures { result ≡ front.now ++ back.now }
{
    let mut text = piece(front);
    text.append_str(back);
    text
}

// Returns the text of this piece and a number in decimal.
fn numbered(piece: &str, number: u64) -> Text
    requires ascii { IsAscii piece.now }
    requires room { length piece.now ≤ 44 }
    ensures value { result ≡ piece.now ++ decimal number }
    ensures most { length result ≤ 64 }
{
    let mut text = Text::empty();
    text.append_named(piece, number);
    text
}

// Returns the text of a kind of fault, with its place if it has one.
fn located(kind: &str, place: Option<u64>) -> Text
    requires ascii { IsAscii kind.now }
    requires short { length kind.now ≤ 10 }
    ensures value { result ≡ located kind.now place }
    ensures most { length result ≤ 64 }
{
    let mut text = joined("bad file: ", kind);
    if let Some(place) = place {
        text.append_named(" at ", place);
    }
    text
}

// Returns the text of the fault of a script.
fn script_text(fault: ScriptFault) -> Text
    ensures value { result ≡ script_line fault }
    ensures most { length result ≤ 64 }
{
    match fault {
        ScriptFault::Line { n } => numbered("bad script: line ", u64::from(n)),
        ScriptFault::Walsh { row } => numbered("bad script: walsh ", u64::from(row)),
        ScriptFault::Gain { row } => numbered("bad script: gain ", u64::from(row)),
        ScriptFault::TooLoud { sum } => numbered("bad script: too loud ", sum),
        ScriptFault::TooLong { n } => numbered("bad script: too long ", n),
        ScriptFault::OutOfMemory => joined("bad script: ", "out of memory"),
        ScriptFault::TooBig => joined("bad script: ", "too big"),
    }
}

impl From<OutOfMemory> for Status {
    ghost use Rattle.std.specs.Prelude.{◌≡◌};
    ghost use Rattle.run_ends.specs.declared.status.Status.TheVariants.{NoMemory};

    ghost from_gives = { λ _ status. status ≡ NoMemory };

    fn from(_refused: OutOfMemory) -> Status {
        Status::NoMemory
    }
}

impl From<FileFault> for Status {
    ghost use Rattle.std.specs.Prelude.{◌≡◌};
    ghost use Rattle.run_ends.specs.Status.{file_status};

    ghost from_gives = { λ fault status. status ≡ file_status fault };

    fn from(fault: FileFault) -> Status {
        match fault {
            FileFault::ReadFault => Status::ReadFault,
            fault => Status::BadFile(fault),
        }
    }
}

impl From<ScriptFault> for Status {
    ghost use Rattle.std.specs.Prelude.{◌≡◌};
    ghost use Rattle.run_ends.specs.Status.{script_status};

    ghost from_gives = { λ fault status. status ≡ script_status fault };

    fn from(fault: ScriptFault) -> Status {
        match fault {
            ScriptFault::OutOfMemory => Status::NoMemory,
            fault => Status::BadScript(fault),
        }
    }
}
