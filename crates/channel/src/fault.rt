// What can be wrong with a listing's buffer or file. Faults of rows and of rule lines are carried whole.
ghost use Rattle.std.specs.Prelude.{◌≡◌, Some};
ghost use Rattle.channel.specs.Faults.{layer as layer_of, number as number_of, place as place_of, word};
ghost use Rattle.channel.specs.declared.fault.FileFault.TheVariants.{Form, Rows, Rules, Memory};

use crate::cause::Cause;
use crate::line::LineFault;
use rowtext::fault::RowFault;
use std::alloc::AllocError;
use std::fmt;

// What can be wrong with a file before its rows are looked at.
#[derive(Clone, Copy, PartialEq, Eq, Debug)]
pub enum FormFault {
    // The file has not 1 to 16,384 bytes.
    Size,
    // The last line is not `@` and an offset.
    LastLine,
    // The offset is past the `@`, or at no line's front.
    Offset,
}

#[derive(Clone, Copy, PartialEq, Eq, Debug)]
pub enum FileFault {
    // The buffer has fewer than 1,024 bytes.
    Buffer,
    // The file's outer form is broken.
    Form(FormFault),
    // The rows are refused.
    Rows(RowFault),
    // No state is a start.
    NoStart,
    // A rule line is refused.
    Rules(LineFault),
    // There was no memory; the file may be lawful.
    Memory,
}

// The part of the work that refuses.
#[derive(Clone, Copy, PartialEq, Eq, Debug)]
pub enum Layer {
    File,
    Rows,
    Roster,
    Rule,
}

impl Layer {
    // The layer's word in a refused line. Beside `Display`, which gives the same: it is a public promise of its own.
    pub fn word(&self) -> &'static str
        ensures { result.now ≡ word self.now }
    {
        match self {
            Layer::File => "file",
            Layer::Rows => "rows",
            Layer::Roster => "roster",
            Layer::Rule => "rule",
        }
    }
}

impl fmt::Display for Layer {
    ghost output = { λ l. Some (word l) };

    fn fmt<W: fmt::Write>(&self, f: &mut fmt::Formatter<W>) -> fmt::Result {
        f.write_str(self.word())
    }
}

impl FileFault {
    // The number by which the fault is told; want of memory has none.
    pub fn number(&self) -> Option<u8>
        ensures { result ≡ number_of self.now }
    {
        match self {
            FileFault::Buffer => Some(26),
            FileFault::Form(FormFault::Size) => Some(27),
            FileFault::Form(FormFault::LastLine) => Some(28),
            FileFault::Form(FormFault::Offset) => Some(29),
            FileFault::Rows(e) => e.number(),
            FileFault::NoStart => Some(3),
            FileFault::Rules(e) => match e.cause {
                Cause::TooMany => Some(5),
                Cause::Rule(fault) => fault.number(),
            },
            FileFault::Memory => None,
        }
    }

    pub fn layer(&self) -> Layer
        ensures { result ≡ layer_of self.now }
    {
        match self {
            FileFault::Rows(_) => Layer::Rows,
            FileFault::NoStart => Layer::Roster,
            FileFault::Rules(_) => Layer::Rule,
            _ => Layer::File,
        }
    }

    // The byte of the file that the fault points at; 0 where it points at none, as a listing tells it.
    pub fn place(&self) -> usize
        ensures { result ≡ place_of self.now }
    {
        match self {
            FileFault::Rows(e) => e.place(),
            FileFault::Rules(e) => match e.cause {
                Cause::TooMany => e.front,
                Cause::Rule(fault) => e.front + fault.place(),
            },
            _ => 0,
        }
    }
}

// Written out, here and below: a clause names the error that `?` makes by it.
impl From<FormFault> for FileFault {
    ghost from_gives = { λ e r. r ≡ Form e };

    fn from(e: FormFault) -> FileFault {
        FileFault::Form(e)
    }
}

impl From<RowFault> for FileFault {
    ghost from_gives = { λ e r. r ≡ Rows e };

    fn from(e: RowFault) -> FileFault {
        FileFault::Rows(e)
    }
}

impl From<LineFault> for FileFault {
    ghost from_gives = { λ e r. r ≡ Rules e };

    fn from(e: LineFault) -> FileFault {
        FileFault::Rules(e)
    }
}

impl From<AllocError> for FileFault {
    ghost from_gives = { λ _ r. r ≡ Memory };

    fn from(_e: AllocError) -> FileFault {
        FileFault::Memory
    }
}
