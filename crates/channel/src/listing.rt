// The listing call: a channel file is judged, and one line is written into the caller's buffer.
ghost use Rattle.std.specs.Prelude.{◌≡◌, ◌<◌, ◌≤◌, ◌++◌, length, drop, IfOk, string_bytes};
ghost use Rattle.channel.specs.Claims.{ChannelFileHasOneAnswer};
ghost use Rattle.channel.specs.Listing.{Listed, SmallBuffer, header, least_buffer, line_length, refused_line as refused_bytes};
ghost use Rattle.channel.specs.Steps.{LineText, Refuses, TextOr};

use crate::fault::FileFault;
use crate::summary::{Summary, summary_of};
use std::alloc::{AllocError, Global};

// A file has at most so many bytes.
pub const MOST_BYTES: usize = 16384;

// A listing's buffer has at least so many bytes.
pub const LEAST_BUFFER: usize = 1024;

// Why a listing is refused, and how many bytes of the buffer the line takes that says so: 0 where none is
// written, and 0 is that count.
#[derive(Clone, Copy)]
pub struct Refusal {
    pub fault: FileFault,
    pub length: usize,
}

fn header_line(heap: Global, summary: Summary) -> Result<String, AllocError>
    ensures { IfOk result (λ s. LineText (header summary.states summary.rules) (string_bytes s)) }
{
    let Summary { states, rules } = summary;
    format!(in heap; "states {states} rules {rules}\n")
}

fn refused_line(heap: Global, number: u8, fault: FileFault) -> Result<String, AllocError>
    ensures { IfOk result (λ s. LineText (refused_bytes number fault) (string_bytes s)) }
{
    let layer = fault.layer();
    let place = fault.place();
    format!(in heap; "refused {number} {layer} {place}\n")
}

// Writes the text from the buffer's front; the rest keeps its bytes.
fn put(buffer: &mut [u8], text: &str) -> usize
    requires { length text.now ≤ length buffer.old }
    ensures length { result ≡ length text.now }
    ensures bytes { buffer.new ≡ text.now ++ drop result buffer.old }
{
    let n = text.len();
    buffer[..n].copy_from_slice(text.as_bytes());
    n
}

// The text of a lawful file's listing.
fn listing_text(heap: Global, file: &[u8]) -> Result<String, FileFault>
    ensures { TextOr file.now result }
{
    let summary = summary_of(heap, file)?;
    Ok(header_line(heap, summary)?)
}

// Writes the refused line of a fault that has a number.
fn refuse(heap: Global, fault: FileFault, buffer: &mut [u8]) -> Refusal
    requires { least_buffer ≤ length buffer.old }
    ensures refusal { Refuses fault buffer.old buffer.new result }
    ensures within { result.length ≤ least_buffer }
{
    let Some(number) = fault.number() else {
        return Refusal { fault, length: 0 };
    };
    match refused_line(heap, number, fault) {
        Ok(line) => Refusal {
            fault,
            length: put(buffer, line.as_str()),
        },
        Err(e) => Refusal {
            fault: e.into(),
            length: 0,
        },
    }
}

// Judges a channel file. It writes `states N rules M` from the buffer's front and answers the
// line's length; for a refused file it writes the refused line and answers the fault with that
// line's length. The rest of the buffer keeps its bytes.
pub fn listing(heap: Global, file: &[u8], buffer: &mut [u8]) -> Result<usize, Refusal>
    ensures short { length buffer.old < least_buffer → SmallBuffer buffer.old buffer.new result }
    ensures full { least_buffer ≤ length buffer.old → Listed file.now buffer.old buffer.new result }
    ensures within { line_length result ≤ least_buffer }
{
    if buffer.len() < LEAST_BUFFER {
        return Err(Refusal {
            fault: FileFault::Buffer,
            length: 0,
        });
    }
    match listing_text(heap, file) {
        Ok(text) => Ok(put(buffer, text.as_str())),
        Err(fault) => Err(refuse(heap, fault, buffer)),
    }
}

// A channel file has one answer: one summary or one fault, never both.
pub fn channel_file_has_one_answer()
    ensures { ChannelFileHasOneAnswer }
{}
