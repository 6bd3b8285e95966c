//! The message of a query.
ghost use Rattle.std.specs.Prelude.{◌≡◌, ◌≤◌, true, ◌++◌, length};
ghost use Rattle.lines.specs.Message.{header as header_of, text_bytes, text_fits, MessageLaws};
ghost use Rattle.lines.specs.MessageFaults.{text_checked, message_answer};

use crate::fault::MessageFault;
use crate::line::SIZE;
use kinds::PlaceKind;

/// How many bytes a text may have.
const MOST_TEXT: usize = 30;

/// Refuses a text that has no byte or more than 30.
pub fn check_text(text: &[u8]) -> Result<(), MessageFault>
    ensures { result ≡ text_checked text.now }
{
    if text.is_empty() || text.len() > MOST_TEXT {
        return Err(MessageFault::Text);
    }
    Ok(())
}

// The first ten bytes.
fn header(serial: u32, width: u8, size: u8) -> [u8; 10]
    ensures { result ≡ header_of serial width size }
{
    let [first, second, third, fourth] = serial.to_le_bytes();
    [64, 0, 17, 0, first, second, third, fourth, width, size]
}

// A text in 30 bytes, the rest zero.
fn padded_text(text: &[u8]) -> [u8; 30]
    requires { length text.now ≤ 30 }
    ensures { result ≡ text_bytes text.now }
{
    let mut out = [0; 30];
    out[..text.len()].copy_from_slice(text);
    out
}

// The three parts, one behind the other.
fn assemble(header: [u8; 10], region: [u8; 24], text: [u8; 30]) -> [u8; SIZE]
    ensures { result ≡ header ++ (region ++ text) }
{
    let mut out = [0; SIZE];
    let (first, rest) = out.split_at_mut(10);
    let (middle, last) = rest.split_at_mut(24);
    first.copy_from_slice(&header);
    middle.copy_from_slice(&region);
    last.copy_from_slice(&text);
    out
}

// The message with a text that fits, where the kind's regions do.
#[tactic(auto, unfolding(crate::specs::Message::message))]
fn compose<P: PlaceKind>(
    serial: u32,
    region: P::Region,
    text: &[u8],
) -> Result<[u8; SIZE], MessageFault>
    requires { text_fits text.now ≡ true }
    ensures { result ≡ message_answer P.PlaceKind.model serial region text.now }
{
    let bytes = P::bytes(region)?;
    let head = header(serial, P::width(), text.len() as u8);
    Ok(assemble(head, bytes, padded_text(text)))
}

// The laws of messages in a kind, which follow from the kind's.
fn message_laws<P: PlaceKind>()
    ensures { MessageLaws P.PlaceKind.model }
{}

/// The message of a query, or a refusal where the text has no byte or more than 30, or the kind's regions do not fit.
pub fn message<P: PlaceKind>(
    serial: u32,
    region: P::Region,
    text: &[u8],
) -> Result<[u8; SIZE], MessageFault>
    ensures value { result ≡ message_answer P.PlaceKind.model serial region text.now }
    ensures laws { MessageLaws P.PlaceKind.model }
{
    message_laws::<P>();
    check_text(text)?;
    compose::<P>(serial, region, text)
}
