//! The texts of replies without a record.

ghost use Rattle.std.specs.Prelude.{◌≡◌, IsTrue, decimal};
ghost use Rattle.std.specs.List.{list_all};
ghost use Rattle.serde_json.specs.Written.{compact_text};
ghost use Rattle.table_reply.specs.Buffer.{AddsWhole};
ghost use Rattle.table_reply.specs.Answer.{done, found, counted, after, banned, erased, clash, fault, answer_text, handle_data};
ghost use Rattle.table_reply.specs.Pieces.{blocked_glue, handle_text};
ghost use Rattle.table_reply.specs.Plain.{is_plain};

use crate::fault::Fault;
use crate::handle::{SPELLING_LEN, spelling};
use crate::out::{Out, OutOfRoom};
use crate::plain::PlainText;
use arrayvec::ArrayString;
use container_model::Handle;
use itoa::Buffer;

/// Room for a handle's text and two quotes.
const HANDLE_LEN: usize = SPELLING_LEN + 2;

/// The text of a handle.
#[tactic(auto, using(crate::proofs::Glued::quoted_spelling))]
fn handle_text(handle: Handle) -> ArrayString<HANDLE_LEN>
    ensures { result.bytes ≡ handle_text handle }
{
    let mut text = ArrayString::new();
    text.push_str("\"");
    text.push_str(spelling(handle).as_str());
    text.push_str("\"");
    text
}

fn handle_or_null(handle: Option<Handle>) -> ArrayString<HANDLE_LEN>
    ensures { result.bytes ≡ compact_text (handle_data handle) }
{
    match handle {
        Some(handle) => handle_text(handle),
        None => {
            let mut text = ArrayString::new();
            text.push_str("null");
            text
        }
    }
}

pub(crate) fn push_done(out: &mut Out, at: u64) -> Result<(), OutOfRoom>
    ensures { AddsWhole result out.old out.new (answer_text (done at)) }
{
    out.try_push_all(&["{\"at\":", Buffer::new().format(at), ",\"ok\":true}\n"])
}

pub(crate) fn push_found(out: &mut Out, at: u64, handle: Option<Handle>) -> Result<(), OutOfRoom>
    ensures { AddsWhole result out.old out.new (answer_text (found at handle)) }
{
    let handle = handle_or_null(handle);
    out.try_push_all(&[
        "{\"at\":",
        Buffer::new().format(at),
        ",\"h\":",
        handle.as_str(),
        ",\"ok\":true}\n",
    ])
}

pub(crate) fn push_after(out: &mut Out, at: u64, next: Option<Handle>) -> Result<(), OutOfRoom>
    ensures { AddsWhole result out.old out.new (answer_text (after at next)) }
{
    let next = handle_or_null(next);
    out.try_push_all(&[
        "{\"at\":",
        Buffer::new().format(at),
        ",\"next\":",
        next.as_str(),
        ",\"ok\":true}\n",
    ])
}

pub(crate) fn push_counted(out: &mut Out, at: u64, number: u64) -> Result<(), OutOfRoom>
    ensures { AddsWhole result out.old out.new (answer_text (counted at number)) }
{
    out.try_push_all(&[
        "{\"at\":",
        Buffer::new().format(at),
        ",\"n\":",
        Buffer::new().format(number),
        ",\"ok\":true}\n",
    ])
}

fn push_blocked(
    out: &mut Out,
    word: &str,
    at: u64,
    index: &PlainText,
    by: Handle,
) -> Result<(), OutOfRoom>
    ensures text { AddsWhole result out.old out.new (blocked_glue (decimal at) index.now word.now (handle_text by)) }
    ensures plain { IsTrue (list_all is_plain index.now) }
{
    let by = handle_text(by);
    out.try_push_all(&[
        "{\"at\":",
        Buffer::new().format(at),
        ",\"by\":\"",
        index.as_str(),
        "\",\"err\":\"",
        word,
        "\",\"h\":",
        by.as_str(),
        "}\n",
    ])
}

pub(crate) fn push_banned(
    out: &mut Out,
    at: u64,
    index: &PlainText,
    by: Handle,
) -> Result<(), OutOfRoom>
    ensures { AddsWhole result out.old out.new (answer_text (banned at index.now by)) }
{
    push_blocked(out, "banned", at, index, by)
}

pub(crate) fn push_erased(
    out: &mut Out,
    at: u64,
    index: &PlainText,
    by: Handle,
) -> Result<(), OutOfRoom>
    ensures { AddsWhole result out.old out.new (answer_text (erased at index.now by)) }
{
    push_blocked(out, "erased", at, index, by)
}

pub(crate) fn push_clash(
    out: &mut Out,
    at: u64,
    index: &PlainText,
    first: Handle,
    second: Handle,
) -> Result<(), OutOfRoom>
    ensures { AddsWhole result out.old out.new (answer_text (clash at index.now first second)) }
{
    let first = handle_text(first);
    let second = handle_text(second);
    out.try_push_all(&[
        "{\"at\":",
        Buffer::new().format(at),
        ",\"by\":\"",
        index.as_str(),
        "\",\"err\":\"clash\",\"h\":",
        first.as_str(),
        ",\"h2\":",
        second.as_str(),
        "}\n",
    ])
}

pub(crate) fn push_fault(out: &mut Out, why: Fault) -> Result<(), OutOfRoom>
    ensures { AddsWhole result out.old out.new (answer_text (fault why)) }
{
    out.try_push_all(&["{\"err\":\"", why.name(), "\"}\n"])
}
