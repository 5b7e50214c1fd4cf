//! What answers lines, and the lines that it is given.

ghost use Rattle.std.specs.Prelude.{◌≡◌, ◌++◌, [], List, ℕ, OnErr, OnOk, IfErr};
ghost use Rattle.table_reply.specs.Ready.{IsBehind};
ghost use Rattle.table_engine.specs.Lines.{short, added};
ghost use Rattle.table_engine.specs.Stream.{RefusesLine, TellsLine};

use crate::cutter::{Cut, LineCutter, MAX_LINE, is_blank};
use table_reply::{Fault, Ready, Told};
use table_step::refuse;

/// What answers lines, given where they come from.
pub trait Answers<S> {
    /// Why a line is refused.
    type Refusal;

    /// What a line that is neither blank nor too long may be told, and what is left then.
    ghost tells: { S → Self → List ℕ → List ℕ → Self → Type 0 };

    /// Why such a line may be refused.
    ghost refuses: { S → Self → List ℕ → Self.Refusal → Type 0 };

    /// Answers a line that is neither blank nor too long. At an `Err` nothing was done.
    fn answer<'o>(
        &mut self,
        seat: &S,
        line: &[u8],
        out: Ready<'o>,
    ) -> Told<'o, Result<(), Self::Refusal>>
        ensures told { OnOk result.what ((text : List ℕ) × (result.out.now.bytes ≡ out.entry.out.now.bytes ++ text) × tells seat.now self.old line.now text self.new) }
        ensures refused { IfErr result.what (λ why. refuses seat.now self.old line.now why) }
        ensures unchanged { OnErr result.what ((self.new ≡ self.old) × (result.out.now ≡ out.entry.out.now)) }
        ensures behind { IsBehind out.entry result };
}

// Takes bytes and the newline after them, and answers the line that they end. A line that stands in the bytes as a whole is
// answered where it stands.
pub(crate) fn take_line<'o, S, T: Answers<S>>(
    answers: &mut T,
    seat: &S,
    cutter: &mut LineCutter,
    line: &[u8],
    out: Ready<'o>,
) -> Told<'o, Result<(), T::Refusal>>
    ensures told { OnOk result.what ((text : List ℕ) × (result.out.now.bytes ≡ out.entry.out.now.bytes ++ text) × TellsLine (T.tells seat.now) answers.old (added line.now cutter.old.unfinished) text answers.new) }
    ensures refused { IfErr result.what (λ why. RefusesLine (T.refuses seat.now) answers.old (added line.now cutter.old.unfinished) why) }
    ensures unchanged { OnErr result.what ((answers.new ≡ answers.old) × (result.out.now ≡ out.entry.out.now)) }
    ensures ended { cutter.new.unfinished ≡ short [] }
    ensures behind { IsBehind out.entry result }
{
    if !cutter.is_empty() || line.len() > MAX_LINE {
        cutter.extend(line);
        return end_line(answers, seat, cutter, out);
    }
    if is_blank(line) {
        let Ready { out } = out;
        return Told { what: Ok(()), out };
    }
    answers.answer(seat, line, out)
}

// Takes a newline, and answers the line that it ends.
pub(crate) fn end_line<'o, S, T: Answers<S>>(
    answers: &mut T,
    seat: &S,
    cutter: &mut LineCutter,
    out: Ready<'o>,
) -> Told<'o, Result<(), T::Refusal>>
    ensures told { OnOk result.what ((text : List ℕ) × (result.out.now.bytes ≡ out.entry.out.now.bytes ++ text) × TellsLine (T.tells seat.now) answers.old cutter.old.unfinished text answers.new) }
    ensures refused { IfErr result.what (λ why. RefusesLine (T.refuses seat.now) answers.old cutter.old.unfinished why) }
    ensures unchanged { OnErr result.what ((answers.new ≡ answers.old) × (result.out.now ≡ out.entry.out.now)) }
    ensures ended { cutter.new.unfinished ≡ short [] }
    ensures behind { IsBehind out.entry result }
{
    match cutter.feed(b'\n') {
        Cut::Unended | Cut::Blank => {
            let Ready { out } = out;
            Told { what: Ok(()), out }
        }
        Cut::Long => {
            let Told { what: _, out } = refuse(Fault::Line, out);
            Told { what: Ok(()), out }
        }
        Cut::Line => answers.answer(seat, cutter.line(), out),
    }
}
