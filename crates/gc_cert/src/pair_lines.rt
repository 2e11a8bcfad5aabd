ghost use Rattle.std.specs.Prelude.{◌≡◌, ◌≤◌, ◌∷◌, ◌↔◌, ℕ, List, [], true, false, length, IfOk, MatchResult, Err};
ghost use Rattle.gc_graph.specs.Streams.{bytes_left, source_failed};
ghost use Rattle.gc_text.specs.Reading.{Place, IsAt};
ghost use Rattle.gc_cert.specs.Faults.{limit};
ghost use Rattle.gc_cert.specs.Internal.Reading.{GoesOn, Takes};
ghost use Rattle.gc_cert.specs.Internal.Sections.{alone, Spelled, IsLineFault};

use crate::fault::PairFault;
use gc_graph::Source;
use gc_text::{LineKind, Lines, cut};
use std::io::Read;

/// Returns the fault of the next line of a text that was read to its end, if that line is not what the format requires there.
fn fault_of_next(lines: &Lines) -> PairFault
    requires { lines.now.limit ≡ limit }
    ensures { IsLineFault result (record { rest = lines.now.waiting; taken = lines.now.taken }) }
{
    match cut(b'\n', lines.waiting()) {
        Some(_) => PairFault::BadLine(lines.taken() + 1),
        None => PairFault::EndsEarly,
    }
}

/// Takes the next line, which must be of this kind, and returns its value.
#[inline(always)]
pub fn take<K: LineKind, R: Read>(
    lines: &mut Lines,
    kind: &K,
    reader: &mut Source<R>,
) -> Result<K::Value, PairFault>
    requires sound { K.is_sound kind.now }
    // There is a line of this kind.
    requires some { (value : K.Value) × K.fits kind.now value }
    requires limit { lines.old.limit ≡ limit }
    requires unfailed { source_failed reader.old ≡ false }
    ensures fits { IfOk result (K.fits kind.now) }
    ensures place { Takes (alone (K.line kind.now)) (Spelled (K.fits kind.now) (alone (K.line kind.now))) result
        lines.old (bytes_left R.remaining reader.old) lines.new (bytes_left R.remaining reader.new) }
    ensures limit { lines.new.limit ≡ limit }
    ensures read { (result ≡ Err PairFault.Read) ↔ (source_failed reader.new ≡ true) }
{
    match lines.take(kind, reader) {
        Ok(Some(value)) => Ok(value),
        Ok(None) => Err(fault_of_next(lines)),
        Err(fault) => Err(PairFault::from(fault)),
    }
}

/// Reads to the end of the text, and checks that nothing is left.
pub fn end<R: Read>(lines: &mut Lines, reader: &mut Source<R>) -> Result<(), PairFault>
    requires limit { lines.old.limit ≡ limit }
    requires unfailed { source_failed reader.old ≡ false }
    ensures place { (text : List ℕ) (p : Place) → IsAt text p lines.old (bytes_left R.remaining reader.old) → MatchResult result
        (λ _. (p.rest ≡ []) × (length text ≤ limit))
        (λ fault. GoesOn fault text p (bytes_left R.remaining reader.new)) }
    ensures read { (result ≡ Err PairFault.Read) ↔ (source_failed reader.new ≡ true) }
{
    match lines.read_to_end(reader) {
        Ok(()) => {
            if lines.waiting().is_empty() {
                Ok(())
            } else {
                Err(PairFault::BadLine(lines.taken() + 1))
            }
        }
        Err(fault) => Err(PairFault::from(fault)),
    }
}
