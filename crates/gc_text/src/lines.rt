use crate::front::Front;
use crate::line_kind::LineKind;
use crate::read_fault::ReadFault;
use gc_graph::Source;
use std::alloc::Global;
use std::io::Read;
use std::marker::Model;
use std::mem::swap;

/// The maximum number of bytes of one read. The buffer is on the stack, which may be small.
const PIECE: usize = 8192;

/// The lines of a text that is read piece by piece. It keeps the bytes that were read and not yet taken: those of a few
/// lines, or the rest of the text if the next line is not what the caller wants.
#[derive(Drop)]
pub struct Lines {
    // The bytes before `at` were taken; the others wait.
    bytes: Vec<u8>,
    at: usize,
    // The waiting bytes move here when the taken ones are dropped.
    spare: Vec<u8>,
    read: usize,
    limit: usize,
    ended: bool,
    // The number of lines that were taken.
    taken: u64,
}

impl Model for Lines {
    ghost use Rattle.std.specs.Prelude.{◌+◌, ◌≤◌, drop, vec_len};
    ghost use Rattle.gc_text.specs.Reading.{Progress};

    ghost Value = { Progress };

    ghost view = { λ l. record {
      waiting = drop l.at l.bytes.items;
      read = l.read;
      limit = l.limit;
      ended = l.ended;
      taken = l.taken;
    } };

    ghost invariant = { λ l. (l.at ≤ vec_len l.bytes) × (vec_len l.bytes ≤ l.read) × (l.read ≤ l.limit)
        × (l.taken + vec_len l.bytes ≤ l.read + l.at) };
}

impl Lines {
    ghost use Rattle.std.specs.Prelude.{◌≡◌, ◌+◌, ◌*◌, ◌≤◌, ◌<◌, ◌↔◌, ◌∷◌, ◌++◌, ℕ, List, true, false, length, IfOk, IfSome, MatchOption, MatchResult, Err, Ok, Some};
    ghost use Rattle.gc_graph.specs.Streams.{bytes_left, source_failed};
    ghost use Rattle.gc_text.specs.Lines.{newline};
    ghost use Rattle.gc_text.specs.Internal.Starting.{nothing_read};
    ghost use Rattle.gc_text.specs.Reading.{Place, start, IsAt, IsAtLast, NoneIsFirst, TakesLine, CannotRead};
    ghost use Rattle.gc_text.specs.declared.read_fault.ReadFault.{ReadFault};

    /// Returns a text with a limit of `limit` bytes, before the first read.
    fn unread(alloc: Global, limit: usize) -> Self
        ensures { result ≡ nothing_read limit }
    {
        Lines {
            bytes: Vec::new(alloc),
            at: 0,
            spare: Vec::new(alloc),
            read: 0,
            limit,
            ended: false,
            taken: 0,
        }
    }

    /// Starts a text with a limit of `limit` bytes, and reads its first bytes.
    pub fn open<R: Read>(
        alloc: Global,
        limit: usize,
        reader: &mut Source<R>,
    ) -> Result<Lines, ReadFault>
        ensures place { (text : List ℕ) → bytes_left R.remaining reader.old ≡ Some text → MatchResult result
            (λ lines. IsAt text (start text) lines (bytes_left R.remaining reader.new))
            (λ fault. CannotRead fault limit text (bytes_left R.remaining reader.new)) }
        ensures limit { IfOk result (λ lines. lines.limit ≡ limit) }
        ensures none { IfOk result (λ lines. lines.taken ≡ 0) }
        ensures read { (result ≡ Err ReadFault.Read) ↔ (source_failed reader.new ≡ true) }
    {
        let mut lines = Lines::unread(alloc, limit);
        lines.more(reader)?;
        Ok(lines)
    }

    /// Returns the bytes that were read and not yet taken.
    pub fn waiting(&self) -> &[u8]
        ensures { result.now ≡ self.now.waiting }
    {
        &self.bytes[self.at..]
    }

    /// Returns the number of lines that were taken.
    pub fn taken(&self) -> u64
        ensures value { result ≡ self.now.taken }
        ensures bound { result + length self.now.waiting ≤ self.now.limit }
    {
        self.taken
    }

    /// Drops the bytes that were taken.
    fn drop_taken(&mut self) -> Result<(), ReadFault>
        ensures same { self.new ≡ self.old }
        ensures memory { (fault : ReadFault) → result ≡ Err fault → (fault ≡ ReadFault.NoMemory) × (1 ≤ self.old.read) }
    {
        if self.at == 0 {
            return Ok(());
        }
        self.spare.clear();
        self.spare.extend_from_slice(&self.bytes[self.at..])?;
        swap(&mut self.bytes, &mut self.spare);
        self.at = 0;
        Ok(())
    }

    /// Reads one piece and returns its number of bytes; 0 means the end of the text.
    fn read_piece<R: Read>(&mut self, reader: &mut Source<R>) -> Result<usize, ReadFault>
        ensures place { (text : List ℕ) (place : Place) → IsAt text place self.old (bytes_left R.remaining reader.old) → MatchResult result
            (λ _. IsAt text place self.new (bytes_left R.remaining reader.new))
            (λ fault. CannotRead fault self.old.limit text (bytes_left R.remaining reader.new)) }
        ensures counts { IfOk result (λ count. (self.new.read ≡ self.old.read + count)
            × (length self.new.waiting ≡ length self.old.waiting + count)
            × (self.new.read ≤ self.new.limit)) }
        ensures ends { IfOk result (λ count. (count ≡ 0) ↔ (self.new.ended ≡ true)) }
        ensures limit { self.new.limit ≡ self.old.limit }
        ensures taken { self.new.taken ≡ self.old.taken }
        ensures read { (result ≡ Err ReadFault.Read) ↔ (source_failed reader.new ≡ true) }
    {
        let mut piece = [0u8; PIECE];
        let room = (self.limit - self.read).min(PIECE - 1) + 1;
        let Ok(count) = reader.read(&mut piece[..room]) else {
            return Err(ReadFault::Read);
        };
        if count > self.limit - self.read {
            return Err(ReadFault::TooLarge);
        }
        let fresh = &piece[..count];
        self.bytes.extend_from_slice(fresh)?;
        self.read += count;
        self.ended = count == 0;
        Ok(count)
    }

    /// Drops the bytes that were taken, and reads until at least twice as many bytes wait as before, or the text ends.
    /// Returns whether any bytes came.
    fn more<R: Read>(&mut self, reader: &mut Source<R>) -> Result<bool, ReadFault>
        // It is still the same place in the same text.
        ensures place { (text : List ℕ) (place : Place) → IsAt text place self.old (bytes_left R.remaining reader.old) → MatchResult result
            (λ _. IsAt text place self.new (bytes_left R.remaining reader.new))
            (λ fault. CannotRead fault self.old.limit text (bytes_left R.remaining reader.new)) }
        ensures whole { result ≡ Ok false → (self.new.ended ≡ true) × (self.new.read ≡ self.old.read) }
        ensures grows { result ≡ Ok true → self.old.read < self.new.read }
        ensures doubles { result ≡ Ok true → self.new.ended ≡ false → 2 * length self.old.waiting ≤ length self.new.waiting }
        ensures counts { IfOk result (λ _. (self.old.read ≤ self.new.read)
            × (self.new.read + length self.old.waiting ≡ self.old.read + length self.new.waiting)
            × (self.new.read ≤ self.new.limit)) }
        ensures limit { self.new.limit ≡ self.old.limit }
        ensures taken { self.new.taken ≡ self.old.taken }
        ensures first { self.old ≡ nothing_read self.old.limit → ((result ≡ Err ReadFault.Read) ↔ (source_failed reader.new ≡ true)) }
        ensures later { source_failed reader.old ≡ false → ((result ≡ Err ReadFault.Read) ↔ (source_failed reader.new ≡ true)) }
    {
        self.drop_taken()?;
        let wanted = self.bytes.len().max(1);
        let mut count = 0usize;
        while count < wanted && !self.ended {
            count += self.read_piece(reader)?;
        }
        Ok(count > 0)
    }

    /// Takes the line at the front of the waiting bytes if it is of this kind, and nothing otherwise.
    #[inline(always)]
    fn take_waiting<K: LineKind>(&mut self, kind: &K) -> Option<K::Value>
        requires { K.is_sound kind.now }
        ensures { MatchOption result ((self.new ≡ self.old) × NoneIsFirst (K.fits kind.now) (K.line kind.now) self.old.waiting)
            (λ value. K.fits kind.now value × (self.old.waiting ≡ K.line kind.now value ++ newline ∷ self.new.waiting)
            × (self.new ≡ record self.old { waiting = self.new.waiting; taken = self.old.taken + 1 })
            × (self.new.taken ≤ self.new.limit)) }
    {
        let mut front = Front::new(&self.bytes[self.at..]);
        let value = kind.take(&mut front)?;
        let left = front.rest().len();
        self.at = self.bytes.len() - left;
        self.taken += 1;
        Some(value)
    }

    /// Takes the next line if it is of this kind. Returns `None` if it is not, which is known only at the end of the text.
    #[inline(always)]
    pub fn take<K: LineKind, R: Read>(
        &mut self,
        kind: &K,
        reader: &mut Source<R>,
    ) -> Result<Option<K::Value>, ReadFault>
        requires sound { K.is_sound kind.now }
        requires unfailed { source_failed reader.old ≡ false }
        ensures fits { IfOk result (λ found. IfSome found (K.fits kind.now)) }
        ensures place { (text : List ℕ) (place : Place) → IsAt text place self.old (bytes_left R.remaining reader.old) → MatchResult result
            (λ found. TakesLine (K.fits kind.now) (K.line kind.now) text place found self.new (bytes_left R.remaining reader.new))
            (λ fault. CannotRead fault self.old.limit text (bytes_left R.remaining reader.new)) }
        ensures limit { self.new.limit ≡ self.old.limit }
        ensures taken { IfOk result (λ found. MatchOption found (self.new.taken ≡ self.old.taken)
            (λ _. (self.new.taken ≡ self.old.taken + 1) × (self.new.taken ≤ self.new.limit))) }
        ensures read { (result ≡ Err ReadFault.Read) ↔ (source_failed reader.new ≡ true) }
    {
        loop {
            if let Some(value) = self.take_waiting(kind) {
                return Ok(Some(value));
            }
            if !self.more(reader)? {
                return Ok(None);
            }
        }
    }

    /// Reads to the end of the text, and takes nothing.
    pub fn read_to_end<R: Read>(&mut self, reader: &mut Source<R>) -> Result<(), ReadFault>
        requires { source_failed reader.old ≡ false }
        ensures place { (text : List ℕ) (place : Place) → IsAt text place self.old (bytes_left R.remaining reader.old) → MatchResult result
            (λ _. IsAtLast text place self.new)
            (λ fault. CannotRead fault self.old.limit text (bytes_left R.remaining reader.new)) }
        ensures limit { self.new.limit ≡ self.old.limit }
        ensures taken { self.new.taken ≡ self.old.taken }
        ensures read { (result ≡ Err ReadFault.Read) ↔ (source_failed reader.new ≡ true) }
    {
        while self.more(reader)? {}
        Ok(())
    }
}
