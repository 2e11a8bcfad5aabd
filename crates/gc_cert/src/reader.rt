ghost use Rattle.std.specs.Prelude.{◌≡◌, ◌+◌, ◌↔◌, List, ℕ, map, drop, true, false, decimal, IfSome, IfOk, MatchResult, Err, Some};
ghost use Rattle.gc_graph.specs.Streams.{bytes_left, source_failed};
ghost use Rattle.gc_words.specs.Views.{addresses};
ghost use Rattle.gc_cert.specs.Grammar.{pair_line, certificate_lines, IsWord, AreAddresses, IsCertificate, HasText};
ghost use Rattle.gc_cert.specs.Internal.Grammar.{image_alone, IsImageBy};
ghost use Rattle.gc_cert.specs.Faults.{limit, IsReadAsPair, MayFail};
ghost use Rattle.gc_text.specs.Reading.{IsAt, start};
ghost use Rattle.gc_cert.specs.Internal.Reading.{Takes, MayFailHaving};
ghost use Rattle.gc_cert.specs.Internal.Sections.{AreAll, Spelled};
ghost use Rattle.gc_cert.specs.Views.{image_in, pair_in};

use crate::fault::PairFault;
use crate::image::{Image, PairFile};
use crate::line_kinds::{Addresses, Count, Exactly, Heading, Sizes, Word};
use crate::pair_lines::{end, take};
use gc_graph::Source;
use gc_text::Lines;
use gc_words::{MOST_PAIRS, MOST_ROOTS, NewAddr, OldAddr, Pair};
use std::alloc::Global;
use std::io::Read;

/// The maximum number of bytes of a pair text.
const LIMIT: usize = 67108864;

/// Takes this many words.
fn take_words<R: Read>(
    alloc: Global,
    lines: &mut Lines,
    reader: &mut Source<R>,
    count: u64,
) -> Result<Vec<u64>, PairFault>
    requires limit { lines.old.limit ≡ limit }
    requires unfailed { source_failed reader.old ≡ false }
    ensures fits { IfOk result (λ words. AreAll IsWord count words.items) }
    ensures place { Takes (λ words. map decimal words.items) (Spelled (AreAll IsWord count) (map decimal)) result
        lines.old (bytes_left R.remaining reader.old) lines.new (bytes_left R.remaining reader.new) }
    ensures limit { lines.new.limit ≡ limit }
    ensures read { (result ≡ Err PairFault.Read) ↔ (source_failed reader.new ≡ true) }
{
    let mut words = Vec::new(alloc);
    for _ in 0..count {
        let word = take(lines, &Word, reader)?;
        words.push(word)?;
    }
    Ok(words)
}

/// Takes this many pairs.
fn take_pairs<R: Read>(
    alloc: Global,
    lines: &mut Lines,
    reader: &mut Source<R>,
    count: u64,
) -> Result<Vec<Pair>, PairFault>
    requires limit { lines.old.limit ≡ limit }
    requires unfailed { source_failed reader.old ≡ false }
    ensures fits { IfOk result (λ pairs. AreAll AreAddresses count (map addresses pairs.items)) }
    ensures place { Takes (λ pairs. map pair_line (map addresses pairs.items)) (Spelled (AreAll AreAddresses count) (map pair_line)) result
        lines.old (bytes_left R.remaining reader.old) lines.new (bytes_left R.remaining reader.new) }
    ensures limit { lines.new.limit ≡ limit }
    ensures read { (result ≡ Err PairFault.Read) ↔ (source_failed reader.new ≡ true) }
{
    let mut pairs = Vec::new(alloc);
    for _ in 0..count {
        let pair = take(lines, &Addresses, reader)?;
        pairs.push(Pair {
            old: OldAddr(pair.0),
            new: NewAddr(pair.1),
        })?;
    }
    Ok(pairs)
}

/// Takes the image with this name. `raws` says whether raw headers count.
fn take_image<R: Read>(
    alloc: Global,
    lines: &mut Lines,
    reader: &mut Source<R>,
    name: &[u8],
    raws: bool,
) -> Result<Image, PairFault>
    requires limit { lines.old.limit ≡ limit }
    requires unfailed { source_failed reader.old ≡ false }
    ensures fits { IfOk result (λ image. IsImageBy raws (image_in image)) }
    ensures place { Takes (λ image. image_alone name.now (image_in image)) (Spelled (IsImageBy raws) (image_alone name.now)) result
        lines.old (bytes_left R.remaining reader.old) lines.new (bytes_left R.remaining reader.new) }
    ensures limit { lines.new.limit ≡ limit }
    ensures read { (result ≡ Err PairFault.Read) ↔ (source_failed reader.new ≡ true) }
{
    let (size, end) = take(lines, &Sizes { name }, reader)?;
    let words = take_words(alloc, lines, reader, u64::from(end))?;
    let counted = Count {
        name: b"roots",
        most: MOST_ROOTS as u64,
    };
    let count = take(lines, &counted, reader)?;
    let roots = take_words(alloc, lines, reader, count)?;
    Ok(Image {
        size,
        end,
        words,
        roots,
        raws,
    })
}

/// Takes the pairs and the line `end`.
fn take_certificate<R: Read>(
    alloc: Global,
    lines: &mut Lines,
    reader: &mut Source<R>,
) -> Result<Vec<Pair>, PairFault>
    requires limit { lines.old.limit ≡ limit }
    requires unfailed { source_failed reader.old ≡ false }
    ensures fits { IfOk result (λ pairs. IsCertificate (map addresses pairs.items)) }
    ensures place { Takes (λ pairs. certificate_lines (map addresses pairs.items)) (Spelled IsCertificate certificate_lines) result
        lines.old (bytes_left R.remaining reader.old) lines.new (bytes_left R.remaining reader.new) }
    ensures limit { lines.new.limit ≡ limit }
    ensures read { (result ≡ Err PairFault.Read) ↔ (source_failed reader.new ≡ true) }
{
    let counted = Count {
        name: b"pairs",
        most: MOST_PAIRS as u64,
    };
    let count = take(lines, &counted, reader)?;
    let pairs = take_pairs(alloc, lines, reader, count)?;
    take(lines, &Exactly { wanted: b"end" }, reader)?;
    Ok(pairs)
}

/// Takes a whole text, from its first line.
fn take_pair_file<R: Read>(
    alloc: Global,
    lines: &mut Lines,
    reader: &mut Source<R>,
) -> Result<PairFile, PairFault>
    requires limit { lines.old.limit ≡ limit }
    requires unfailed { source_failed reader.old ≡ false }
    ensures exact { (text : List ℕ) → IsAt text (start text) lines.old (bytes_left R.remaining reader.old) → MatchResult result
        (λ file. IsReadAsPair (pair_in file) text)
        (λ fault. MayFailHaving fault text (bytes_left R.remaining reader.new)) }
    ensures sound { IfOk result (λ file. HasText (pair_in file)) }
    ensures read { (result ≡ Err PairFault.Read) ↔ (source_failed reader.new ≡ true) }
{
    let raws = take(lines, &Heading, reader)?;
    let old = take_image(alloc, lines, reader, b"old", raws)?;
    let new = take_image(alloc, lines, reader, b"new", raws)?;
    let pairs = take_certificate(alloc, lines, reader)?;
    end(lines, reader)?;
    Ok(PairFile { old, new, pairs })
}

/// Reads a pair text to its end. Returns the two images and the pairs, or the first fault. If the text has more than
/// 67108864 bytes, reads one byte more than these and returns `TooLarge`.
pub fn read_pair<R: Read>(alloc: Global, reader: &mut Source<R>) -> Result<PairFile, PairFault>
    ensures exact { IfSome (bytes_left R.remaining reader.old) (λ text.
        MatchResult result (λ file. IsReadAsPair (pair_in file) text) (λ fault. MayFail fault text)) }
    ensures sound { IfOk result (λ file. HasText (pair_in file)) }
    ensures stops { result ≡ Err PairFault.TooLarge → IfSome (bytes_left R.remaining reader.old)
        (λ text. bytes_left R.remaining reader.new ≡ Some (drop (limit + 1) text)) }
    ensures read { (result ≡ Err PairFault.Read) ↔ (source_failed reader.new ≡ true) }
{
    let mut lines = Lines::open(alloc, LIMIT, reader)?;
    take_pair_file(alloc, &mut lines, reader)
}
