ghost use Rattle.std.specs.Prelude.{◌≡◌, ◌∷◌, ◌≤◌, [], true, length, map, decimal, OnOk, OnErr};
ghost use Rattle.std.specs.Io.KnownBytes.{Appends};
ghost use Rattle.gc_graph.specs.Streams.{bytes_written, sink_failed, SendsFront};
ghost use Rattle.gc_words.specs.Views.{image_of, addresses};
ghost use Rattle.gc_cert.specs.Grammar.{heading, pair_line, count_line, size_line, certificate_lines, lines_of, spelling, HasText};
ghost use Rattle.gc_cert.specs.Internal.Grammar.{image_alone};
ghost use Rattle.gc_cert.specs.Internal.PrintedLines.{Prints, PrintsFront};
ghost use Rattle.gc_cert.specs.Views.{pair_of};

use crate::fault::WriteFault;
use gc_graph::{Failed, Sink};
use gc_text::Printer;
use gc_words::{ImageRef, Pair};
use std::io::Write;

/// A bound on the bytes of any line of a pair text.
const LINE: usize = 64;

/// Returns the first line of a text. `raws` says whether raw headers count in its images.
fn heading(raws: bool) -> &'static [u8]
    ensures line { result.now ≡ heading raws }
    ensures short { length result.now ≤ 16 }
{
    if raws { b"heappair 2" } else { b"heappair 1" }
}

/// Prints exactly this line.
fn print_line<W: Write>(
    printer: &mut Printer,
    writer: &mut Sink<W>,
    line: &[u8],
) -> Result<(), Failed>
    requires { length line.now ≤ 16 }
    ensures ok { OnOk result (Prints (line.now ∷ [])
        (bytes_written W.contents writer.old) (bytes_written W.contents writer.new) printer.old printer.new) }
    ensures err { OnErr result (PrintsFront (line.now ∷ [])
        (bytes_written W.contents writer.old) (bytes_written W.contents writer.new) printer.old) }
    ensures failed { OnErr result (sink_failed writer.new ≡ true) }
{
    printer.make_room(writer, LINE)?;
    printer.bytes(line);
    printer.bytes(b"\n");
    Ok(())
}

/// Prints the first line, which says whether raw headers count.
fn print_heading<W: Write>(
    printer: &mut Printer,
    writer: &mut Sink<W>,
    raws: bool,
) -> Result<(), Failed>
    ensures ok { OnOk result (Prints (heading raws ∷ [])
        (bytes_written W.contents writer.old) (bytes_written W.contents writer.new) printer.old printer.new) }
    ensures err { OnErr result (PrintsFront (heading raws ∷ [])
        (bytes_written W.contents writer.old) (bytes_written W.contents writer.new) printer.old) }
    ensures failed { OnErr result (sink_failed writer.new ≡ true) }
{
    print_line(printer, writer, heading(raws))
}

/// Prints a word of a space.
fn print_word<W: Write>(
    printer: &mut Printer,
    writer: &mut Sink<W>,
    word: u64,
) -> Result<(), Failed>
    ensures ok { OnOk result (Prints (decimal word ∷ [])
        (bytes_written W.contents writer.old) (bytes_written W.contents writer.new) printer.old printer.new) }
    ensures err { OnErr result (PrintsFront (decimal word ∷ [])
        (bytes_written W.contents writer.old) (bytes_written W.contents writer.new) printer.old) }
    ensures failed { OnErr result (sink_failed writer.new ≡ true) }
{
    printer.make_room(writer, LINE)?;
    printer.number(word);
    printer.bytes(b"\n");
    Ok(())
}

/// Prints a name and a count.
fn print_count<W: Write>(
    printer: &mut Printer,
    writer: &mut Sink<W>,
    name: &[u8],
    count: usize,
) -> Result<(), Failed>
    requires { length name.now ≤ 16 }
    ensures ok { OnOk result (Prints (count_line name.now count ∷ [])
        (bytes_written W.contents writer.old) (bytes_written W.contents writer.new) printer.old printer.new) }
    ensures err { OnErr result (PrintsFront (count_line name.now count ∷ [])
        (bytes_written W.contents writer.old) (bytes_written W.contents writer.new) printer.old) }
    ensures failed { OnErr result (sink_failed writer.new ≡ true) }
{
    printer.make_room(writer, LINE)?;
    printer.bytes(name);
    printer.numbered(b" ", count as u64);
    printer.bytes(b"\n");
    Ok(())
}

/// Prints a name, and the size and the end of an image.
fn print_sizes<W: Write>(
    printer: &mut Printer,
    writer: &mut Sink<W>,
    name: &[u8],
    size: u32,
    end: u32,
) -> Result<(), Failed>
    requires { length name.now ≤ 16 }
    ensures ok { OnOk result (Prints (size_line name.now size end ∷ [])
        (bytes_written W.contents writer.old) (bytes_written W.contents writer.new) printer.old printer.new) }
    ensures err { OnErr result (PrintsFront (size_line name.now size end ∷ [])
        (bytes_written W.contents writer.old) (bytes_written W.contents writer.new) printer.old) }
    ensures failed { OnErr result (sink_failed writer.new ≡ true) }
{
    printer.make_room(writer, LINE)?;
    printer.bytes(name);
    printer.numbered(b" ", u64::from(size));
    printer.numbered(b" ", u64::from(end));
    printer.bytes(b"\n");
    Ok(())
}

/// Prints a pair of addresses.
fn print_pair<W: Write>(
    printer: &mut Printer,
    writer: &mut Sink<W>,
    pair: &Pair,
) -> Result<(), Failed>
    ensures ok { OnOk result (Prints (pair_line (addresses pair.now) ∷ [])
        (bytes_written W.contents writer.old) (bytes_written W.contents writer.new) printer.old printer.new) }
    ensures err { OnErr result (PrintsFront (pair_line (addresses pair.now) ∷ [])
        (bytes_written W.contents writer.old) (bytes_written W.contents writer.new) printer.old) }
    ensures failed { OnErr result (sink_failed writer.new ≡ true) }
{
    printer.make_room(writer, LINE)?;
    printer.number(u64::from(pair.old.0));
    printer.numbered(b" ", u64::from(pair.new.0));
    printer.bytes(b"\n");
    Ok(())
}

/// Prints a line for each word.
fn print_words<W: Write>(
    printer: &mut Printer,
    writer: &mut Sink<W>,
    words: &[u64],
) -> Result<(), Failed>
    ensures ok { OnOk result (Prints (map decimal words.now)
        (bytes_written W.contents writer.old) (bytes_written W.contents writer.new) printer.old printer.new) }
    ensures err { OnErr result (PrintsFront (map decimal words.now)
        (bytes_written W.contents writer.old) (bytes_written W.contents writer.new) printer.old) }
    ensures failed { OnErr result (sink_failed writer.new ≡ true) }
{
    for word in words {
        print_word(printer, writer, *word)?;
    }
    Ok(())
}

/// Prints a line for each pair.
fn print_pairs<W: Write>(
    printer: &mut Printer,
    writer: &mut Sink<W>,
    pairs: &[Pair],
) -> Result<(), Failed>
    ensures ok { OnOk result (Prints (map pair_line (map addresses pairs.now))
        (bytes_written W.contents writer.old) (bytes_written W.contents writer.new) printer.old printer.new) }
    ensures err { OnErr result (PrintsFront (map pair_line (map addresses pairs.now))
        (bytes_written W.contents writer.old) (bytes_written W.contents writer.new) printer.old) }
    ensures failed { OnErr result (sink_failed writer.new ≡ true) }
{
    for pair in pairs {
        print_pair(printer, writer, pair)?;
    }
    Ok(())
}

/// Prints the lines of an image.
fn print_image<W: Write>(
    printer: &mut Printer,
    writer: &mut Sink<W>,
    name: &[u8],
    image: &ImageRef<'_>,
) -> Result<(), Failed>
    requires { length name.now ≤ 16 }
    ensures ok { OnOk result (Prints (image_alone name.now (image_of image.now))
        (bytes_written W.contents writer.old) (bytes_written W.contents writer.new) printer.old printer.new) }
    ensures err { OnErr result (PrintsFront (image_alone name.now (image_of image.now))
        (bytes_written W.contents writer.old) (bytes_written W.contents writer.new) printer.old) }
    ensures failed { OnErr result (sink_failed writer.new ≡ true) }
{
    print_sizes(printer, writer, name, image.size, image.end)?;
    print_words(printer, writer, image.words)?;
    print_count(printer, writer, b"roots", image.roots.len())?;
    print_words(printer, writer, image.roots)?;
    Ok(())
}

/// Prints the lines of the pairs and the line `end`.
fn print_certificate<W: Write>(
    printer: &mut Printer,
    writer: &mut Sink<W>,
    pairs: &[Pair],
) -> Result<(), Failed>
    ensures ok { OnOk result (Prints (certificate_lines (map addresses pairs.now))
        (bytes_written W.contents writer.old) (bytes_written W.contents writer.new) printer.old printer.new) }
    ensures err { OnErr result (PrintsFront (certificate_lines (map addresses pairs.now))
        (bytes_written W.contents writer.old) (bytes_written W.contents writer.new) printer.old) }
    ensures failed { OnErr result (sink_failed writer.new ≡ true) }
{
    print_count(printer, writer, b"pairs", pairs.len())?;
    print_pairs(printer, writer, pairs)?;
    print_line(printer, writer, b"end")?;
    Ok(())
}

/// Prints all lines of two images and pairs.
fn print_text<W: Write>(
    printer: &mut Printer,
    writer: &mut Sink<W>,
    old: &ImageRef<'_>,
    new: &ImageRef<'_>,
    pairs: &[Pair],
) -> Result<(), Failed>
    ensures ok { OnOk result (Prints (lines_of (pair_of old.now new.now pairs.now))
        (bytes_written W.contents writer.old) (bytes_written W.contents writer.new) printer.old printer.new) }
    ensures err { OnErr result (PrintsFront (lines_of (pair_of old.now new.now pairs.now))
        (bytes_written W.contents writer.old) (bytes_written W.contents writer.new) printer.old) }
    ensures failed { OnErr result (sink_failed writer.new ≡ true) }
{
    print_heading(printer, writer, old.raws)?;
    print_image(printer, writer, b"old", old)?;
    print_image(printer, writer, b"new", new)?;
    print_certificate(printer, writer, pairs)?;
    Ok(())
}

/// Writes the text of two images and pairs. If the writer fails, a prefix of the text went out. Does not allocate.
pub fn write_pair<W: Write>(
    writer: &mut Sink<W>,
    old: ImageRef<'_>,
    new: ImageRef<'_>,
    pairs: &[Pair],
) -> Result<(), WriteFault>
    requires { HasText (pair_of old new pairs.now) }
    ensures ok { OnOk result (Appends
        (bytes_written W.contents writer.old) (bytes_written W.contents writer.new)
        (spelling (pair_of old.entry new.entry pairs.now))) }
    ensures err { OnErr result (SendsFront
        (bytes_written W.contents writer.old) (bytes_written W.contents writer.new)
        (spelling (pair_of old.entry new.entry pairs.now))) }
    ensures failed { OnErr result (sink_failed writer.new ≡ true) }
{
    let mut printer = Printer::new();
    let Ok(()) = print_text(&mut printer, writer, &old, &new, pairs) else {
        return Err(WriteFault::Write);
    };
    let Ok(()) = printer.flush(writer) else {
        return Err(WriteFault::Write);
    };
    Ok(())
}
