ghost use Rattle.gc_graph.specs.Streams.{bytes_left, bytes_written, source_failed};
ghost use Rattle.gc_check.specs.Texts.{IsTextCheck};

use crate::parallel::Parallel;
use gc_cert::PairFault;
use gc_check::{RunFault, Verdict, check_text_by};
use gc_graph::{Sink, Source};
use std::alloc::Global;
use std::io::{Read, Write};
use std::thread::Threads;

/// Reads a pair text, checks the pair in several threads, and writes the line of the verdict. The calling thread reads
/// and writes. Returns `Pair` with the first fault if the text is not a pair text, `NoMemory` if an allocation fails, and
/// `Write` if the writer fails.
pub fn check_text_par<R: Read, W: Write>(
    rt: &(impl Threads + Sync),
    alloc: Global,
    reader: &mut Source<R>,
    writer: &mut Sink<W>,
) -> Result<Verdict, RunFault>
    ensures { IsTextCheck (bytes_left R.remaining reader.old) (source_failed reader.new)
        (bytes_written W.contents) writer.old writer.new result }
{
    check_text_by(&Parallel::new(rt), alloc, reader, writer)
}
