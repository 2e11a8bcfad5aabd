ghost use Rattle.std.specs.Prelude.{◌≡◌, ℕ, List, Option, IfSome, IfOk};
ghost use Rattle.gc_graph.specs.Streams.{bytes_left, bytes_written, source_failed, SendsFront};
ghost use Rattle.gc_cert.specs.Grammar.{CertifiedPair, HasText};
ghost use Rattle.gc_cert.specs.Faults.{IsReadAsPair};
ghost use Rattle.gc_cert.specs.Views.{pair_in};
ghost use Rattle.gc_check.specs.Verdict.{verdict_line};
ghost use Rattle.gc_check.specs.Texts.{verdict_on, OnYes, Promises, TellsFront, IsTextCheck};
ghost use Rattle.gc_check.specs.declared.verdict.Verdict.{Verdict};

use crate::checks::{Checks, Sequential};
use crate::verdict::{CheckFault, RunFault, Verdict};
use crate::verdict_text::write_verdict;
use gc_cert::{PairFault, PairFile, read_pair, texts_have_one_reading};
use gc_graph::{NoMemory, Sink, Source};
use gc_words::no_fault_where_certified;
use std::alloc::Global;
use std::io::{Read, Write};

/// Reads a pair text, checks the pair, and writes the line of the verdict. Returns `Pair` with the first fault if the
/// text is not a pair text, `NoMemory` if an allocation fails, and `Write` if the writer fails.
pub fn check_text<R: Read, W: Write>(
    alloc: Global,
    reader: &mut Source<R>,
    writer: &mut Sink<W>,
) -> Result<Verdict, RunFault>
    ensures { IsTextCheck (bytes_left R.remaining reader.old) (source_failed reader.new)
        (bytes_written W.contents) writer.old writer.new result }
{
    check_text_by(&Sequential, alloc, reader, writer)
}

/// Reads a pair text, checks the pair with the given checker, and writes the line of the verdict. The calling thread
/// reads and writes. Returns `Pair` with the first fault if the text is not a pair text, `NoMemory` if an allocation
/// fails, and `Write` if the writer fails.
pub fn check_text_by<C: Checks, R: Read, W: Write>(
    checker: &C,
    alloc: Global,
    reader: &mut Source<R>,
    writer: &mut Sink<W>,
) -> Result<Verdict, RunFault>
    requires { C.can_check checker.now }
    // This checker said yes to the images that the text spells.
    ensures asked { IfOk result (λ verdict. IfSome (bytes_left R.remaining reader.old)
        (λ text. (pair : CertifiedPair) → IsReadAsPair pair text → OnYes (C.says_yes checker.now) verdict pair)) }
    ensures checked { IsTextCheck (bytes_left R.remaining reader.old) (source_failed reader.new)
        (bytes_written W.contents) writer.old writer.new result }
{
    fronts_tell_verdicts();
    let file = match read_pair(alloc, reader) {
        Ok(file) => file,
        Err(PairFault::NoMemory) => return Err(RunFault::NoMemory),
        Err(fault) => return Err(RunFault::Pair(fault)),
    };
    let verdict = verdict_on_text(checker, alloc, &file)?;
    match write_verdict(writer, &verdict) {
        Ok(()) => Ok(verdict),
        Err(_) => Err(RunFault::Write),
    }
}

// If the text spells the pair that was read, a prefix of the line of the verdict on that pair is one of the verdict on the text.
#[tactic(auto, using(crate::proofs::Texts::front_of_text))]
fn fronts_tell_verdicts()
    ensures { (text : Option (List ℕ)) (verdict : Verdict) (file : CertifiedPair) (old new : Option (List ℕ))
        → IfSome text (λ text. IsReadAsPair file text) → verdict ≡ verdict_on file → SendsFront old new (verdict_line verdict)
        → TellsFront text old new }
{}

// Returns the checker's answer as a verdict. If a text spells this pair, the answer is about each pair that the text spells.
fn verdict_on_text<C: Checks>(
    checker: &C,
    alloc: Global,
    file: &PairFile,
) -> Result<Verdict, NoMemory>
    requires can { C.can_check checker.now }
    requires text { HasText (pair_in file.now) }
    ensures asked { IfOk result (λ verdict. (text : Option (List ℕ)) → IfSome text (λ text. IsReadAsPair (pair_in file.now) text)
        → IfSome text (λ text. (pair : CertifiedPair) → IsReadAsPair pair text → OnYes (C.says_yes checker.now) verdict pair)) }
    ensures verdict { IfOk result (λ verdict. verdict ≡ verdict_on (pair_in file.now)) }
    ensures promised { IfOk result (λ verdict. (text : Option (List ℕ)) → IfSome text (λ text. IsReadAsPair (pair_in file.now) text)
        → IfSome text (λ text. (pair : CertifiedPair) → IsReadAsPair pair text → Promises verdict pair)) }
{
    texts_have_one_reading();
    verdict_of(checker, alloc, file)
}

// Returns the checker's answer as a verdict.
fn verdict_of<C: Checks>(checker: &C, alloc: Global, file: &PairFile) -> Result<Verdict, NoMemory>
    requires can { C.can_check checker.now }
    requires text { HasText (pair_in file.now) }
    ensures asked { IfOk result (λ verdict. OnYes (C.says_yes checker.now) verdict (pair_in file.now)) }
    ensures verdict { IfOk result (λ verdict. verdict ≡ verdict_on (pair_in file.now)) }
    ensures promised { IfOk result (λ verdict. Promises verdict (pair_in file.now)) }
{
    no_fault_where_certified();
    match checker.check(alloc, file.old.as_ref(), file.new.as_ref(), &file.pairs) {
        Ok(yes) => Ok(Verdict::Yes { pairs: yes.pairs }),
        Err(CheckFault::Refused(refusal)) => Ok(Verdict::Refused(refusal)),
        Err(CheckFault::NoMemory) => Err(NoMemory),
    }
}
