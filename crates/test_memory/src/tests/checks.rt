//! The reader of pair texts, and the checker: on its own and in threads, on images and on texts.

ghost use Rattle.std.specs.Prelude.{◌<◌, ◌^◌, length};

use super::expecting::expect;
use super::marks::{fence, retried};
use super::texts::{Fixed, ONE_KEPT};
use gc_cert::{PairFault, PairFile, read_pair};
use gc_check::{
    CheckFault, Comparison, Path, Refusal, RunFault, Tables, Verdict, Yes, check, check_text,
    compare, infer, path_to,
};
use gc_graph::{NoMemory, Sink, Source};
use gc_par::{check_par, check_text_par, compare_par};
use gc_words::{ImageRef, NewAddr, OldAddr, Pair};
use std::alloc::{AllocError, Global};
use std::process::Abort;
use std::test::Fail;
use std::thread::Threads;

/// Where a call compares objects.
#[derive(Clone, Copy)]
enum Place {
    Here,
    InThreads,
}

fn image<'a>(size: u32, words: &'a [u64], roots: &'a [u64]) -> ImageRef<'a> {
    ImageRef {
        size,
        end: u32::try_from(words.len()).unwrap_or(0),
        words,
        roots,
        raws: false,
    }
}

fn pair(old: u32, new: u32) -> Pair {
    Pair {
        old: OldAddr(old),
        new: NewAddr(new),
    }
}

/// Two objects; a root refers to the first.
const OLD: [u64; 5] = [0, 16777216, 0, 16777216, 0];

const NEW: [u64; 3] = [0, 16777216, 0];

fn one_kept(alloc: Global) -> Result<PairFile, PairFault> {
    read_pair(alloc, &mut Source::new(ONE_KEPT))
}

#[test]
fn pair_read(rt: HostRuntime) {
    let alloc = rt.alloc();
    fence(alloc);
    let mut read = one_kept(alloc);
    fence(alloc);
    if let Err(PairFault::NoMemory) = read {
        retried(alloc);
        read = one_kept(alloc);
    }
    let file = read.expect(&rt, "a pair");
    expect(&rt, file.old.end == 9 && file.new.end == 5, "the ends");
    expect(
        &rt,
        file.new.words.as_slice() == [0, 16842754, 5, 0, 0].as_slice(),
        "the new words",
    );
    expect(
        &rt,
        file.pairs.as_slice() == [pair(5, 1)].as_slice(),
        "the pairs",
    );
}

fn checked(
    rt: &(impl Threads + Sync),
    alloc: Global,
    place: Place,
    old: ImageRef,
    new: ImageRef,
    cert: &[Pair],
) -> Result<Yes, CheckFault>
    requires { length cert.now < 2 ^ 32 }
{
    match place {
        Place::Here => check(alloc, old, new, cert),
        Place::InThreads => check_par(rt, alloc, old, new, cert),
    }
}

/// Checks a certificate, and tests the answer.
fn expect_answer(
    rt: &(impl Threads + Abort + Sync),
    alloc: Global,
    place: Place,
    old: ImageRef,
    new: ImageRef,
    cert: &[Pair],
    expected: Result<Yes, CheckFault>,
)
    requires { length cert.now < 2 ^ 32 }
{
    fence(alloc);
    let mut answer = checked(rt, alloc, place, old, new, cert);
    fence(alloc);
    if answer == Err(CheckFault::NoMemory) {
        retried(alloc);
        answer = checked(rt, alloc, place, old, new, cert);
    }
    expect(rt, answer == expected, "the answer");
}

#[test]
fn check_of_a_yes(rt: HostRuntime) {
    let old = image(8, &OLD, &[2]);
    let new = image(8, &NEW, &[2]);
    expect_answer(
        &rt,
        rt.alloc(),
        Place::Here,
        old,
        new,
        &[pair(1, 1)],
        Ok(Yes { pairs: 1 }),
    );
}

#[test]
fn check_in_threads(rt: HostRuntime) {
    let old = image(8, &OLD, &[2]);
    let new = image(8, &NEW, &[2]);
    expect_answer(
        &rt,
        rt.alloc(),
        Place::InThreads,
        old,
        new,
        &[pair(1, 1)],
        Ok(Yes { pairs: 1 }),
    );
}

#[test]
fn check_of_a_refusal(rt: HostRuntime) {
    let old = image(8, &NEW, &[2]);
    let new = image(8, &OLD, &[2]);
    let cert = [pair(1, 1), pair(1, 3)];
    let twice = CheckFault::Refused(Refusal::Twice { k: 1 });
    expect_answer(&rt, rt.alloc(), Place::Here, old, new, &cert, Err(twice));
}

/// Returns the words of 4,096 objects with one field each. The field is the number 0, except in object `changed`.
fn long_words(alloc: Global, changed: u32) -> Result<Vec<u64>, AllocError> {
    let mut words = Vec::new(alloc);
    words.push(0)?;
    for k in 0..4096 {
        words.push(16777217)?;
        words.push(0)?;
        words.push(if k == changed { 3 } else { 1 })?;
    }
    Ok(words)
}

/// Returns a pair for each of these objects.
fn long_pairs(alloc: Global) -> Result<Vec<Pair>, AllocError> {
    let mut cert = Vec::new(alloc);
    for k in 0..4096 {
        cert.push(pair(1 + 3 * k, 1 + 3 * k))?;
    }
    Ok(cert)
}

#[test]
fn check_of_many_pairs_in_threads(rt: HostRuntime) -> Result<(), Fail> {
    let words = long_words(rt.alloc(), 4096)?;
    let others = long_words(rt.alloc(), 1000)?;
    let cert = long_pairs(rt.alloc())?;
    assert!(rt; cert.len() <= 4096);
    let old = image(12289, words.as_slice(), &[]);
    let new = image(12289, others.as_slice(), &[]);
    let differs = CheckFault::Refused(Refusal::FieldDiffers { k: 1000, i: 0 });
    expect_answer(
        &rt,
        rt.alloc(),
        Place::InThreads,
        old,
        new,
        cert.as_slice(),
        Err(differs),
    );
    Ok(())
}

/// Makes the checker's tables, and returns the fault of the roots that they show.
fn fault_by_tables(alloc: Global) -> Result<Option<Refusal>, CheckFault> {
    let old = image(8, &OLD, &[2]);
    let new = image(8, &NEW, &[2]);
    let cert = [pair(1, 1)];
    let tables = Tables::new(alloc, old, new, &cert)?;
    Ok(tables.root_fault())
}

#[test]
fn tables_new(rt: HostRuntime) {
    let alloc = rt.alloc();
    fence(alloc);
    let mut fault = fault_by_tables(alloc);
    fence(alloc);
    if fault == Err(CheckFault::NoMemory) {
        retried(alloc);
        fault = fault_by_tables(alloc);
    }
    expect(&rt, fault == Ok(None), "the fault");
}

fn inferred(alloc: Global) -> Result<Vec<Pair>, NoMemory> {
    infer(alloc, image(8, &OLD, &[6]), image(8, &NEW, &[2]))
}

#[test]
fn pairs_inferred(rt: HostRuntime) {
    let alloc = rt.alloc();
    fence(alloc);
    let mut pairs = inferred(alloc);
    fence(alloc);
    if pairs.is_err() {
        retried(alloc);
        pairs = inferred(alloc);
    }
    let pairs = pairs.expect(&rt, "pairs");
    expect(
        &rt,
        pairs.as_slice() == [pair(3, 1)].as_slice(),
        "the pairs",
    );
}

fn compared(
    rt: &(impl Threads + Sync),
    alloc: Global,
    place: Place,
) -> Result<Comparison, NoMemory> {
    let old = image(8, &OLD, &[6]);
    let new = image(8, &NEW, &[2]);
    match place {
        Place::Here => compare(alloc, old, new),
        Place::InThreads => compare_par(rt, alloc, old, new),
    }
}

/// Compares two images, and tests the pairs and the verdict.
fn expect_comparison(rt: &(impl Threads + Abort + Sync), alloc: Global, place: Place) {
    fence(alloc);
    let mut comparison = compared(rt, alloc, place);
    fence(alloc);
    if comparison.is_err() {
        retried(alloc);
        comparison = compared(rt, alloc, place);
    }
    let comparison = comparison.expect(rt, "a comparison");
    expect(
        rt,
        comparison.pairs.as_slice() == [pair(3, 1)].as_slice(),
        "the pairs",
    );
    expect(
        rt,
        comparison.verdict == Verdict::Yes { pairs: 1 },
        "the verdict",
    );
}

#[test]
fn images_compared(rt: HostRuntime) {
    expect_comparison(&rt, rt.alloc(), Place::Here);
}

#[test]
fn images_compared_in_threads(rt: HostRuntime) {
    expect_comparison(&rt, rt.alloc(), Place::InThreads);
}

/// An object at 1 whose field refers to the one at 4.
const LINKED: [u64; 6] = [0, 16777217, 0, 8, 16777216, 0];

fn path_to_the_second(alloc: Global) -> Result<Option<Path>, NoMemory> {
    path_to(alloc, image(8, &LINKED, &[2]), 4)
}

#[test]
fn path_found(rt: HostRuntime) {
    let alloc = rt.alloc();
    fence(alloc);
    let mut found = path_to_the_second(alloc);
    fence(alloc);
    if found.is_err() {
        retried(alloc);
        found = path_to_the_second(alloc);
    }
    let path = found.expect(&rt, "an answer").expect(&rt, "a path");
    expect(&rt, path.place == 0, "the place");
    expect(&rt, path.fields.as_slice() == [0].as_slice(), "the fields");
}

fn text_checked(
    rt: &(impl Threads + Sync),
    alloc: Global,
    place: Place,
    sink: &mut Sink<Fixed>,
) -> Result<Verdict, RunFault> {
    let mut source = Source::new(ONE_KEPT);
    match place {
        Place::Here => check_text(alloc, &mut source, sink),
        Place::InThreads => check_text_par(rt, alloc, &mut source, sink),
    }
}

/// Checks a text, and tests the verdict. A failed call writes nothing.
fn expect_verdict(rt: &(impl Threads + Abort + Sync), alloc: Global, place: Place) {
    let mut sink = Sink::new(Fixed::new());
    fence(alloc);
    let mut answer = text_checked(rt, alloc, place, &mut sink);
    fence(alloc);
    if answer == Err(RunFault::NoMemory) {
        retried(alloc);
        answer = text_checked(rt, alloc, place, &mut sink);
    }
    expect(rt, answer == Ok(Verdict::Yes { pairs: 1 }), "the verdict");
    expect(
        rt,
        sink.into_inner().taken() == b"yes 1\n".as_slice(),
        "the line",
    );
}

#[test]
fn check_of_a_text(rt: HostRuntime) {
    expect_verdict(&rt, rt.alloc(), Place::Here);
}

#[test]
fn check_of_a_text_in_threads(rt: HostRuntime) {
    expect_verdict(&rt, rt.alloc(), Place::InThreads);
}
