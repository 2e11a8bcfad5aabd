ghost use Rattle.std.specs.Prelude.{◌≡◌, ◌≤◌, ◌<◌, IfOk};
ghost use Rattle.gc_graph.specs.Limits.{most_words};
ghost use Rattle.gc_graph.specs.Machine.{HasMutator};

use gc_graph::{NoMemory, Number, Op, Plain, Reply, Slot, View};
use gc_heap::Heap;
use gc_words::{NewAddr, OldAddr, Space};
use std::alloc::Global;
use std::process::Abort;
use std::test::Fail;
use test_kit::commands::new;

/// Performs a command of the first mutator and keeps its reply.
fn keep_reply(heap: &mut Heap, op: &Op, replies: &mut Vec<Reply>) -> Result<(), NoMemory>
    requires { 0 < heap.old.mutators }
    ensures { heap.new.mutators ≡ heap.old.mutators }
{
    // The prover knows the elements of a list of replies only if the function names a view.
    let _named = View::Nil;
    match replies.push(heap.apply(0, op)) {
        Ok(()) => Ok(()),
        Err(_) => Err(NoMemory),
    }
}

/// Returns the replies to one mutator's commands in a heap of `size` words.
fn replies(alloc: Global, size: u32, commands: &[Op]) -> Result<Vec<Reply>, NoMemory>
    requires low { 1 ≤ size }
    requires high { size ≤ most_words }
{
    let mut heap = Heap::new(alloc, size, 1)?;
    let mut replies = Vec::new(alloc);
    for op in commands {
        keep_reply(&mut heap, op, &mut replies)?;
    }
    Ok(replies)
}

/// Returns the replies of the plain machine to the same commands.
fn plain_replies(alloc: Global, size: u32, commands: &[Op]) -> Result<Vec<Reply>, NoMemory>
    requires low { 1 ≤ size }
    requires high { size ≤ most_words }
{
    let mut plain = Plain::new(alloc, size, 1)?;
    let mut replies = Vec::new(alloc);
    for op in commands {
        keep_plain_reply(&mut plain, op, &mut replies)?;
    }
    Ok(replies)
}

fn keep_plain_reply(plain: &mut Plain, op: &Op, replies: &mut Vec<Reply>) -> Result<(), NoMemory>
    requires { HasMutator plain.old.graph 0 }
    ensures { HasMutator plain.new.graph 0 }
{
    let _named = View::Nil;
    let reply = plain.apply(0, op)?;
    match replies.push(reply) {
        Ok(()) => Ok(()),
        Err(_) => Err(NoMemory),
    }
}

/// Asserts that a heap and the plain machine give these replies to one mutator's commands.
fn expect_replies(
    rt: &impl Abort,
    alloc: Global,
    size: u32,
    commands: &[Op],
    expected: &[Reply],
) -> Result<(), Fail>
    requires low { 1 ≤ size }
    requires high { size ≤ most_words }
{
    let replies = replies(alloc, size, commands)?;
    assert_eq!(rt; replies.as_slice(), expected);
    let plain = plain_replies(alloc, size, commands)?;
    assert_eq!(rt; plain.as_slice(), expected);
    Ok(())
}

fn object(kind: u8, len: u16) -> Reply {
    Reply::Saw(View::Obj { kind, len })
}

#[test]
fn no_room_at_all(rt: HostRuntime) -> Result<(), Fail> {
    let r0 = Slot::own(0).ok_or("slot")?;
    expect_replies(&rt, rt.alloc(), 1, &[new(r0, 0, 0)], &[Reply::Full])
}

#[test]
fn full_after_one_object(rt: HostRuntime) -> Result<(), Fail> {
    let r0 = Slot::own(0).ok_or("slot")?;
    let r1 = Slot::own(1).ok_or("slot")?;
    let commands = [new(r0, 3, 4), new(r1, 0, 0), Op::Look { s: r1 }];
    let expected = [Reply::Made, Reply::Full, Reply::Saw(View::Nil)];
    expect_replies(&rt, rt.alloc(), 7, &commands, &expected)
}

#[test]
fn greatest_number(rt: HostRuntime) -> Result<(), Fail> {
    let r0 = Slot::own(0).ok_or("slot")?;
    let n = Number::new(9223372036854775807).ok_or("number")?;
    let commands = [Op::Num { d: r0, n }, Op::Look { s: r0 }];
    let expected = [Reply::Done, Reply::Saw(View::Num(n))];
    expect_replies(&rt, rt.alloc(), 7, &commands, &expected)
}

#[test]
fn no_commands_no_replies(rt: HostRuntime) -> Result<(), Fail> {
    expect_replies(&rt, rt.alloc(), 8, &[], &[])
}

#[test]
fn cycle_of_two(rt: HostRuntime) -> Result<(), Fail> {
    let r0 = Slot::own(0).ok_or("slot")?;
    let r1 = Slot::own(1).ok_or("slot")?;
    let r2 = Slot::own(2).ok_or("slot")?;
    let r3 = Slot::own(3).ok_or("slot")?;
    let commands = [
        new(r0, 1, 2),
        new(r1, 2, 1),
        Op::Put { s: r0, i: 0, t: r1 },
        Op::Put { s: r1, i: 0, t: r0 },
        Op::Put { s: r0, i: 1, t: r0 },
        Op::Get { d: r2, s: r0, i: 0 },
        Op::Get { d: r2, s: r2, i: 0 },
        Op::Same { s: r2, t: r0 },
        Op::Get { d: r3, s: r0, i: 1 },
        Op::Same { s: r3, t: r2 },
    ];
    let expected = [
        Reply::Made,
        Reply::Made,
        Reply::Done,
        Reply::Done,
        Reply::Done,
        object(2, 1),
        object(1, 2),
        Reply::Yes,
        object(1, 2),
        Reply::Yes,
    ];
    expect_replies(&rt, rt.alloc(), 32, &commands, &expected)
}

#[test]
fn raw_object_holds_numbers(rt: HostRuntime) -> Result<(), Fail> {
    let r0 = Slot::own(0).ok_or("slot")?;
    let r1 = Slot::own(1).ok_or("slot")?;
    let r2 = Slot::own(2).ok_or("slot")?;
    let zero = Number::new(0).ok_or("number")?;
    let most = Number::new(9223372036854775807).ok_or("number")?;
    let commands = [
        Op::NewRaw {
            d: r0,
            kind: 7,
            len: 2,
        },
        Op::Look { s: r0 },
        Op::Get { d: r1, s: r0, i: 1 },
        Op::Put { s: r0, i: 0, t: r2 },
        Op::Put { s: r0, i: 0, t: r0 },
        Op::Put { s: r0, i: 2, t: r2 },
        Op::Num { d: r1, n: most },
        Op::Put { s: r0, i: 0, t: r1 },
        Op::Get { d: r2, s: r0, i: 0 },
    ];
    let expected = [
        Reply::Made,
        Reply::Saw(View::RawObj { kind: 7, len: 2 }),
        Reply::Saw(View::Num(zero)),
        Reply::NoNumber,
        Reply::NoNumber,
        Reply::NoField,
        Reply::Done,
        Reply::Done,
        Reply::Saw(View::Num(most)),
    ];
    expect_replies(&rt, rt.alloc(), 16, &commands, &expected)
}

#[test]
fn refusals_change_nothing(rt: HostRuntime) -> Result<(), Fail> {
    let r0 = Slot::own(0).ok_or("slot")?;
    let r1 = Slot::own(1).ok_or("slot")?;
    let r2 = Slot::own(2).ok_or("slot")?;
    let g0 = Slot::shared(0).ok_or("slot")?;
    let zero = Number::new(0).ok_or("number")?;
    let commands = [
        Op::Get { d: r1, s: r0, i: 0 },
        Op::Num { d: r0, n: zero },
        Op::Put { s: r0, i: 0, t: r1 },
        Op::Same { s: r0, t: r1 },
        Op::Same { s: r1, t: r2 },
        new(r0, 9, 1),
        Op::Get { d: r1, s: r0, i: 1 },
        Op::Put { s: r0, i: 1, t: r0 },
        Op::Put { s: r0, i: 0, t: r0 },
        Op::Get { d: r1, s: r0, i: 0 },
        Op::Same { s: r0, t: r1 },
        Op::Move { d: g0, s: r1 },
        Op::Look { s: g0 },
    ];
    let expected = [
        Reply::NoObject,
        Reply::Done,
        Reply::NoObject,
        Reply::No,
        Reply::Yes,
        Reply::Made,
        Reply::NoField,
        Reply::NoField,
        Reply::Done,
        object(9, 1),
        Reply::Yes,
        Reply::Done,
        object(9, 1),
    ];
    expect_replies(&rt, rt.alloc(), 8, &commands, &expected)
}

#[test]
fn exactly_full(rt: HostRuntime) -> Result<(), Fail> {
    let r0 = Slot::own(0).ok_or("slot")?;
    let mut commands = vec![in rt.alloc(); new(r0, 255, 65535); 16]?;
    commands.push(new(r0, 0, 65518))?;
    commands.push(new(r0, 0, 0))?;
    let mut expected = vec![in rt.alloc(); Reply::Made; 15]?;
    expected.push(Reply::Full)?;
    expected.push(Reply::Made)?;
    expected.push(Reply::Full)?;
    expect_replies(&rt, rt.alloc(), 1048576, &commands, &expected)
}

/// Returns a heap of 9 words with an object of kind 1 and two fields in r0.
fn with_an_object(rt: &impl Abort, alloc: Global, r0: Slot) -> Result<Heap, NoMemory>
    ensures { IfOk result (λ heap. heap.mutators ≡ 1) }
{
    let mut heap = Heap::new(alloc, 9, 1)?;
    expect(rt, &mut heap, &new(r0, 1, 2), Reply::Made);
    Ok(heap)
}

/// Asserts that a command of the first mutator gets this reply.
fn expect(rt: &impl Abort, heap: &mut Heap, op: &Op, reply: Reply)
    requires { 0 < heap.old.mutators }
    ensures { heap.new.mutators ≡ heap.old.mutators }
{
    assert_eq!(rt; heap.apply(0, op), reply);
}

/// Asserts that the heap's image has these words, of which the last is before its end.
fn expect_words(rt: &impl Abort, heap: &Heap, words: &[u64]) {
    let image = heap.image();
    assert_eq!(rt; image.words, words);
    assert_eq!(rt; image.end as usize, words.len());
}

#[test]
fn words_of_an_object(rt: HostRuntime) -> Result<(), Fail> {
    let r0 = Slot::own(0).ok_or("slot")?;
    let mut heap = with_an_object(&rt, rt.alloc(), r0)?;
    expect(&rt, &mut heap, &Op::Put { s: r0, i: 1, t: r0 }, Reply::Done);
    expect_words(&rt, &heap, &[0, 16842754, 0, 0, 2]);
    let image = heap.image();
    assert_eq!(rt;
        (image.size, image.roots.len(), heap.space().end()),
        (9, 32, 5)
    );
    assert_eq!(rt; heap.roots().get(16).copied(), Some(2));
    assert_eq!(rt; heap.target_root(16), Some(OldAddr(1)));
    Ok(())
}

#[test]
fn links_are_no_matter_of_mutators(rt: HostRuntime) -> Result<(), Fail> {
    let r0 = Slot::own(0).ok_or("slot")?;
    let mut heap = with_an_object(&rt, rt.alloc(), r0)?;
    let Some(at) = heap.target_root(16) else {
        return Err("no object".into());
    };
    heap.set_link(at, NewAddr(7));
    expect_words(&rt, &heap, &[0, 16842754, 7, 0, 0]);
    expect(&rt, &mut heap, &Op::Look { s: r0 }, object(1, 2));
    heap.clear_links();
    expect_words(&rt, &heap, &[0, 16842754, 0, 0, 0]);
    Ok(())
}

#[test]
fn another_space_is_put_in_place(rt: HostRuntime) -> Result<(), Fail> {
    let r0 = Slot::own(0).ok_or("slot")?;
    let space = Space::new(rt.alloc(), 3)?;
    let roots = vec![in rt.alloc(); 0u64; 32]?;
    let mut heap = with_an_object(&rt, rt.alloc(), r0)?;
    let (former_space, former_roots) = heap.replace(space, roots);
    assert_eq!(rt; former_space.words(), [0, 16842754, 0, 0, 0].as_slice());
    assert_eq!(rt; former_roots.get(16).copied(), Some(2));
    expect_words(&rt, &heap, &[0]);
    expect(&rt, &mut heap, &new(r0, 1, 0), Reply::Made);
    expect(&rt, &mut heap, &new(r0, 1, 0), Reply::Full);
    Ok(())
}
