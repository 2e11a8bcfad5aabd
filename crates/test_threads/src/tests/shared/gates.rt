//! Tests of scripts in threads: however their calls interleave, the history has each script in order. Gates force the
//! interleaving.

ghost use Rattle.std.specs.Prelude.{◌≡◌, IfOk, vec_len};

use gc_copy::Step;
use gc_graph::{Number, Op, Reply, Slot, View};
use gc_shared::{Gate, ThreadsFault, run_threads};
use gc_world::{Answer, Event, World};
use std::alloc::{AllocError, Global};
use std::process::Abort;
use std::sync::Wait;
use std::sync::atomic::{AtomicBool, Ordering};
use std::test::Fail;
use std::thread;
use std::thread::Threads;
use std::time::{Clock, Duration};

/// The most milliseconds that a gate waits.
const TURNS: u32 = 5000;

/// Waits until the flag is set. Returns false if it is not set in time.
fn waited<R: Clock>(rt: &R, flag: &AtomicBool) -> bool {
    for _ in 0..TURNS {
        if flag.load(Ordering::SeqCst) {
            return true;
        }
        thread::sleep(rt, Duration::from_millis(1));
    }
    flag.load(Ordering::SeqCst)
}

fn one(alloc: Global, first: &[Op]) -> Result<Vec<Vec<Op>>, AllocError>
    ensures { IfOk result (λ scripts. vec_len scripts ≡ 1) }
{
    let mut scripts = Vec::new(alloc);
    scripts.push(Vec::from_slice(alloc, first)?)?;
    Ok(scripts)
}

fn two(alloc: Global, first: &[Op], second: &[Op]) -> Result<Vec<Vec<Op>>, AllocError>
    ensures { IfOk result (λ scripts. vec_len scripts ≡ 2) }
{
    let mut scripts = Vec::new(alloc);
    scripts.push(Vec::from_slice(alloc, first)?)?;
    scripts.push(Vec::from_slice(alloc, second)?)?;
    Ok(scripts)
}

/// Returns one command for each of two mutators: the first sets `g0` to 1, the second sets `g1` to 2.
fn two_numbers(alloc: Global) -> Result<Vec<Vec<Op>>, Fail>
    ensures { IfOk result (λ scripts. vec_len scripts ≡ 2) }
{
    let first = Op::Num {
        d: Slot::shared(0).ok_or("slot")?,
        n: Number::new(1).ok_or("number")?,
    };
    let second = Op::Num {
        d: Slot::shared(1).ok_or("slot")?,
        n: Number::new(2).ok_or("number")?,
    };
    Ok(two(alloc, &[first], &[second])?)
}

/// Returns two scripts. The first writes 5 to the field of a new shared object, and the second reads the field.
fn write_and_read() -> Result<([Op; 3], [Op; 1]), Fail> {
    let g0 = Slot::shared(0).ok_or("slot")?;
    let r0 = Slot::own(0).ok_or("slot")?;
    let r1 = Slot::own(1).ok_or("slot")?;
    let five = Number::new(5).ok_or("number")?;
    let writes = [
        Op::New {
            d: g0,
            kind: 1,
            len: 1,
        },
        Op::Num { d: r0, n: five },
        Op::Put { s: g0, i: 0, t: r0 },
    ];
    let reads = [Op::Get { d: r1, s: g0, i: 0 }];
    Ok((writes, reads))
}

/// Makes the second mutator's first command wait for the first mutator's third.
#[derive(Drop)]
struct WaitsForWrite<'a, R> {
    rt: &'a R,
    written: AtomicBool,
}

impl<'a, R: Clock> Gate for WaitsForWrite<'a, R> {
    fn before(&self, seat: u32, n: u64) -> bool {
        if seat == 1 && n == 0 {
            waited(self.rt, &self.written)
        } else {
            true
        }
    }

    fn after(&self, seat: u32, n: u64) {
        if seat == 0 && n == 2 {
            self.written.store(true, Ordering::SeqCst);
        }
    }
}

/// Runs the two scripts in threads with a collector of 40 turns, the second after the first's third command. Asserts how
/// many events there are, and how often each mutator got an answer.
fn expect_after_write<R: Threads + Wait + Clock + Abort + Sync>(
    rt: &R,
    alloc: Global,
    scripts: Vec<Vec<Op>>,
    events: usize,
    answers: &[(u8, Answer, u32)],
) -> Result<(), Fail>
    requires { vec_len scripts ≡ 2 }
{
    let gate = WaitsForWrite {
        rt,
        written: AtomicBool::new(false),
    };
    let world = run_threads(rt, alloc, 64, scripts, 40, &gate)?;
    expect_answers(rt, &world, events, answers);
    Ok(())
}

/// Asserts how many events there are, and how often each mutator got an answer.
fn expect_answers(rt: &impl Abort, world: &World, events: usize, answers: &[(u8, Answer, u32)]) {
    assert_eq!(rt; world.history().len(), events);
    for (m, answer, count) in answers {
        assert!(rt; answers_of(world, *m, *answer) == *count);
    }
}

/// Returns the answer that shows the number 5.
fn saw_five() -> Result<Answer, Fail> {
    let five = Number::new(5).ok_or("number")?;
    Ok(Answer::Mutator(Reply::Saw(View::Num(five))))
}

#[test]
fn a_write_is_seen(rt: HostRuntime) -> Result<(), Fail> {
    let (writes, reads) = write_and_read()?;
    let scripts = two(rt.alloc(), &writes, &reads)?;
    let answers = [
        (0, Answer::Mutator(Reply::Made), 1),
        (0, Answer::Mutator(Reply::Done), 2),
        (1, saw_five()?, 1),
    ];
    expect_after_write(&rt, rt.alloc(), scripts, 44, &answers)
}

/// Returns two scripts. The first writes 5 to the second field of a new shared raw object. The second reads that field,
/// and tries to write a reference to the first field.
fn write_and_read_raw() -> Result<([Op; 3], [Op; 2]), Fail> {
    let g0 = Slot::shared(0).ok_or("slot")?;
    let r0 = Slot::own(0).ok_or("slot")?;
    let r1 = Slot::own(1).ok_or("slot")?;
    let five = Number::new(5).ok_or("number")?;
    let writes = [
        Op::NewRaw {
            d: g0,
            kind: 1,
            len: 2,
        },
        Op::Num { d: r0, n: five },
        Op::Put { s: g0, i: 1, t: r0 },
    ];
    let reads = [
        Op::Get { d: r1, s: g0, i: 1 },
        Op::Put { s: g0, i: 0, t: g0 },
    ];
    Ok((writes, reads))
}

#[test]
fn a_write_to_a_raw_object_is_seen(rt: HostRuntime) -> Result<(), Fail> {
    let (writes, reads) = write_and_read_raw()?;
    let scripts = two(rt.alloc(), &writes, &reads)?;
    let answers = [
        (0, Answer::Mutator(Reply::Made), 1),
        (0, Answer::Mutator(Reply::Done), 2),
        (1, saw_five()?, 1),
        (1, Answer::Mutator(Reply::NoNumber), 1),
    ];
    expect_after_write(&rt, rt.alloc(), scripts, 45, &answers)
}

/// Returns how many commands of mutator m got this answer.
fn answers_of(world: &World, m: u8, answer: Answer) -> u32 {
    let mut count: u32 = 0;
    for entry in world.history() {
        if let Event::Mutate { m: by, op: _ } = entry.event() {
            if by == m && entry.answer() == answer {
                count = count.saturating_add(1);
            }
        }
    }
    count
}

/// Makes the first commands of both mutators wait for each other.
#[derive(Drop)]
struct Meet<'a, R> {
    rt: &'a R,
    first: AtomicBool,
    second: AtomicBool,
}

impl<'a, R: Clock> Gate for Meet<'a, R> {
    fn before(&self, seat: u32, n: u64) -> bool {
        if n != 0 || seat > 1 {
            return true;
        }
        if seat == 0 {
            self.first.store(true, Ordering::SeqCst);
            waited(self.rt, &self.second)
        } else {
            self.second.store(true, Ordering::SeqCst);
            waited(self.rt, &self.first)
        }
    }

    fn after(&self, seat: u32, n: u64) {}
}

/// If the scripts ran one after the other, the gate would time out.
#[test]
fn two_threads_meet(rt: HostRuntime) -> Result<(), Fail> {
    let _named = View::Nil;
    let scripts = two_numbers(rt.alloc())?;
    let gate = Meet {
        rt: &rt,
        first: AtomicBool::new(false),
        second: AtomicBool::new(false),
    };
    let world = run_threads(&rt, rt.alloc(), 8, scripts, 0, &gate)?;
    assert_eq!(rt; world.history().len(), 2);
    assert!(rt; answers_of(&world, 0, Answer::Mutator(Reply::Done)) == 1);
    assert!(rt; answers_of(&world, 1, Answer::Mutator(Reply::Done)) == 1);
    Ok(())
}

/// Ends the first mutator's thread before its first call.
#[derive(Drop)]
struct RefusesFirst {
    second_called: AtomicBool,
}

impl Gate for RefusesFirst {
    fn before(&self, seat: u32, n: u64) -> bool {
        seat != 0
    }

    fn after(&self, seat: u32, n: u64) {
        if seat == 1 && n == 0 {
            self.second_called.store(true, Ordering::SeqCst);
        }
    }
}

#[test]
fn a_refused_thread_leaves_the_others(rt: HostRuntime) -> Result<(), Fail> {
    let _named = View::Nil;
    let scripts = two_numbers(rt.alloc())?;
    let gate = RefusesFirst {
        second_called: AtomicBool::new(false),
    };
    match run_threads(&rt, rt.alloc(), 8, scripts, 0, &gate) {
        Ok(_world) => panic!(rt; "ran"),
        Err(fault) => assert_eq!(rt; fault, ThreadsFault::Gate { seat: 0, n: 0 }),
    }
    assert!(rt; gate.second_called.load(Ordering::SeqCst));
    Ok(())
}

/// Ends every thread before its first call.
struct RefusesAll;

impl Gate for RefusesAll {
    fn before(&self, seat: u32, n: u64) -> bool {
        false
    }

    fn after(&self, seat: u32, n: u64) {}
}

#[test]
fn the_least_seat_is_named(rt: HostRuntime) -> Result<(), Fail> {
    let _named = View::Nil;
    let scripts = two_numbers(rt.alloc())?;
    match run_threads(&rt, rt.alloc(), 8, scripts, 1, &RefusesAll) {
        Ok(_world) => panic!(rt; "ran"),
        Err(fault) => assert_eq!(rt; fault, ThreadsFault::Gate { seat: 0, n: 0 }),
    }
    Ok(())
}

/// Makes the command wait for the collector's first turn, and the collector's second turn for the command.
#[derive(Drop)]
struct Between<'a, R> {
    rt: &'a R,
    turned: AtomicBool,
    called: AtomicBool,
}

impl<'a, R: Clock> Gate for Between<'a, R> {
    fn before(&self, seat: u32, n: u64) -> bool {
        if seat == 0 {
            waited(self.rt, &self.turned)
        } else if n == 1 {
            waited(self.rt, &self.called)
        } else {
            true
        }
    }

    fn after(&self, seat: u32, n: u64) {
        if seat == 0 {
            self.called.store(true, Ordering::SeqCst);
        } else {
            self.turned.store(true, Ordering::SeqCst);
        }
    }
}

#[test]
fn a_command_between_two_turns(rt: HostRuntime) -> Result<(), Fail> {
    let _named = View::Nil;
    let nil = Op::Nil {
        d: Slot::own(0).ok_or("slot")?,
    };
    let scripts = one(rt.alloc(), &[nil])?;
    let gate = Between {
        rt: &rt,
        turned: AtomicBool::new(false),
        called: AtomicBool::new(false),
    };
    let world = run_threads(&rt, rt.alloc(), 8, scripts, 2, &gate)?;
    let history = world.history();
    assert_eq!(rt; history.len(), 3);
    let command = Event::Mutate { m: 0, op: nil };
    assert!(rt; history[1].event() == command);
    assert!(rt; history[1].answer() == Answer::Mutator(Reply::Done));
    Ok(())
}

/// Shows that `after` runs only after the call. The teller stays in `after` until the listener asks for its second
/// call, so the listener has then made its first. The listener makes its first call only when the teller is in
/// `after`. If `after` ran before the teller's call, the listener's first call would come before it in the history.
#[derive(Drop)]
struct Told<'a, R> {
    rt: &'a R,
    teller: u32,
    call: u64,
    told: AtomicBool,
    answered: AtomicBool,
}

impl<'a, R: Clock> Gate for Told<'a, R> {
    fn before(&self, seat: u32, n: u64) -> bool {
        if seat == self.teller {
            return true;
        }
        if n == 0 {
            return waited(self.rt, &self.told);
        }
        self.answered.store(true, Ordering::SeqCst);
        true
    }

    fn after(&self, seat: u32, n: u64) {
        if seat == self.teller && n == self.call {
            self.told.store(true, Ordering::SeqCst);
            let _ = waited(self.rt, &self.answered);
        }
    }
}

#[test]
fn a_command_is_told_once_it_is_made(rt: HostRuntime) -> Result<(), Fail> {
    let _named = View::Nil;
    let (writes, _reads) = write_and_read()?;
    let read = Op::Get {
        d: Slot::own(1).ok_or("slot")?,
        s: Slot::shared(0).ok_or("slot")?,
        i: 0,
    };
    let scripts = two(rt.alloc(), &writes, &[read, read])?;
    let gate = Told {
        rt: &rt,
        teller: 0,
        call: 2,
        told: AtomicBool::new(false),
        answered: AtomicBool::new(false),
    };
    let world = run_threads(&rt, rt.alloc(), 64, scripts, 0, &gate)?;
    let answers = [(0, Answer::Mutator(Reply::Made), 1), (1, saw_five()?, 2)];
    expect_answers(&rt, &world, 5, &answers);
    Ok(())
}

#[test]
fn a_step_is_told_once_it_is_made(rt: HostRuntime) -> Result<(), Fail> {
    let _named = View::Nil;
    let nil = Op::Nil {
        d: Slot::own(0).ok_or("slot")?,
    };
    let scripts = one(rt.alloc(), &[nil, nil])?;
    let gate = Told {
        rt: &rt,
        teller: 1,
        call: 0,
        told: AtomicBool::new(false),
        answered: AtomicBool::new(false),
    };
    let world = run_threads(&rt, rt.alloc(), 8, scripts, 1, &gate)?;
    let history = world.history();
    assert_eq!(rt; history.len(), 3);
    assert!(rt; history[0].event() == Event::Collect(Step::Begin));
    Ok(())
}
