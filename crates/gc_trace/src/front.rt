ghost use Rattle.std.specs.Prelude.{◌≡◌, ◌<◌, ◌≤◌, ◌-◌, ◌∷◌, ◌++◌, [], Some, take, decimal, codes, IfSome, MatchOption};
ghost use Rattle.gc_graph.specs.Limits.{most_words};
ghost use Rattle.gc_text.specs.Lines.{space, newline, joined};
ghost use Rattle.gc_text.specs.Reading.{NoneIsFirst};
ghost use Rattle.gc_graph.specs.Range.{IsSlot, IsCommand};
ghost use Rattle.gc_model.specs.Runs.{IsStepWithin};
ghost use Rattle.gc_trace.specs.Grammar.{slot, op_tokens, step_tokens, op_version, step_version, event_tokens, HasLine};
ghost use Rattle.gc_trace.specs.Internal.Headings.{first_line, second_line, IsVersion, AreWorldSizes};
ghost use Rattle.gc_trace.specs.Internal.Fronts.{spaced, FindsToken, FindsTokens};

use crate::trace::{RAW, SIZED};
use gc_graph::{MOST_MUTATORS, MOST_WORDS, Number, Op, Slot};
use gc_model::{Event, Step};
use gc_text::Front;

/// The newest version of the text.
const NEWEST: u64 = 3;

/// Returns the number below 16 that the first byte, or both bytes, spell in decimal, and the number of its digits. To
/// be fast, no branch depends on the number of digits.
#[inline(always)]
fn small_number(first: u8, second: u8) -> Option<(u8, usize)>
    ensures taken { IfSome result (λ found. (found.0 < 16) × (found.1 ≤ 2)
        × (take found.1 (first ∷ second ∷ []) ≡ decimal found.0)) }
    ensures one { 48 ≤ first → first ≤ 57 → second < 48 → result ≡ Some (first - 48, 1) }
    ensures two { first ≡ 49 → 48 ≤ second → second ≤ 53 → result ≡ Some (second - 38, 2) }
{
    if first < b'0' || first > b'9' {
        return None;
    }
    let tens = u32::from(first - b'0');
    let units = u32::from(second.wrapping_sub(b'0'));
    let two = u32::from(units < 10);
    let n = tens + two * (9 * tens + units);
    if n > 15 || two > tens {
        return None;
    }
    Some((n as u8, 1 + two as usize))
}

/// Takes a space and the decimal of a number below 16.
#[inline(always)]
#[tactic(auto, using(crate::proofs::FrontTokens::small_decimal))]
fn next_small_number(front: &mut Front<'_>) -> Option<u8>
    ensures taken { IfSome result (λ n. (n < 16) × (front.old ≡ space ∷ (decimal n ++ front.new))) }
    ensures found { FindsToken (λ n. n < 16) decimal front.old result front.new }
{
    let text = front.rest();
    let [b' ', first, second, ..] = text else {
        return None;
    };
    let (n, count) = small_number(*first, *second)?;
    *front = Front::new(&text[1 + count..]);
    Some(n)
}

/// Takes a space and a slot.
#[inline(always)]
#[tactic(auto, using(crate::proofs::FrontTokens::small_decimal), unfolding(crate::specs::Grammar::slot))]
fn next_slot(front: &mut Front<'_>) -> Option<Slot>
    ensures taken { IfSome result (λ s. front.old ≡ space ∷ (slot s ++ front.new)) }
    ensures found { FindsToken IsSlot slot front.old result front.new }
{
    let text = front.rest();
    let [b' ', letter, first, second, ..] = text else {
        return None;
    };
    let (index, count) = small_number(*first, *second)?;
    let shared = *letter == b'g';
    if !shared && *letter != b'r' {
        return None;
    }
    *front = Front::new(&text[2 + count..]);
    if shared {
        Slot::shared(index)
    } else {
        Slot::own(index)
    }
}

/// Takes a space and the decimal of a number that is at most `most`.
#[inline(always)]
fn next_number(front: &mut Front<'_>, most: u64) -> Option<u64>
    ensures taken { IfSome result (λ n. (n ≤ most) × (front.old ≡ space ∷ (decimal n ++ front.new))) }
    ensures found { FindsToken (λ n. n ≤ most) decimal front.old result front.new }
{
    front.byte(b' ')?;
    front.number(most)
}

#[inline(always)]
#[tactic(auto, unfolding(crate::specs::Grammar::op_tokens))]
fn new_op(front: &mut Front<'_>) -> Option<Op>
    ensures taken { IfSome result (λ op. IsCommand op × (op_version op ≡ 1)
        × (codes "new" ++ front.old ≡ spaced (op_tokens op) front.new)) }
    ensures found { FindsTokens IsCommand op_tokens (codes "new" ++ front.old) result front.new }
{
    let d = next_slot(front)?;
    let kind = next_number(front, 255)? as u8;
    let len = next_number(front, 65535)? as u16;
    Some(Op::New { d, kind, len })
}

#[inline(always)]
#[tactic(auto, unfolding(crate::specs::Grammar::op_tokens))]
fn raw_op(front: &mut Front<'_>) -> Option<Op>
    ensures taken { IfSome result (λ op. IsCommand op × (op_version op ≡ 3)
        × (codes "raw" ++ front.old ≡ spaced (op_tokens op) front.new)) }
    ensures found { FindsTokens IsCommand op_tokens (codes "raw" ++ front.old) result front.new }
{
    let d = next_slot(front)?;
    let kind = next_number(front, 255)? as u8;
    let len = next_number(front, 65535)? as u16;
    Some(Op::NewRaw { d, kind, len })
}

#[inline(always)]
#[tactic(auto, unfolding(crate::specs::Grammar::op_tokens))]
fn num_op(front: &mut Front<'_>) -> Option<Op>
    ensures taken { IfSome result (λ op. IsCommand op × (op_version op ≡ 1)
        × (codes "num" ++ front.old ≡ spaced (op_tokens op) front.new)) }
    ensures found { FindsTokens IsCommand op_tokens (codes "num" ++ front.old) result front.new }
{
    let d = next_slot(front)?;
    let n = Number::new(next_number(front, 9223372036854775807)?)?;
    Some(Op::Num { d, n })
}

#[inline(always)]
#[tactic(auto, unfolding(crate::specs::Grammar::op_tokens))]
fn nil_op(front: &mut Front<'_>) -> Option<Op>
    ensures taken { IfSome result (λ op. IsCommand op × (op_version op ≡ 1)
        × (codes "nil" ++ front.old ≡ spaced (op_tokens op) front.new)) }
    ensures found { FindsTokens IsCommand op_tokens (codes "nil" ++ front.old) result front.new }
{
    let d = next_slot(front)?;
    Some(Op::Nil { d })
}

#[inline(always)]
#[tactic(auto, unfolding(crate::specs::Grammar::op_tokens))]
fn move_op(front: &mut Front<'_>) -> Option<Op>
    ensures taken { IfSome result (λ op. IsCommand op × (op_version op ≡ 1)
        × (codes "move" ++ front.old ≡ spaced (op_tokens op) front.new)) }
    ensures found { FindsTokens IsCommand op_tokens (codes "move" ++ front.old) result front.new }
{
    let d = next_slot(front)?;
    let s = next_slot(front)?;
    Some(Op::Move { d, s })
}

#[inline(always)]
#[tactic(auto, unfolding(crate::specs::Grammar::op_tokens))]
fn get_op(front: &mut Front<'_>) -> Option<Op>
    ensures taken { IfSome result (λ op. IsCommand op × (op_version op ≡ 1)
        × (codes "get" ++ front.old ≡ spaced (op_tokens op) front.new)) }
    ensures found { FindsTokens IsCommand op_tokens (codes "get" ++ front.old) result front.new }
{
    let d = next_slot(front)?;
    let s = next_slot(front)?;
    let i = next_number(front, 65535)? as u16;
    Some(Op::Get { d, s, i })
}

#[inline(always)]
#[tactic(auto, unfolding(crate::specs::Grammar::op_tokens))]
fn put_op(front: &mut Front<'_>) -> Option<Op>
    ensures taken { IfSome result (λ op. IsCommand op × (op_version op ≡ 1)
        × (codes "put" ++ front.old ≡ spaced (op_tokens op) front.new)) }
    ensures found { FindsTokens IsCommand op_tokens (codes "put" ++ front.old) result front.new }
{
    let s = next_slot(front)?;
    let i = next_number(front, 65535)? as u16;
    let t = next_slot(front)?;
    Some(Op::Put { s, i, t })
}

#[inline(always)]
#[tactic(auto, unfolding(crate::specs::Grammar::op_tokens))]
fn same_op(front: &mut Front<'_>) -> Option<Op>
    ensures taken { IfSome result (λ op. IsCommand op × (op_version op ≡ 1)
        × (codes "same" ++ front.old ≡ spaced (op_tokens op) front.new)) }
    ensures found { FindsTokens IsCommand op_tokens (codes "same" ++ front.old) result front.new }
{
    let s = next_slot(front)?;
    let t = next_slot(front)?;
    Some(Op::Same { s, t })
}

#[inline(always)]
#[tactic(auto, unfolding(crate::specs::Grammar::op_tokens))]
fn look_op(front: &mut Front<'_>) -> Option<Op>
    ensures taken { IfSome result (λ op. IsCommand op × (op_version op ≡ 1)
        × (codes "look" ++ front.old ≡ spaced (op_tokens op) front.new)) }
    ensures found { FindsTokens IsCommand op_tokens (codes "look" ++ front.old) result front.new }
{
    let s = next_slot(front)?;
    Some(Op::Look { s })
}

/// Takes a command of this version.
#[inline(always)]
#[tactic(auto, unfolding(crate::specs::Grammar::op_tokens))]
fn op(version: u8, front: &mut Front<'_>) -> Option<Op>
    requires { 1 ≤ version }
    ensures taken { IfSome result (λ op. IsCommand op × (op_version op ≤ version)
        × (front.old ≡ spaced (op_tokens op) front.new)) }
    ensures found { FindsTokens (λ op. IsCommand op × (op_version op ≤ version))
        op_tokens front.old result front.new }
{
    match front.rest() {
        [b'p', b'u', b't', rest @ ..] => {
            *front = Front::new(rest);
            put_op(front)
        }
        [b'g', b'e', b't', rest @ ..] => {
            *front = Front::new(rest);
            get_op(front)
        }
        [b'n', b'u', b'm', rest @ ..] => {
            *front = Front::new(rest);
            num_op(front)
        }
        [b'n', b'e', b'w', rest @ ..] => {
            *front = Front::new(rest);
            new_op(front)
        }
        [b'n', b'i', b'l', rest @ ..] => {
            *front = Front::new(rest);
            nil_op(front)
        }
        [b'm', b'o', b'v', b'e', rest @ ..] => {
            *front = Front::new(rest);
            move_op(front)
        }
        [b's', b'a', b'm', b'e', rest @ ..] => {
            *front = Front::new(rest);
            same_op(front)
        }
        [b'l', b'o', b'o', b'k', rest @ ..] => {
            *front = Front::new(rest);
            look_op(front)
        }
        [b'r', b'a', b'w', rest @ ..] if version >= RAW => {
            *front = Front::new(rest);
            raw_op(front)
        }
        _ => None,
    }
}

/// Takes what follows `begin`: nothing, or a size.
#[inline(always)]
#[tactic(auto, unfolding(crate::specs::Grammar::step_tokens))]
fn begin(version: u8, front: &mut Front<'_>) -> Option<Step>
    requires { 1 ≤ version }
    ensures taken { IfSome result (λ step. IsStepWithin most_words 16 step × (step_version step ≤ version)
        × (codes "begin" ++ front.old ≡ spaced (step_tokens step) front.new)) }
    ensures found { FindsTokens (λ step. IsStepWithin most_words 16 step × (step_version step ≤ version))
        step_tokens (codes "begin" ++ front.old) result front.new }
{
    if version < SIZED || front.rest().first() != Some(&b' ') {
        return Some(Step::Begin);
    }
    let size = next_number(front, u64::from(MOST_WORDS))? as u32;
    if size == 0 {
        return None;
    }
    Some(Step::BeginSized(size))
}

/// Takes the number of a log.
#[inline(always)]
#[tactic(auto, unfolding(crate::specs::Grammar::step_tokens))]
fn apply(front: &mut Front<'_>) -> Option<Step>
    ensures taken { IfSome result (λ step. IsStepWithin most_words 16 step × (step_version step ≡ 1)
        × (codes "apply" ++ front.old ≡ spaced (step_tokens step) front.new)) }
    ensures found { FindsTokens (IsStepWithin most_words 16) step_tokens (codes "apply" ++ front.old) result front.new }
{
    let k = next_small_number(front)?;
    Some(Step::Apply(k))
}

/// Takes a step of this version.
#[inline(always)]
#[tactic(auto, unfolding(crate::specs::Grammar::step_tokens))]
fn step(version: u8, front: &mut Front<'_>) -> Option<Step>
    requires { 1 ≤ version }
    ensures taken { IfSome result (λ step. IsStepWithin most_words 16 step × (step_version step ≤ version)
        × (front.old ≡ spaced (step_tokens step) front.new)) }
    ensures found { FindsTokens (λ step. IsStepWithin most_words 16 step × (step_version step ≤ version))
        step_tokens front.old result front.new }
{
    match front.rest() {
        [b's', b'c', b'a', b'n', rest @ ..] => {
            *front = Front::new(rest);
            Some(Step::Scan)
        }
        [b'a', b'p', b'p', b'l', b'y', rest @ ..] => {
            *front = Front::new(rest);
            apply(front)
        }
        [b'r', b'o', b'o', b't', b's', rest @ ..] => {
            *front = Front::new(rest);
            Some(Step::Roots)
        }
        [b'f', b'l', b'i', b'p', rest @ ..] => {
            *front = Front::new(rest);
            Some(Step::Flip)
        }
        [b'd', b'r', b'o', b'p', rest @ ..] => {
            *front = Front::new(rest);
            Some(Step::Drop)
        }
        [b'b', b'e', b'g', b'i', b'n', rest @ ..] => {
            *front = Front::new(rest);
            begin(version, front)
        }
        _ => None,
    }
}

/// Takes a mutator and its command, of this version.
#[inline(always)]
#[tactic(auto, using(crate::proofs::EventFronts::command_spelled, crate::proofs::EventFronts::collect_spelled))]
fn command(version: u8, front: &mut Front<'_>) -> Option<Event>
    requires { 1 ≤ version }
    ensures taken { IfSome result (λ event. HasLine version event
        × (codes "m" ++ front.old ≡ spaced (event_tokens event) front.new)) }
    ensures found { FindsTokens (HasLine version) event_tokens (codes "m" ++ front.old) result front.new }
{
    let m = next_small_number(front)?;
    front.byte(b' ')?;
    let op = op(version, front)?;
    Some(Event::Mutate { m, op })
}

/// Takes a step of this version, as an event.
#[inline(always)]
#[tactic(auto, using(crate::proofs::EventFronts::command_spelled, crate::proofs::EventFronts::collect_spelled))]
fn collect(version: u8, front: &mut Front<'_>) -> Option<Event>
    requires { 1 ≤ version }
    ensures taken { IfSome result (λ event. HasLine version event
        × (codes "c" ++ front.old ≡ spaced (event_tokens event) front.new)) }
    ensures found { FindsTokens (HasLine version) event_tokens (codes "c" ++ front.old) result front.new }
{
    front.byte(b' ')?;
    let step = step(version, front)?;
    Some(Event::Collect(step))
}

/// Takes an event of this version, without its line feed.
#[inline(always)]
#[tactic(auto, unfolding(crate::specs::Grammar::event_tokens))]
fn event(version: u8, front: &mut Front<'_>) -> Option<Event>
    requires { 1 ≤ version }
    ensures taken { IfSome result (λ event. HasLine version event
        × (front.old ≡ spaced (event_tokens event) front.new)) }
    ensures found { FindsTokens (HasLine version) event_tokens front.old result front.new }
{
    match front.rest() {
        [b'm', rest @ ..] => {
            *front = Front::new(rest);
            command(version, front)
        }
        [b'c', rest @ ..] => {
            *front = Front::new(rest);
            collect(version, front)
        }
        _ => None,
    }
}

/// Takes an event's line of this version, in one pass. Returns `None` if the text does not begin with one.
#[inline(always)]
#[tactic(auto, using(crate::proofs::EventFronts::joined_spaced))]
pub fn line(version: u8, front: &mut Front<'_>) -> Option<Event>
    requires { 1 ≤ version }
    ensures { MatchOption result (NoneIsFirst (HasLine version) (λ event. joined (event_tokens event)) front.old)
        (λ event. HasLine version event × (front.old ≡ joined (event_tokens event) ++ newline ∷ front.new)) }
{
    let event = event(version, front)?;
    front.byte(b'\n')?;
    Some(event)
}

/// Takes the first line, with its version.
pub fn version_line(front: &mut Front<'_>) -> Option<u8>
    ensures { MatchOption result (NoneIsFirst IsVersion first_line front.old)
        (λ version. IsVersion version × (front.old ≡ first_line version ++ newline ∷ front.new)) }
{
    front.literal(b"heaptrace ")?;
    let version = front.number(NEWEST)? as u8;
    front.byte(b'\n')?;
    if version == 0 { None } else { Some(version) }
}

/// Takes the second line, with the size of the space and the number of mutators.
pub fn sizes_line(front: &mut Front<'_>) -> Option<(u32, u8)>
    ensures { MatchOption result (NoneIsFirst AreWorldSizes second_line front.old)
        (λ sizes. AreWorldSizes sizes × (front.old ≡ second_line sizes ++ newline ∷ front.new)) }
{
    front.literal(b"space ")?;
    let size = front.number(u64::from(MOST_WORDS))? as u32;
    front.literal(b" mutators ")?;
    let mutators = front.number(u64::from(MOST_MUTATORS))? as u8;
    front.byte(b'\n')?;
    if size == 0 || mutators == 0 {
        return None;
    }
    Some((size, mutators))
}
