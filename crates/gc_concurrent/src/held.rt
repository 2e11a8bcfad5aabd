//! Both ends of a heap in one hand: the log changes hands, roots get replicas, and the mutator goes on in the new space.
ghost use Rattle.std.specs.Prelude.{◌≡◌, ◌≢◌, ◌⊎◌, ℕ, ◌/◌, ◌<◌, ◌≤◌, true, false, List, [], ◌∷◌, length, map, slice_index, vec_capacity, IfOk, IfErr, IfSome, IfNone, IsSome, IsTrue, OnErr, OnOk};
ghost use Rattle.std.specs.Arc.{arc_value};
ghost use Rattle.std.specs.List.{All};
ghost use Rattle.gc_graph.specs.Graph.{Ref};
ghost use Rattle.gc_graph.specs.Correspond.{Corresponding};
ghost use Rattle.gc_words.specs.Word.{is_value, value_of, word_of};
ghost use Rattle.gc_words.specs.Closed.{IsRootWord};
ghost use Rattle.gc_words.specs.Space.{end_of};
ghost use Rattle.gc_heap.specs.ExtraRoots.{most_extra_roots};
ghost use Rattle.gc_heap.specs.Heap.{IsHeap, empty_heap, graph_in};
ghost use Rattle.gc_model.specs.State.{new_end, new_graph, pairs_of, replica_of};
ghost use Rattle.gc_model.specs.Steps.{scan_done};
ghost use Rattle.gc_model.specs.Members.{In};
ghost use Rattle.gc_concurrent.specs.Heaps.{heap_of};
ghost use Rattle.gc_model.specs.Carried.{LeadsOnlyTo};
ghost use Rattle.gc_concurrent.specs.Unreachable.{MayBeCopied, CopiesNothingUnreachable};
ghost use Rattle.gc_concurrent.specs.Internal.Props.{heap_prop, leads_prop};
ghost use Rattle.gc_concurrent.specs.Ends.{begun_with, its, one_heap, opening_theirs};
ghost use Rattle.gc_concurrent.specs.Internal.Rule.{entries_of_fields, StartsThere};
ghost use Rattle.gc_concurrent.specs.Internal.Starts.{TellsStarts};
ghost use Rattle.gc_concurrent.specs.Internal.Flip.{HasNothingLeft, Flips};
ghost use Rattle.gc_concurrent.specs.Internal.Copiers.{AreClaimed, KeepsReplicas, LacksOne, moved_by};
ghost use Rattle.gc_concurrent.specs.Moves.{FlipsTo, half, no_moves};
ghost use Rattle.gc_concurrent.specs.Internal.Openings.{heap_opened};
ghost use Rattle.gc_concurrent.specs.Internal.Following.{Follows};
ghost use Rattle.gc_concurrent.specs.Internal.Knowing.{Knows};
ghost use Rattle.gc_concurrent.specs.Checking.{CertifiesFlip, IsVouchedBy, flip_shown};
ghost use Rattle.gc_concurrent.specs.Turns.{IfAsked};

use crate::cells::Cells;
use crate::commands::Commander;
use crate::copier::{Copier, Work, moved_word};
use crate::ended::Ended;
use crate::moves::Moves;
use crate::mutator::Mutator;
use crate::next::{NextSpace, Opened};
use crate::plays::{Roles, Took};
use crate::spare::{Former, Spare};
use crate::watching::tell;
use gc_check::Checks;
use gc_graph::NoMemory;
use gc_monitor::Monitor;
use std::alloc::Global;
use std::sync::Arc;

/// A mutator and its collector. One seat is both ends, and the mutator's log is empty.
#[derive(Drop)]
pub struct Held {
    pub copier: Copier,
    pub(crate) other: Arc<Cells, Global>,
    pub(crate) logs: bool,
    pub(crate) log: Vec<(u32, u16)>,
    pub roots: Vec<u64>,
    pub(crate) end: u32,
    pub moves: Moves,
    pub(crate) starts: Vec<u64>,
    ghost both: { copier.seat.me.0.writes ≡ true },
    ghost row: { ((arc_value other).shared.table_id ≡ copier.seat.table_id) × ((arc_value other).shared.key.size ≡ copier.size) },
    ghost logging: { copier.seat.me.0.mine.logs ≡ logs },
    ghost empty: { (log.items ≡ []) × (copier.seat.me.0.mine.log ≡ []) },
    ghost ended: { (length copier.seat.me.0.mine.space.words ≡ end) × (copier.seat.me.0.mine.space.size ≡ copier.size) },
    ghost sound: { IsHeap (heap_of copier.seat.me.0.mine roots.items) } by { heap_prop (heap_of copier.seat.me.0.mine roots.items) },
    ghost behind: { end_of copier.seat.me.0.mine.base.heap.space ≤ end },
    ghost begun: { copier.seat.me.0.theirs.base ≡ copier.seat.me.0.mine.base.heap },
    ghost wide: { copier.size / 64 < length starts.items },
    ghost marked: { TellsStarts starts.items copier.seat.me.0.mine.space.words },
    ghost starts_there: { StartsThere copier.seat.me.0.mine copier.seat.me.0.theirs },
    ghost leads: { LeadsOnlyTo (MayBeCopied copier.seat.me.0.mine.base) (graph_in (heap_of copier.seat.me.0.mine roots.items)) } by { leads_prop copier.seat.me.0.mine.base _ },
}

/// Takes both ends in one hand, and the mutator's log. Nothing of an earlier log is due.
pub(crate) fn hold(commander: Commander, copier: Copier) -> Held
    requires row { commander.mutator.seat.table_id ≡ copier.seat.table_id }
    requires applied { copier.seat.me.0.theirs.due ≡ [] }
    ensures heap { heap_of result.copier.seat.me.0.mine result.roots.items ≡ heap_of commander.mutator.seat.me.0.mine commander.roots.items }
    ensures moves { result.moves ≡ commander.moves }
    ensures begun { result.copier.seat.me.0.mine.base ≡ commander.mutator.seat.me.0.mine.base }
    ensures row { result.copier.seat.table_id ≡ copier.seat.table_id }
    ensures log { result.copier.seat.me.0.theirs ≡ record copier.seat.me.0.theirs { due = commander.mutator.log.items } }
    ensures fits { new_end (its result.copier.seat.me.0.theirs) ≤ end_of result.copier.seat.me.0.mine.space }
{
    let Commander {
        mutator,
        roots,
        end,
        moves,
    } = commander;
    let Mutator {
        cells: other,
        seat,
        logs,
        log,
        size: _,
        starts,
    } = mutator;
    let Copier {
        cells,
        seat: mut own,
        space,
        claims,
        due,
        next: _,
        fill,
        fill_next: _,
        fill_left: _,
        scan_place,
        scan_field,
        has_wanted,
        wanted,
        spare,
        former,
        mut standing,
        size,
    } = copier;
    cells.shared.join_seat::<Roles>(&mut own, seat);
    cells.shared.load::<Took>(&mut own, 0);
    tell(&mut standing, claims.as_slice(), log.as_slice());
    Held {
        copier: Copier {
            cells,
            seat: own,
            space,
            claims,
            due: log,
            next: 0,
            fill,
            fill_next: 0,
            fill_left: 0,
            scan_place,
            scan_field,
            has_wanted,
            wanted,
            spare,
            former,
            standing,
            size,
        },
        other,
        logs,
        log: emptied(due),
        roots,
        end,
        moves,
        starts,
    }
}

// The log whose entries were applied, without them. Its room is used again.
fn emptied(log: Vec<(u32, u16)>) -> Vec<(u32, u16)>
    ensures { result.items ≡ [] }
{
    let mut empty = log;
    empty.clear();
    empty
}

// The root words as they refer to replicas. Fails if the target of one has none.
fn moved_roots(alloc: Global, claims: &[u32], roots: &[u64]) -> Result<Vec<u64>, NoFlip>
    requires values { (k : ℕ) → k < length roots.now → IsTrue (is_value (slice_index roots.now k)) }
    requires inside { (k a : ℕ) → k < length roots.now → value_of (slice_index roots.now k) ≡ Ref a → half a < length claims.now }
    requires places { (k : ℕ) → slice_index claims.now k < 4294967295 }
    ensures moved { IfOk result (λ v. v.items ≡ map (λ w. word_of (moved_by claims.now (value_of w))) roots.now) }
    ensures placed { OnOk result (AreClaimed claims.now roots.now) }
    ensures lacking { IfErr result (λ why. why ≡ NoFlip.NotReady → LacksOne claims.now roots.now) }
    ensures never_refused { IfErr result (λ why. why ≢ NoFlip.Refused) }
{
    let mut moved = with_room(alloc, roots.len())?;
    for k in 0..roots.len() {
        match moved_word(claims, roots[k]) {
            Ok(word) => moved.push_reserved(word),
            Err(_) => return Err(NoFlip::NotReady),
        }
    }
    Ok(moved)
}

// Returns an empty row with room for so many words. Allocates once.
fn with_room(alloc: Global, count: usize) -> Result<Vec<u64>, NoMemory>
    ensures { IfOk result (λ v. (v.items ≡ []) × (count ≤ vec_capacity v)) }
{
    Ok(Vec::with_capacity(alloc, count)?)
}

/// Why a flip was not made.
#[derive(Clone, Copy, Debug, PartialEq, Eq)]
pub enum NoFlip {
    /// Something is due or left to scan, or a root's target has no replica.
    NotReady,
    /// The checker refused the certificate. This is proved never to occur.
    Refused,
    /// An allocation failed.
    NoMemory,
}

impl From<NoMemory> for NoFlip {
    ghost use Rattle.gc_concurrent.specs.declared.held.NoFlip.TheVariants as reasons;

    ghost from_gives = { λ _ made. made ≡ reasons.NoMemory };

    fn from(_refused: NoMemory) -> NoFlip {
        NoFlip::NoMemory
    }
}

impl Held {
    ghost use Rattle.std.specs.Prelude.{IsFalse};
    ghost use Rattle.gc_concurrent.specs.Works.{KeepsBeginning, StandsOrBegins, WhereDone, WhereNoRoom};
    ghost use Rattle.gc_concurrent.specs.Holders.{beginning_held, beginning_of, heap_held, heap_in, known_to, log_length, logs_writes, may_flip, moves_held, moves_in, roots_placed, situation_in, IsNearer, StaysOrIsNearer};
    ghost use Rattle.gc_concurrent.specs.Internal.Settled.{IsSettled};

    /// Performs one step of the collector, while the mutator waits.
    #[inline(always)]
    pub(crate) fn work(&mut self) -> Work
        ensures heap { heap_held self.new ≡ heap_held self.old }
        ensures moves { moves_held self.new ≡ moves_held self.old }
        ensures since { beginning_held self.new ≡ beginning_held self.old }
        ensures done { WhereDone result (known_to self.new.copier) }
        ensures room { WhereNoRoom result (known_to self.new.copier) }
        ensures nearer { result ≡ Work.Step → IsNearer self.old self.new }
        ensures still { result ≡ Work.Done → known_to self.new.copier ≡ known_to self.old.copier }
        ensures rooted { roots_placed self.old ≡ true → roots_placed self.new ≡ true }
        ensures begun { KeepsBeginning (known_to self.old.copier) (known_to self.new.copier) }
        ensures row { self.new.copier.seat.table_id ≡ self.old.copier.seat.table_id }
    {
        self.copier.work()
    }

    /// Lets the mutator go on in the same space.
    pub(crate) fn release(self) -> (Commander, Copier)
        ensures heap { heap_in result.0 ≡ heap_held self }
        ensures moves { moves_in result.0 ≡ moves_held self }
        ensures known { known_to result.1 ≡ known_to self.copier }
        ensures begun { beginning_of result.0 ≡ beginning_held self }
        ensures log { log_length result.0 ≡ 0 }
        ensures row { (result.0.mutator.seat.table_id ≡ result.1.seat.table_id) × (result.1.seat.table_id ≡ self.copier.seat.table_id) }
    {
        let Held {
            copier,
            other,
            logs,
            log,
            roots,
            end,
            moves,
            starts,
        } = self;
        let Copier {
            cells,
            seat: mut own,
            space,
            claims,
            due,
            next,
            fill,
            fill_next,
            fill_left,
            scan_place,
            scan_field,
            has_wanted,
            wanted,
            spare,
            former,
            standing,
            size,
        } = copier;
        let seat = cells.shared.split_seat::<Roles>(&mut own);
        (
            Commander {
                mutator: Mutator {
                    cells: other,
                    seat,
                    logs,
                    log,
                    size,
                    starts,
                },
                roots,
                end,
                moves,
            },
            Copier {
                cells,
                seat: own,
                space,
                claims,
                due,
                next,
                fill,
                fill_next,
                fill_left,
                scan_place,
                scan_field,
                has_wanted,
                wanted,
                spare,
                former,
                standing,
                size,
            },
        )
    }

    // Gives the target of a root a replica.
    fn place_root(&mut self, k: usize) -> bool
        requires root { k < length self.old.roots.items }
        requires settled { IsSettled self.old.copier }
        ensures settled { IsTrue result → IsSettled self.new.copier }
        ensures placed { IsTrue result → (a : ℕ) → value_of (slice_index self.old.roots.items k) ≡ Ref a → IsSome (replica_of (its (known_to self.new.copier)) a) }
        ensures replicas { KeepsReplicas (known_to self.old.copier) (known_to self.new.copier) }
        ensures roots { self.new.roots.items ≡ self.old.roots.items }
        ensures heap { heap_held self.new ≡ heap_held self.old }
        ensures moves { moves_held self.new ≡ moves_held self.old }
        ensures since { beginning_held self.new ≡ beginning_held self.old }
        ensures nearer { IsTrue result → StaysOrIsNearer self.old self.new }
        ensures room { IsFalse result → (known_to self.new.copier).size < (known_to self.new.copier).old }
        ensures begun { KeepsBeginning (known_to self.old.copier) (known_to self.new.copier) }
        ensures row { self.new.copier.seat.table_id ≡ self.old.copier.seat.table_id }
    {
        let word = self.roots[k];
        let moved = moved_word(self.copier.claims.as_slice(), word);
        match moved {
            Ok(_) => true,
            Err(at) => {
                self.copier.want(at);
                self.logs = true;
                self.copier.settle()
            }
        }
    }

    /// Gives the target of each root a replica, while the mutator waits. Returns false if one found no room.
    pub(crate) fn place_roots(&mut self) -> bool
        ensures placed { IsTrue result → roots_placed self.new ≡ true }
        ensures heap { heap_held self.new ≡ heap_held self.old }
        ensures moves { moves_held self.new ≡ moves_held self.old }
        ensures since { beginning_held self.new ≡ beginning_held self.old }
        ensures nearer { IsTrue result → StaysOrIsNearer self.old self.new }
        ensures room { IsFalse result → (known_to self.new.copier).size < (known_to self.new.copier).old }
        ensures begun { KeepsBeginning (known_to self.old.copier) (known_to self.new.copier) }
        ensures row { self.new.copier.seat.table_id ≡ self.old.copier.seat.table_id }
    {
        if !self.copier.settle() {
            return false;
        }
        for k in 0..self.roots.len() {
            if !self.place_root(k) {
                return false;
            }
        }
        true
    }

    /// The mutator goes on in the new space, and the next collection begins, unless something is left to do, the checker refuses, or an allocation
    /// fails. Copies the roots alone. Keeps the memory of the old heap, so that no large block is freed meanwhile.
    pub(crate) fn flip<C: Checks>(
        mut self,
        alloc: Global,
        checker: &C,
        whole: bool,
    ) -> Result<(Commander, Copier, bool), (Held, NoFlip)>
        requires { C.can_check checker.now }
        ensures ok { IfOk result (λ r. (logged : ℕ) → FlipsTo (record { heap = heap_held self; moves = moves_held self; begun = beginning_held self; logged = logged }) (situation_in r.0)) }
        ensures replicas { IfOk result (λ r. graph_in (heap_in r.0) ≡ new_graph (its (known_to self.copier)) (map value_of self.roots.items)) }
        ensures space { IfOk result (λ r. r.0.mutator.size ≡ (known_to self.copier).size) }
        ensures fresh { IfOk result (λ r. known_to r.1 ≡ opening_theirs (heap_in r.0) (known_to self.copier).size 1) }
        ensures rests { IfOk result (λ r. logs_writes r.0 ≡ false) }
        ensures carried { OnOk result ((beginning_held self).referred ≡ false → CopiesNothingUnreachable (known_to self.copier)) }
        ensures ready { OnOk result (may_flip self ≡ true) }
        ensures asked { IfOk result (λ r. IsVouchedBy self.copier.standing (heap_held self) (heap_in r.0) ⊎ C.says_yes checker.now (flip_shown (heap_held self) (known_to self.copier))) }
        ensures turned { IfOk result (λ r. IfAsked r.2 (C.says_yes checker.now (flip_shown (heap_held self) (known_to self.copier))) (IsVouchedBy self.copier.standing (heap_held self) (heap_in r.0))) }
        ensures along { IfOk result (λ r. r.2 ≡ whole) }
        ensures certified { OnOk result (CertifiesFlip (heap_held self) (known_to self.copier)) }
        ensures never_refused { IfErr result (λ r. r.1 ≢ NoFlip.Refused) }
        ensures row { IfOk result (λ r. r.0.mutator.seat.table_id ≡ r.1.seat.table_id) }
        ensures heap { IfErr result (λ r. heap_held r.0 ≡ heap_held self) }
        ensures moves { IfErr result (λ r. moves_held r.0 ≡ moves_held self) }
        ensures since { IfErr result (λ r. beginning_held r.0 ≡ beginning_held self) }
        ensures known { IfErr result (λ r. r.1 ≢ NoFlip.NoMemory → known_to r.0.copier ≡ known_to self.copier) }
        ensures memory { IfErr result (λ r. StandsOrBegins (known_to self.copier) (known_to r.0.copier)) }
        ensures not_ready { IfErr result (λ r. r.1 ≡ NoFlip.NotReady → may_flip self ≡ false) }
        ensures same { IfErr result (λ r. r.0.copier.seat.table_id ≡ self.copier.seat.table_id) }
    {
        if !self.copier.is_idle() {
            return Err((self, NoFlip::NotReady));
        }
        let moved = moved_roots(alloc, self.copier.claims.as_slice(), self.roots.as_slice());
        let roots = match moved {
            Ok(roots) => roots,
            Err(why) => return Err((self, why)),
        };
        let asked = match self.certify(alloc, checker, roots.as_slice(), whole) {
            Ok(asked) => asked,
            Err(why) => return Err((self, why)),
        };
        let Held {
            copier,
            other,
            logs,
            log,
            roots: held,
            end,
            moves,
            starts,
        } = self;
        let Ended {
            opened,
            spare,
            cells,
            claims,
            due,
            mut standing,
        } = match copier.end(alloc, roots) {
            Ok(ended) => ended,
            Err(copier) => {
                let held = Held {
                    copier,
                    other,
                    logs,
                    log,
                    roots: held,
                    end,
                    moves,
                    starts,
                };
                return Err((held, NoFlip::NoMemory));
            }
        };
        standing.flipped();
        let (moves, row) = moves.after_flip(claims);
        let former = Some(Former { cells, row, starts });
        let (commander, copier) = begin(opened, moves, spare, former, log, emptied(due), standing);
        Ok((commander, copier, asked))
    }
}

// A mutator goes on in new cells, and a collection of them begins. Allocates nothing.
fn begin(
    opened: Opened,
    moves: Moves,
    spare: Spare,
    former: Option<Former>,
    log: Vec<(u32, u16)>,
    due: Vec<(u32, u16)>,
    standing: Monitor,
) -> (Commander, Copier)
    requires sound { IsHeap (heap_opened opened) }
    requires spare { length spare.claims.items ≡ half (heap_opened opened).space.size }
    requires empty { (log.items ≡ []) × (due.items ≡ []) }
    requires along { ∥ Follows standing (heap_opened opened).space.words (0 ∷ []) ∥₁ }
    requires knows { ∥ Knows standing (heap_opened opened).space.words (0 ∷ []) (opening_theirs (heap_opened opened) (heap_opened opened).space.size 1) ∥₁ }
    ensures heap { heap_of result.0.mutator.seat.me.0.mine result.0.roots.items ≡ heap_opened opened }
    ensures fresh { result.1.seat.me.0.theirs ≡ opening_theirs (heap_opened opened) (heap_opened opened).space.size 1 }
    ensures rests { result.0.mutator.seat.me.0.mine.logs ≡ false }
    ensures log { result.0.mutator.seat.me.0.mine.log ≡ [] }
    ensures begun { result.0.mutator.seat.me.0.mine.base ≡ begun_with (heap_opened opened) }
    ensures row { result.0.mutator.seat.table_id ≡ result.1.seat.table_id }
    ensures size { result.0.mutator.size ≡ (heap_opened opened).space.size }
    ensures moves { result.0.moves ≡ moves }
{
    let Opened {
        one,
        two,
        seat: mut own,
        size,
        end,
        starts,
        roots,
    } = opened;
    let seat = one.shared.split_seat::<Roles>(&mut own);
    let Spare { claims, space } = spare;
    (
        Commander {
            mutator: Mutator {
                cells: two,
                seat,
                logs: false,
                log,
                size,
                starts,
            },
            roots,
            end,
            moves,
        },
        Copier {
            cells: one,
            seat: own,
            space,
            claims,
            due,
            next: 0,
            fill: 0,
            fill_next: 0,
            fill_left: 0,
            scan_place: 1,
            scan_field: 0,
            has_wanted: false,
            wanted: 0,
            spare: None,
            former,
            standing,
            size,
        },
    )
}

/// Opens an empty heap of this many words, with 32 slots and so many extra roots.
pub(crate) fn open_ends(
    alloc: Global,
    size: u32,
    extra: u32,
) -> Result<(Commander, Copier), NoMemory>
    requires size { 1 ≤ size }
    requires extra { extra ≤ most_extra_roots }
    ensures heap { IfOk result (λ r. heap_of r.0.mutator.seat.me.0.mine r.0.roots.items ≡ empty_heap (record { size = size; mutators = 1; extra_roots = extra })) }
    ensures row { IfOk result (λ r. r.0.mutator.seat.table_id ≡ r.1.seat.table_id) }
    ensures room { IfOk result (λ r. r.1.seat.me.0.theirs ≡ opening_theirs (heap_of r.0.mutator.seat.me.0.mine r.0.roots.items) size size) }
    ensures rests { IfOk result (λ r. r.0.mutator.seat.me.0.mine.logs ≡ false) }
    ensures log { IfOk result (λ r. r.0.mutator.seat.me.0.mine.log ≡ []) }
    ensures moves { IfOk result (λ r. r.0.moves ≡ no_moves) }
    ensures begun { IfOk result (λ r. r.0.mutator.seat.me.0.mine.base ≡ begun_with (heap_of r.0.mutator.seat.me.0.mine r.0.roots.items)) }
{
    let space = NextSpace::new(alloc, size)?;
    let roots = Vec::from_elem(alloc, 0u64, 32 + extra as usize)?;
    let spare = Spare::new(alloc, size)?;
    let standing = Monitor::new(alloc, size)?;
    let Ok(opened) = space.begin(alloc, roots) else {
        return Err(NoMemory);
    };
    let (commander, mut copier) = begin(
        opened,
        Moves::none(alloc),
        spare,
        None,
        Vec::new(alloc),
        Vec::new(alloc),
        standing,
    );
    copier.prepare(alloc, size)?;
    Ok((commander, copier))
}
