//! The handshake through which a mutator goes to its collector and back. No call here waits but `poll` and `wait`.
ghost use Rattle.std.specs.Prelude.{◌≡◌, ◌⊎◌, ◌≢◌, ℕ, ◌+◌, ◌*◌, ◌<◌, ◌≤◌, true, false, [], ◌∷◌, length, map, replicate, IfOk, MatchResult};
ghost use Rattle.std.specs.Arc.{arc_value};
ghost use Rattle.gc_concurrent.specs.Holders.{beginning_held, beginning_of, cells_read_by, heap_in, known_to, log_length, logs_writes, moves_held, moves_in, situation_in};
ghost use Rattle.gc_concurrent.specs.Heaps.{GoesOnIn};
ghost use Rattle.gc_concurrent.specs.Moves.{StaysOrFlips, no_moves};
ghost use Rattle.gc_concurrent.specs.Internal.Handshakes.{hands};
ghost use Rattle.gc_concurrent.specs.Holders.{cells_of};
ghost use Rattle.gc_concurrent.specs.Heaps.{heap_of};
ghost use Rattle.gc_graph.specs.Graph.{opening};
ghost use Rattle.gc_words.specs.Space.{empty_space, end_of};
ghost use Rattle.gc_heap.specs.ExtraRoots.{most_extra_roots};
ghost use Rattle.gc_heap.specs.Heap.{empty_heap, graph_in};
ghost use Rattle.gc_concurrent.specs.Ends.{begun_with, its, opening_theirs, Theirs};
ghost use Rattle.gc_concurrent.specs.Turns.{TurnsBy, turns_at_open, whole_is_due};
ghost use Rattle.gc_concurrent.specs.Unreachable.{CopiesNothingUnreachable};
ghost use Rattle.gc_concurrent.specs.Checking.{CertifiesFlip, FlippedBy, IsVouchedBy, IsVouchedFor, flip_shown};
ghost use Rattle.gc_model.specs.State.{new_graph};
ghost use Rattle.gc_words.specs.Word.{value_of};

use crate::commands::Commander;
use crate::copier::{Copier, Work};
use crate::held::{Held, NoFlip, hold, open_ends};
use crate::plays::{Ask, Go, HandshakeRoles, Park, Resume, Start, Take, Withdraw};
use crate::turns::Turns;
use atomic_table::{Seat, Table, TableRule};
use gc_check::Checks;
use gc_graph::NoMemory;
use std::alloc::Global;
use std::marker::Model;
use std::sync::{Arc, Wait};
use std::thread;

/// What a seat of the handshake knows. No value of it is made.
pub struct HandshakeView {
    pub nothing: u8,
}

impl Model for HandshakeView {
    ghost use Rattle.std.specs.Prelude.{false, []};
    ghost use Rattle.gc_concurrent.specs.Internal.Handshakes.{HandshakeKnown, handshake_coded, nowhere};

    ghost Value = { HandshakeKnown };

    ghost coded = { handshake_coded };

    ghost view = { λ _. record {
      goes = false;
      keeps = false;
      goer = record { waits = false; left = nowhere; row = record { words = 0; slots = 0; views_name = 0; atom = 0; block = 0; offset = 0; slot_names = [] } };
      keeper = record { phase = 0; took = nowhere; row = record { words = 0; slots = 0; views_name = 0; atom = 0; block = 0; offset = 0; slot_names = [] } };
    } };
}

/// The handshake's rule. The key is the mutator that it is opened for.
pub struct HandshakeRule;

impl TableRule<Option<Commander>, HandshakeView, Commander> for HandshakeRule {
    ghost use Rattle.gc_concurrent.specs.Internal.Handshakes.{IsHandshake, handshake_opening};

    ghost holds = { λ _. IsHandshake };

    ghost first = { λ c. handshake_opening c };
}

pub type Handshake = Table<Option<Commander>, HandshakeView, Commander, HandshakeRule, Global>;

pub type HandshakeEnd = Seat<Option<Commander>, HandshakeView>;

/// A mutator that runs. Its thread makes commands and safepoints.
#[derive(Drop)]
pub struct Runner {
    handshake: Arc<Handshake, Global>,
    seat: HandshakeEnd,
    pub commander: Commander,
    ghost row: { ((arc_value handshake).shared.table_id ≡ seat.table_id) × (seat.table_id.words ≡ 1) },
    ghost goes: { (seat.me.0.goes ≡ true) × (seat.me.0.goer.row ≡ cells_of commander) },
    ghost holds: { hands seat.me ≡ (0, false) ∷ [] },
}

/// A mutator that has stopped. It lies in the slot of the handshake, or the collector holds it.
#[derive(Drop)]
pub struct Waiting {
    handshake: Arc<Handshake, Global>,
    pub seat: HandshakeEnd,
    ghost row: { ((arc_value handshake).shared.table_id ≡ seat.table_id) × (seat.table_id.words ≡ 1) },
    ghost goes: { seat.me.0.goes ≡ true },
    ghost holds: { hands seat.me ≡ [] },
}

impl Runner {
    ghost use Rattle.gc_concurrent.specs.Waiters.{heap_left, situation_left};

    /// Returns whether the collector seems to ask the mutator to stop. It loads one word, and nothing is known of the answer.
    pub fn is_asked(&self) -> bool {
        let handshake = &*self.handshake;
        handshake.shared.peek(0) == 1
    }

    /// Hands the mutator over, if the collector asks for it. Otherwise the mutator runs on.
    pub fn stop(self) -> Result<Waiting, Runner>
        ensures heap { MatchResult result (λ w. heap_left w ≡ heap_in self.commander) (λ r. heap_in r.commander ≡ heap_in self.commander) }
        ensures same { MatchResult result (λ w. situation_left w ≡ situation_in self.commander) (λ r. situation_in r.commander ≡ situation_in self.commander) }
    {
        let Runner {
            handshake,
            mut seat,
            commander,
        } = self;
        let spare = handshake.shared.exchange(&mut seat, 0, Some(commander));
        let found = handshake
            .shared
            .compare_exchange::<Park>(&mut seat, 0, 1, 2);
        if found == 1 {
            drop(spare);
            return Ok(Waiting { handshake, seat });
        }
        let back = handshake.shared.exchange(&mut seat, 0, spare);
        let Some(commander) = back else {
            unreachable!()
        };
        Err(Runner {
            handshake,
            seat,
            commander,
        })
    }

    /// A safepoint: if the collector asks, stops and waits until it may go on, in the same space or in the next one.
    pub fn poll<R: Wait>(self, rt: &R) -> Runner
        ensures heap { GoesOnIn (heap_in self.commander) (heap_in result.commander) }
        ensures flips { StaysOrFlips (situation_in self.commander) (situation_in result.commander) }
    {
        if !self.is_asked() {
            return self;
        }
        match self.stop() {
            Ok(waiting) => waiting.wait(rt),
            Err(runner) => runner,
        }
    }
}

impl Waiting {
    ghost use Rattle.gc_concurrent.specs.Waiters.{heap_left, situation_left};

    /// Takes the mutator back, if the collector lets it go on.
    pub fn resume(self) -> Result<Runner, Waiting>
        ensures heap { MatchResult result (λ r. GoesOnIn (heap_left self) (heap_in r.commander)) (λ w. heap_left w ≡ heap_left self) }
        ensures flips { MatchResult result (λ r. StaysOrFlips (situation_left self) (situation_in r.commander)) (λ w. situation_left w ≡ situation_left self) }
    {
        let Waiting {
            handshake,
            mut seat,
        } = self;
        let found = handshake
            .shared
            .compare_exchange::<Resume>(&mut seat, 0, 3, 0);
        if found != 3 {
            return Err(Waiting { handshake, seat });
        }
        let got = handshake.shared.exchange(&mut seat, 0, None);
        let Some(commander) = got else { unreachable!() };
        Ok(Runner {
            handshake,
            seat,
            commander,
        })
    }

    /// Waits until the mutator may go on. Waits forever if the collector never lets it.
    pub fn wait<R: Wait>(self, rt: &R) -> Runner
        ensures heap { GoesOnIn (heap_left self) (heap_in result.commander) }
        ensures flips { StaysOrFlips (situation_left self) (situation_in result.commander) }
    {
        let mut waiting = self;
        for _ in rt.forever() {
            match waiting.resume() {
                Ok(runner) => return runner,
                Err(still) => waiting = still,
            }
            thread::yield_now();
        }
        unreachable!()
    }
}

/// A collector that has asked for nothing.
#[derive(Drop)]
pub struct Collector {
    handshake: Arc<Handshake, Global>,
    seat: HandshakeEnd,
    pub copier: Copier,
    pub turns: Turns,
    ghost row: { ((arc_value handshake).shared.table_id ≡ seat.table_id) × (seat.table_id.words ≡ 1) },
    ghost keeps: { (seat.me.0.keeps ≡ true) × (seat.me.0.keeper.phase ≡ 0) × (seat.me.0.keeper.row ≡ copier.seat.table_id) },
    ghost holds: { hands seat.me ≡ [] },
}

/// A collector that has asked the mutator to stop. It may work on.
#[derive(Drop)]
pub struct Asking {
    handshake: Arc<Handshake, Global>,
    seat: HandshakeEnd,
    pub copier: Copier,
    pub turns: Turns,
    ghost row: { ((arc_value handshake).shared.table_id ≡ seat.table_id) × (seat.table_id.words ≡ 1) },
    ghost keeps: { (seat.me.0.keeps ≡ true) × (seat.me.0.keeper.phase ≡ 1) × (seat.me.0.keeper.row ≡ copier.seat.table_id) },
    ghost holds: { hands seat.me ≡ [] },
}

/// A collector that holds the mutator.
#[derive(Drop)]
pub struct Holding {
    handshake: Arc<Handshake, Global>,
    pub seat: HandshakeEnd,
    pub held: Held,
    pub turns: Turns,
    ghost row: { ((arc_value handshake).shared.table_id ≡ seat.table_id) × (seat.table_id.words ≡ 1) },
    ghost keeps: { (seat.me.0.keeps ≡ true) × (seat.me.0.keeper.phase ≡ 2) },
    ghost took: { (heap_of held.copier.seat.me.0.mine held.roots.items ≡ seat.me.0.keeper.took.heap) × (moves_held held ≡ seat.me.0.keeper.took.moves) },
    ghost since: { beginning_held held ≡ seat.me.0.keeper.took.begun },
    ghost holds: { hands seat.me ≡ (0, false) ∷ [] },
}

impl Collector {
    ghost use Rattle.std.specs.Prelude.{OnErr, OnOk};
    ghost use Rattle.gc_concurrent.specs.Works.{KeepsBeginning, WhereDone, WhereNoRoom};
    ghost use Rattle.gc_concurrent.specs.Nearing.{GetsOn};

    /// Performs one step, beside the mutator. If nothing is left to do, the standing checker walks on over the objects that the mutator has made, so that
    /// fewer are left to a flip.
    #[inline(always)]
    pub fn work(&mut self) -> Work
        ensures nearer { result ≡ Work.Step → GetsOn (known_to self.old.copier) (known_to self.new.copier) }
        ensures done { WhereDone result (known_to self.new.copier) }
        ensures room { WhereNoRoom result (known_to self.new.copier) }
        ensures begun { KeepsBeginning (known_to self.old.copier) (known_to self.new.copier) }
        ensures turns { self.new.turns ≡ self.old.turns }
    {
        let work = self.copier.work();
        if work == Work::Done {
            let size = self.copier.size;
            self.copier.see(size);
        }
        work
    }

    /// Begins the collection anew, in a new space of `size` words, at least 1, and makes the memory that its flip takes. After a flip the new space has one
    /// word until this is called. What was copied is forgotten. First frees the memory of the heap before the last flip. The time grows with both sizes. If an
    /// allocation fails, the collection stays as it is.
    pub fn prepare(&mut self, alloc: Global, size: u32) -> Result<(), NoMemory>
        requires { 1 ≤ size }
        ensures ok { OnOk result (known_to self.new.copier ≡ opening_theirs (known_to self.old.copier).base (known_to self.old.copier).old size) }
        ensures err { OnErr result (known_to self.new.copier ≡ known_to self.old.copier) }
        ensures cells { cells_read_by self.new.copier ≡ cells_read_by self.old.copier }
        ensures turns { self.new.turns ≡ self.old.turns }
    {
        self.copier.prepare(alloc, size)
    }

    /// Asks the mutator to stop at its next safepoint. Fails while the mutator has not gone on since the last time.
    pub fn ask(self) -> Result<Asking, Collector>
        ensures copier { MatchResult result (λ asking. asking.copier ≡ self.copier) (λ collector. collector.copier ≡ self.copier) }
        ensures turns { MatchResult result (λ asking. asking.turns ≡ self.turns) (λ collector. collector.turns ≡ self.turns) }
    {
        let Collector {
            handshake,
            mut seat,
            copier,
            turns,
        } = self;
        if handshake.shared.compare_exchange::<Ask>(&mut seat, 0, 0, 1) == 0 {
            return Ok(Asking {
                handshake,
                seat,
                copier,
                turns,
            });
        }
        Err(Collector {
            handshake,
            seat,
            copier,
            turns,
        })
    }
}

impl Asking {
    ghost use Rattle.gc_concurrent.specs.Waiters.{situation_taken};
    ghost use Rattle.gc_concurrent.specs.Works.{KeepsBeginning, TakesLog, WhereDone, WhereNoRoom};
    ghost use Rattle.gc_concurrent.specs.Holders.{heap_held};
    ghost use Rattle.gc_concurrent.specs.Nearing.{GetsOn, steps_ahead};

    /// Performs one step, beside the mutator.
    #[inline(always)]
    pub fn work(&mut self) -> Work
        ensures nearer { result ≡ Work.Step → GetsOn (known_to self.old.copier) (known_to self.new.copier) }
        ensures done { WhereDone result (known_to self.new.copier) }
        ensures room { WhereNoRoom result (known_to self.new.copier) }
        ensures begun { KeepsBeginning (known_to self.old.copier) (known_to self.new.copier) }
        ensures turns { self.new.turns ≡ self.old.turns }
    {
        self.copier.work()
    }

    /// Takes the mutator with its log, if it has stopped and nothing is due. Replicas may be left to scan.
    pub fn take(self) -> Result<Holding, Asking>
        ensures log { MatchResult result (λ holding. TakesLog (known_to self.copier) (known_to holding.held.copier)) (λ asking. asking.copier ≡ self.copier) }
        ensures most { IfOk result (λ holding. length (known_to holding.held.copier).due ≡ (situation_taken holding).logged) }
        ensures steps { IfOk result (λ holding. steps_ahead (end_of (heap_held holding.held).space) (known_to holding.held.copier) ≤ 4 * end_of (heap_held holding.held).space + 2 * (situation_taken holding).logged + 1) }
        ensures turns { MatchResult result (λ holding. holding.turns ≡ self.turns) (λ asking. asking.turns ≡ self.turns) }
    {
        if !self.copier.has_nothing_due() {
            return Err(self);
        }
        let Asking {
            handshake,
            mut seat,
            copier,
            turns,
        } = self;
        if handshake.shared.load::<Take>(&mut seat, 0) != 2 {
            return Err(Asking {
                handshake,
                seat,
                copier,
                turns,
            });
        }
        let got = handshake.shared.exchange(&mut seat, 0, None);
        let Some(commander) = got else { unreachable!() };
        let held = hold(commander, copier);
        Ok(Holding {
            handshake,
            seat,
            held,
            turns,
        })
    }

    /// Asks no longer. A mutator that has stopped may go on in the same space. The collection goes on as it stands.
    pub fn withdraw(self) -> Collector
        ensures copier { result.copier ≡ self.copier }
        ensures turns { result.turns ≡ self.turns }
    {
        let Asking {
            handshake,
            mut seat,
            copier,
            turns,
        } = self;
        let found = handshake
            .shared
            .compare_exchange::<Withdraw>(&mut seat, 0, 1, 0);
        if found != 1 {
            handshake.shared.store::<Go>(&mut seat, 0, 3);
        }
        Collector {
            handshake,
            seat,
            copier,
            turns,
        }
    }
}

/// A flip that was not made, and why. The collector still holds the mutator.
#[derive(Drop)]
pub struct Unflipped {
    pub holding: Holding,
    pub why: NoFlip,
}

impl Holding {
    ghost use Rattle.std.specs.Prelude.{IfErr, IsFalse, IsTrue, OnOk};
    ghost use Rattle.gc_concurrent.specs.Works.{KeepsBeginning, KeepsOrBegins, StandsOrBegins, WhereDone, WhereNoRoom};
    ghost use Rattle.gc_concurrent.specs.Holders.{heap_held, may_flip, roots_placed, IsNearer, StaysOrIsNearer};

    /// Gives the target of each root a replica, while the mutator waits. Does not allocate. Returns false if one found no room. The time grows with the number
    /// of roots, and with the fields of raw objects to which they refer.
    pub fn place_roots(&mut self) -> bool
        ensures placed { IsTrue result → roots_placed self.new.held ≡ true }
        ensures room { IsFalse result → (known_to self.new.held.copier).size < (known_to self.new.held.copier).old }
        ensures nearer { IsTrue result → StaysOrIsNearer self.old.held self.new.held }
        ensures begun { KeepsBeginning (known_to self.old.held.copier) (known_to self.new.held.copier) }
        ensures heap { heap_held self.new.held ≡ heap_held self.old.held }
        ensures since { beginning_held self.new.held ≡ beginning_held self.old.held }
        ensures turns { self.new.turns ≡ self.old.turns }
    {
        self.held.place_roots()
    }

    /// Performs one step, while the mutator waits.
    #[inline(always)]
    pub fn work(&mut self) -> Work
        ensures done { WhereDone result (known_to self.new.held.copier) }
        ensures room { WhereNoRoom result (known_to self.new.held.copier) }
        ensures nearer { result ≡ Work.Step → IsNearer self.old.held self.new.held }
        ensures still { result ≡ Work.Done → known_to self.new.held.copier ≡ known_to self.old.held.copier }
        ensures rooted { roots_placed self.old.held ≡ true → roots_placed self.new.held ≡ true }
        ensures begun { KeepsBeginning (known_to self.old.held.copier) (known_to self.new.held.copier) }
        ensures heap { heap_held self.new.held ≡ heap_held self.old.held }
        ensures since { beginning_held self.new.held ≡ beginning_held self.old.held }
        ensures turns { self.new.turns ≡ self.old.turns }
    {
        self.held.work()
    }

    /// Lets the mutator go on in the same space. The collection stays open.
    pub fn go(self) -> Collector
        ensures known { known_to result.copier ≡ known_to self.held.copier }
        ensures turns { result.turns ≡ self.turns }
    {
        let Holding {
            handshake,
            mut seat,
            held,
            turns,
        } = self;
        let (commander, copier) = held.release();
        let spare = handshake.shared.exchange(&mut seat, 0, Some(commander));
        handshake.shared.store::<Go>(&mut seat, 0, 3);
        drop(spare);
        Collector {
            handshake,
            seat,
            copier,
            turns,
        }
    }

    /// Lets the mutator go on in the new space, and begins the next collection, if the standing checker vouches for it. That checker looks at the roots and
    /// at the objects made since the mutator last stopped. This checker is asked in its place only if the turns say that a whole check is due. It checks both
    /// spaces whole, so the time then grows with the heap, and allocates for that. Fails if something is left to do, if the checker that was asked refuses,
    /// or if an allocation fails. Nothing has changed then, but where the new cells got no second owner: the collection has begun anew, in a space of one word.
    ///
    /// A ready collection is proved to pass. It is checked all the same, so that a flip rests on a checker's theorem alone, which knows nothing of the
    /// collector.
    pub fn flip<C: Checks>(self, alloc: Global, checker: &C) -> Result<Collector, Unflipped>
        requires { C.can_check checker.now }
        ensures ready { OnOk result (may_flip self.held ≡ true) }
        ensures asked { IfOk result (λ collector. IsVouchedBy self.held.copier.standing (heap_held self.held) (known_to collector.copier).base ⊎ C.says_yes checker.now (flip_shown (heap_held self.held) (known_to self.held.copier))) }
        ensures certified { OnOk result (CertifiesFlip (heap_held self.held) (known_to self.held.copier)) }
        ensures never_refused { IfErr result (λ refused. refused.why ≢ NoFlip.Refused) }
        ensures fresh { IfOk result (λ collector. known_to collector.copier ≡ opening_theirs (known_to collector.copier).base (known_to self.held.copier).size 1) }
        ensures graph { IfOk result (λ collector. graph_in (known_to collector.copier).base ≡ new_graph (its (known_to self.held.copier)) (map value_of self.held.roots.items)) }
        ensures carried { OnOk result ((beginning_held self.held).referred ≡ false → CopiesNothingUnreachable (known_to self.held.copier)) }
        ensures heap { IfErr result (λ refused. heap_held refused.holding.held ≡ heap_held self.held) }
        ensures since { IfErr result (λ refused. beginning_held refused.holding.held ≡ beginning_held self.held) }
        ensures known { IfErr result (λ refused. refused.why ≢ NoFlip.NoMemory → known_to refused.holding.held.copier ≡ known_to self.held.copier) }
        ensures memory { IfErr result (λ refused. StandsOrBegins (known_to self.held.copier) (known_to refused.holding.held.copier)) }
        ensures not_ready { IfErr result (λ refused. refused.why ≡ NoFlip.NotReady → may_flip self.held ≡ false) }
        ensures turns { IfOk result (λ collector. TurnsBy (C.says_yes checker.now (flip_shown (heap_held self.held) (known_to self.held.copier)))
            (IsVouchedBy self.held.copier.standing (heap_held self.held) (known_to collector.copier).base) self.turns collector.turns) }
        ensures along { IfOk result (λ collector. whole_is_due self.turns ≡ false → IsVouchedBy self.held.copier.standing (heap_held self.held) (known_to collector.copier).base) }
        ensures waits { IfErr result (λ refused. refused.holding.turns ≡ self.turns) }
    {
        let Holding {
            handshake,
            mut seat,
            held,
            turns,
        } = self;
        let (commander, copier, asked) = match held.flip(alloc, checker, turns.is_due()) {
            Ok(all) => all,
            Err((held, why)) => {
                return Err(Unflipped {
                    holding: Holding {
                        handshake,
                        seat,
                        held,
                        turns,
                    },
                    why,
                });
            }
        };
        let spare = handshake.shared.exchange(&mut seat, 0, Some(commander));
        handshake.shared.store::<Go>(&mut seat, 0, 3);
        drop(spare);
        Ok(Collector {
            handshake,
            seat,
            copier,
            turns: turns.after(asked),
        })
    }

    /// Gives each root's target a replica, performs the steps that are left, and flips if the checker says yes. Fails if the checker refuses, if an allocation fails, or if the
    /// new space is smaller than the mutator's.
    pub fn finish<C: Checks>(self, alloc: Global, checker: &C) -> Result<Collector, Unflipped>
        requires { C.can_check checker.now }
        ensures asked { IfOk result (λ collector. FlippedBy (C.says_yes checker.now) (heap_held self.held) (known_to collector.copier).base) }
        ensures never_refused { IfErr result (λ refused. refused.why ≢ NoFlip.Refused) }
        ensures fresh { IfOk result (λ collector. known_to collector.copier ≡ opening_theirs (known_to collector.copier).base (known_to self.held.copier).size 1) }
        ensures why { IfErr result (λ refused. refused.why ≡ NoFlip.NotReady → (known_to self.held.copier).size < (known_to self.held.copier).old) }
        ensures heap { IfErr result (λ refused. heap_held refused.holding.held ≡ heap_held self.held) }
        ensures since { IfErr result (λ refused. beginning_held refused.holding.held ≡ beginning_held self.held) }
        ensures begun { IfErr result (λ refused. refused.why ≢ NoFlip.NoMemory → KeepsBeginning (known_to self.held.copier) (known_to refused.holding.held.copier)) }
        ensures memory { IfErr result (λ refused. KeepsOrBegins (known_to self.held.copier) (known_to refused.holding.held.copier)) }
        ensures turns { IfOk result (λ collector. TurnsBy ((t : Theirs) × C.says_yes checker.now (flip_shown (heap_held self.held) t))
            (IsVouchedFor (heap_held self.held) (known_to collector.copier).base) self.turns collector.turns) }
        ensures along { IfOk result (λ collector. whole_is_due self.turns ≡ false → IsVouchedFor (heap_held self.held) (known_to collector.copier).base) }
        ensures waits { IfErr result (λ refused. refused.holding.turns ≡ self.turns) }
    {
        let mut holding = self;
        if !holding.place_roots() {
            return Err(Unflipped {
                holding,
                why: NoFlip::NotReady,
            });
        }
        loop {
            match holding.work() {
                Work::Step => {}
                Work::NoRoom => {
                    return Err(Unflipped {
                        holding,
                        why: NoFlip::NotReady,
                    });
                }
                Work::Done => return holding.flip(alloc, checker),
            }
        }
    }
}

/// Opens an empty heap of this many words, with 32 slots and no extra roots. Returns the mutator and the collector.
pub fn open(alloc: Global, size: u32) -> Result<(Runner, Collector), NoMemory>
    requires { 1 ≤ size }
    ensures heap { IfOk result (λ r. heap_in r.0.commander ≡ record { space = empty_space size; roots = replicate 32 0; mutators = 1 }) }
    ensures graph { IfOk result (λ r. graph_in (heap_in r.0.commander) ≡ opening 1) }
    ensures room { IfOk result (λ r. known_to r.1.copier ≡ opening_theirs (heap_in r.0.commander) size size) }
    ensures pair { IfOk result (λ r. cells_of r.0.commander ≡ cells_read_by r.1.copier) }
    ensures rests { IfOk result (λ r. logs_writes r.0.commander ≡ false) }
    ensures log { IfOk result (λ r. log_length r.0.commander ≡ 0) }
    ensures moves { IfOk result (λ r. moves_in r.0.commander ≡ no_moves) }
    ensures begun { IfOk result (λ r. beginning_of r.0.commander ≡ begun_with (heap_in r.0.commander)) }
{
    open_with(alloc, size, 0)
}

/// Opens an empty heap of this many words, with 32 slots and so many extra roots, at most gc_heap's `MOST_EXTRA_ROOTS`. Returns the mutator and
/// the collector. All roots are nil.
pub fn open_with(alloc: Global, size: u32, extra: u32) -> Result<(Runner, Collector), NoMemory>
    requires size { 1 ≤ size }
    requires extra { extra ≤ most_extra_roots }
    ensures heap { IfOk result (λ r. heap_in r.0.commander ≡ empty_heap (record { size = size; mutators = 1; extra_roots = extra })) }
    ensures room { IfOk result (λ r. known_to r.1.copier ≡ opening_theirs (heap_in r.0.commander) size size) }
    ensures pair { IfOk result (λ r. cells_of r.0.commander ≡ cells_read_by r.1.copier) }
    ensures rests { IfOk result (λ r. logs_writes r.0.commander ≡ false) }
    ensures log { IfOk result (λ r. log_length r.0.commander ≡ 0) }
    ensures moves { IfOk result (λ r. moves_in r.0.commander ≡ no_moves) }
    ensures begun { IfOk result (λ r. beginning_of r.0.commander ≡ begun_with (heap_in r.0.commander)) }
    ensures turns { IfOk result (λ r. r.1.turns ≡ turns_at_open 0) }
{
    open_checked(alloc, size, extra, 0)
}

/// Does what `open_with` does, for a heap of which each flip with the number `whole_each` asks the whole checker, counted from the last one that did. If the
/// number is 0, none does for its number.
pub fn open_checked(
    alloc: Global,
    size: u32,
    extra: u32,
    whole_each: u32,
) -> Result<(Runner, Collector), NoMemory>
    requires size { 1 ≤ size }
    requires extra { extra ≤ most_extra_roots }
    ensures heap { IfOk result (λ r. heap_in r.0.commander ≡ empty_heap (record { size = size; mutators = 1; extra_roots = extra })) }
    ensures room { IfOk result (λ r. known_to r.1.copier ≡ opening_theirs (heap_in r.0.commander) size size) }
    ensures pair { IfOk result (λ r. cells_of r.0.commander ≡ cells_read_by r.1.copier) }
    ensures rests { IfOk result (λ r. logs_writes r.0.commander ≡ false) }
    ensures log { IfOk result (λ r. log_length r.0.commander ≡ 0) }
    ensures moves { IfOk result (λ r. moves_in r.0.commander ≡ no_moves) }
    ensures begun { IfOk result (λ r. beginning_of r.0.commander ≡ begun_with (heap_in r.0.commander)) }
    ensures turns { IfOk result (λ r. r.1.turns ≡ turns_at_open whole_each) }
{
    let turns = Turns::at_open(whole_each);
    let (commander, copier) = open_ends(alloc, size, extra)?;
    let (table, mut seat) = Handshake::vacant(alloc, &[4], 1, &commander)?;
    let handshake = Arc::new(alloc, table)?;
    let other = Arc::try_clone(&handshake)?;
    handshake
        .shared
        .compare_exchange::<Start>(&mut seat, 0, 4, 0);
    let place = handshake.shared.split_seat::<HandshakeRoles>(&mut seat);
    Ok((
        Runner {
            handshake,
            seat,
            commander,
        },
        Collector {
            handshake: other,
            seat: place,
            copier,
            turns,
        },
    ))
}
