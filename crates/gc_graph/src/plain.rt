ghost use Rattle.std.specs.Prelude.{◌≡◌, ◌+◌, ◌<◌, ◌≤◌, IfOk, OnErr, IsErr, length};
ghost use Rattle.gc_graph.specs.Limits.{most_words, most_mutators};
ghost use Rattle.gc_graph.specs.Machine.{object_words, opening_roomy, HasMutator, MakesObject, Answers};
ghost use Rattle.gc_graph.specs.Internal.Machine.{Makes};

use crate::command::Op;
use crate::no_memory::NoMemory;
use crate::objects::{Objects, PlainValue};
use crate::reply::Reply;
use crate::slot::root_count;
use std::alloc::Global;
use std::collections::BTreeMap;
use std::marker::Model;

/// The machine without a collector: an object graph, and a count of free words. Other crates run it in tests only. It is public
/// so that clients can compare a heap's replies with it.
#[derive(Drop)]
pub struct Plain {
    objects: Objects,
    free: u32,
    next_name: u64,
    alloc: Global,
}

impl Model for Plain {
    ghost use Rattle.gc_graph.specs.Machine.{Roomy};
    ghost use Rattle.gc_graph.specs.Internal.Codes.{coded_roomy};

    ghost Value = { Roomy };

    ghost coded = { coded_roomy };

    ghost use Rattle.gc_graph.specs.PlainMachine.{roomy_of};
    ghost use Rattle.gc_graph.specs.Internal.PlainMachine.{IsPlain};

    ghost view = { roomy_of };

    ghost invariant = { IsPlain };
}

impl Plain {
    /// Returns a machine without objects whose roots are all nil. Its space has `size` words, 1 to `MOST_WORDS`, the
    /// first of which is reserved; there are 1 to `MOST_MUTATORS` mutators.
    pub fn new(alloc: Global, size: u32, mutators: u8) -> Result<Plain, NoMemory>
        requires low { 1 ≤ size }
        requires high { size ≤ most_words }
        requires some { 1 ≤ mutators }
        requires few { mutators ≤ most_mutators }
        ensures { IfOk result (λ plain. plain ≡ opening_roomy size mutators) }
    {
        let roots = vec![in alloc; PlainValue::Nil; root_count(mutators)]?;
        Ok(Plain {
            objects: Objects {
                records: BTreeMap::new(alloc),
                roots,
            },
            free: size - 1,
            next_name: 0,
            alloc,
        })
    }

    /// Returns the number of free words.
    pub fn free(&self) -> u32
        ensures { result ≡ self.now.free }
    {
        self.free
    }

    /// Performs a command of mutator `m`. Only a new object allocates; on `NoMemory` the machine is unchanged.
    pub fn apply(&mut self, m: u8, op: &Op) -> Result<Reply, NoMemory>
        requires { HasMutator self.old.graph m }
        ensures ok { IfOk result (λ reply. Answers self.old m op.now reply self.new) }
        ensures err { OnErr result (self.new ≡ self.old) }
        ensures mutators { length self.new.graph.roots ≡ length self.old.graph.roots }
        ensures only_new { IsErr result → MakesObject op.now }
    {
        match *op {
            Op::New { d, kind, len } => self.make(d.place(m), false, kind, len),
            Op::NewRaw { d, kind, len } => self.make(d.place(m), true, kind, len),
            Op::Num { d, n } => Ok(self.objects.set(d.place(m), PlainValue::Num(n))),
            Op::Nil { d } => Ok(self.objects.set(d.place(m), PlainValue::Nil)),
            Op::Move { d, s } => {
                let value = self.objects.root(s.place(m));
                Ok(self.objects.set(d.place(m), value))
            }
            Op::Get { d, s, i } => {
                let target = self.objects.root(s.place(m));
                Ok(self.objects.get(d.place(m), target, i))
            }
            Op::Put { s, i, t } => {
                let target = self.objects.root(s.place(m));
                let value = self.objects.root(t.place(m));
                Ok(self.objects.put(target, i, value))
            }
            Op::Same { s, t } => {
                let one = self.objects.root(s.place(m));
                let other = self.objects.root(t.place(m));
                Ok(self.objects.compare(one, other))
            }
            Op::Look { s } => {
                let value = self.objects.root(s.place(m));
                Ok(Reply::Saw(self.objects.view(&value)))
            }
        }
    }

    /// Makes an object in a root, if it has room.
    fn make(&mut self, place: usize, raw: bool, kind: u8, len: u16) -> Result<Reply, NoMemory>
        requires { place < length self.old.graph.roots }
        ensures ok { IfOk result (λ reply. Makes self.old place raw kind len reply self.new) }
        ensures err { OnErr result (self.new ≡ self.old) }
    {
        let taken = object_words(len);
        if taken > self.free {
            return Ok(Reply::Full);
        }
        let name = self.next_name;
        self.objects.add(self.alloc, name, raw, kind, len)?;
        let _ = self.objects.set(place, PlainValue::Ref(name));
        self.free -= taken;
        self.next_name += 1;
        Ok(Reply::Made)
    }
}

/// Returns the number of words of an object with `len` fields: its header, its link, and its fields.
pub fn object_words(len: u16) -> u32
    ensures { result ≡ object_words len }
{
    u32::from(len) + 2
}
