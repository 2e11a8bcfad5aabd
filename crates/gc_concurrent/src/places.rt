//! The mutator's commands, as gc_graph's machine performs them. They name roots by their places, slots and extra roots alike.
ghost use Rattle.std.specs.Prelude.{◌≡◌, true, ◌+◌, ◌<◌, ◌≤◌, length, IfOk, OnErr};
ghost use Rattle.gc_graph.specs.declared.command.Op.{Op};
ghost use Rattle.gc_heap.specs.Places.{root_at};
ghost use Rattle.gc_concurrent.specs.Holders.{beginning_of, cells_of, heap_in, log_length, logs_writes, moves_in};
ghost use Rattle.gc_graph.specs.Graph.{Nil, Num};
ghost use Rattle.gc_concurrent.specs.Machines.{Does, MakesPair, PutsValue};

use crate::commands::Commander;
use gc_graph::{NoMemory, Number, Reply};
use gc_words::{Value, encode};

/// Each takes places of roots, which have to be below `count_roots`: 0 to 31 are the slots, and the extra roots follow.
impl Commander {
    /// Returns the number of roots.
    pub fn count_roots(&self) -> u32
        ensures { result ≡ length self.now.roots.items }
    {
        self.roots.len() as u32
    }

    /// Sets root `d` to the number: `Done`.
    pub fn num_root(&mut self, d: u32, n: Number) -> Reply
        requires { d < length self.old.roots.items }
        ensures step { Does (heap_in self.old) (Op.Num (root_at d) n) result (heap_in self.new) }
        ensures log { log_length self.new ≡ log_length self.old }
        ensures cells { cells_of self.new ≡ cells_of self.old }
        ensures moves { moves_in self.new ≡ moves_in self.old }
        ensures begun { beginning_of self.new ≡ beginning_of self.old }
        ensures roots { length self.new.roots.items ≡ length self.old.roots.items }
    {
        let word = encode(Value::Num(n));
        self.set_at(d as usize, word)
    }

    /// Sets root `d` to nil: `Done`.
    pub fn nil_root(&mut self, d: u32) -> Reply
        requires { d < length self.old.roots.items }
        ensures step { Does (heap_in self.old) (Op.Nil (root_at d)) result (heap_in self.new) }
        ensures log { log_length self.new ≡ log_length self.old }
        ensures cells { cells_of self.new ≡ cells_of self.old }
        ensures moves { moves_in self.new ≡ moves_in self.old }
        ensures begun { beginning_of self.new ≡ beginning_of self.old }
        ensures roots { length self.new.roots.items ≡ length self.old.roots.items }
    {
        self.set_at(d as usize, encode(Value::Nil))
    }

    /// Sets root `d` to the value of root `s`: `Done`.
    pub fn copy_root(&mut self, d: u32, s: u32) -> Reply
        requires taker { d < length self.old.roots.items }
        requires giver { s < length self.old.roots.items }
        ensures step { Does (heap_in self.old) (Op.Move (root_at d) (root_at s)) result (heap_in self.new) }
        ensures log { log_length self.new ≡ log_length self.old }
        ensures cells { cells_of self.new ≡ cells_of self.old }
        ensures moves { moves_in self.new ≡ moves_in self.old }
        ensures begun { beginning_of self.new ≡ beginning_of self.old }
        ensures roots { length self.new.roots.items ≡ length self.old.roots.items }
    {
        let word = self.roots[s as usize];
        self.set_at(d as usize, word)
    }

    /// Makes a new object, to which root `d` then refers: `Made` or `Full`.
    pub fn new_root(&mut self, d: u32, kind: u8, len: u16) -> Reply
        requires { d < length self.old.roots.items }
        ensures step { Does (heap_in self.old) (Op.New (root_at d) kind len) result (heap_in self.new) }
        ensures log { log_length self.new ≡ log_length self.old }
        ensures cells { cells_of self.new ≡ cells_of self.old }
        ensures moves { moves_in self.new ≡ moves_in self.old }
        ensures begun { beginning_of self.new ≡ beginning_of self.old }
        ensures roots { length self.new.roots.items ≡ length self.old.roots.items }
    {
        self.make(d as usize, false, kind, len)
    }

    /// Makes a new raw object, to which root `d` then refers: `Made` or `Full`.
    pub fn new_raw_root(&mut self, d: u32, kind: u8, len: u16) -> Reply
        requires { d < length self.old.roots.items }
        ensures step { Does (heap_in self.old) (Op.NewRaw (root_at d) kind len) result (heap_in self.new) }
        ensures log { log_length self.new ≡ log_length self.old }
        ensures cells { cells_of self.new ≡ cells_of self.old }
        ensures moves { moves_in self.new ≡ moves_in self.old }
        ensures begun { beginning_of self.new ≡ beginning_of self.old }
        ensures roots { length self.new.roots.items ≡ length self.old.roots.items }
    {
        self.make(d as usize, true, kind, len)
    }

    /// Returns what mutators see of the value of root `s`: `Saw`.
    pub fn look_root(&mut self, s: u32) -> Reply
        requires { s < length self.old.roots.items }
        ensures step { Does (heap_in self.old) (Op.Look (root_at s)) result (heap_in self.new) }
        ensures log { log_length self.new ≡ log_length self.old }
        ensures cells { cells_of self.new ≡ cells_of self.old }
        ensures moves { moves_in self.new ≡ moves_in self.old }
        ensures begun { beginning_of self.new ≡ beginning_of self.old }
        ensures roots { length self.new.roots.items ≡ length self.old.roots.items }
    {
        let word = self.roots[s as usize];
        Reply::Saw(self.view(word))
    }

    /// Compares the values of roots `s` and `t`: `Yes` or `No`.
    pub fn same_root(&self, s: u32, t: u32) -> Reply
        requires one { s < length self.now.roots.items }
        requires other { t < length self.now.roots.items }
        ensures { Does (heap_in self.now) (Op.Same (root_at s) (root_at t)) result (heap_in self.now) }
    {
        self.same_at(s as usize, t as usize)
    }

    /// Sets root `d` to field `i` of the object that root `s` refers to: `Saw`, `NoObject` or `NoField`.
    pub fn get_root(&mut self, d: u32, s: u32, i: u16) -> Reply
        requires taker { d < length self.old.roots.items }
        requires giver { s < length self.old.roots.items }
        ensures step { Does (heap_in self.old) (Op.Get (root_at d) (root_at s) i) result (heap_in self.new) }
        ensures log { log_length self.new ≡ log_length self.old }
        ensures cells { cells_of self.new ≡ cells_of self.old }
        ensures moves { moves_in self.new ≡ moves_in self.old }
        ensures begun { beginning_of self.new ≡ beginning_of self.old }
        ensures roots { length self.new.roots.items ≡ length self.old.roots.items }
    {
        self.get_at(d as usize, s as usize, i)
    }

    /// Writes the value of root `t` to field `i` of the object that root `s` refers to: `Done`, `NoObject`, `NoField` or `NoNumber`.
    pub fn put_root(&mut self, s: u32, i: u16, t: u32) -> Result<Reply, NoMemory>
        requires target { s < length self.old.roots.items }
        requires giver { t < length self.old.roots.items }
        ensures step { IfOk result (λ reply. Does (heap_in self.old) (Op.Put (root_at s) i (root_at t)) reply (heap_in self.new)) }
        ensures err { OnErr result (heap_in self.new ≡ heap_in self.old) }
        ensures logs { OnErr result (logs_writes self.old ≡ true) }
        ensures log { log_length self.new ≤ log_length self.old + 1 }
        ensures cells { cells_of self.new ≡ cells_of self.old }
        ensures moves { moves_in self.new ≡ moves_in self.old }
        ensures begun { beginning_of self.new ≡ beginning_of self.old }
        ensures roots { length self.new.roots.items ≡ length self.old.roots.items }
    {
        self.reserve(1)?;
        Ok(self.put(s as usize, i, t as usize))
    }

    /// Writes a number to field `i` of the object that root `s` refers to: `Done`, `NoObject` or `NoField`. No root changes.
    pub fn put_number_root(&mut self, s: u32, i: u16, n: Number) -> Result<Reply, NoMemory>
        requires { s < length self.old.roots.items }
        ensures step { IfOk result (λ reply. PutsValue s i (Num n) (heap_in self.old) reply (heap_in self.new)) }
        ensures err { OnErr result (heap_in self.new ≡ heap_in self.old) }
        ensures logs { OnErr result (logs_writes self.old ≡ true) }
        ensures log { log_length self.new ≤ log_length self.old + 1 }
        ensures cells { cells_of self.new ≡ cells_of self.old }
        ensures moves { moves_in self.new ≡ moves_in self.old }
        ensures begun { beginning_of self.new ≡ beginning_of self.old }
        ensures roots { length self.new.roots.items ≡ length self.old.roots.items }
    {
        let number = encode(Value::Num(n));
        self.reserve(1)?;
        Ok(self.write(s as usize, i, number))
    }

    /// Writes nil to field `i` of the object that root `s` refers to: `Done`, `NoObject`, `NoField`, or `NoNumber` if it is raw. No root changes.
    pub fn put_nil_root(&mut self, s: u32, i: u16) -> Result<Reply, NoMemory>
        requires { s < length self.old.roots.items }
        ensures step { IfOk result (λ reply. PutsValue s i Nil (heap_in self.old) reply (heap_in self.new)) }
        ensures err { OnErr result (heap_in self.new ≡ heap_in self.old) }
        ensures logs { OnErr result (logs_writes self.old ≡ true) }
        ensures log { log_length self.new ≤ log_length self.old + 1 }
        ensures cells { cells_of self.new ≡ cells_of self.old }
        ensures moves { moves_in self.new ≡ moves_in self.old }
        ensures begun { beginning_of self.new ≡ beginning_of self.old }
        ensures roots { length self.new.roots.items ≡ length self.old.roots.items }
    {
        let word = encode(Value::Nil);
        self.reserve(1)?;
        Ok(self.write(s as usize, i, word))
    }

    /// Makes a new object with two fields, to which root `d` then refers. The fields then take the values of roots `s` and `t`: `Made` or `Full`. A field that is
    /// filled from root `d` refers to the object itself.
    pub fn new_pair_root(&mut self, d: u32, kind: u8, s: u32, t: u32) -> Result<Reply, NoMemory>
        requires object { d < length self.old.roots.items }
        requires first { s < length self.old.roots.items }
        requires second { t < length self.old.roots.items }
        ensures step { IfOk result (λ reply. MakesPair d kind s t (heap_in self.old) reply (heap_in self.new)) }
        ensures err { OnErr result (heap_in self.new ≡ heap_in self.old) }
        ensures logs { OnErr result (logs_writes self.old ≡ true) }
        ensures log { log_length self.new ≤ log_length self.old + 2 }
        ensures cells { cells_of self.new ≡ cells_of self.old }
        ensures moves { moves_in self.new ≡ moves_in self.old }
        ensures begun { beginning_of self.new ≡ beginning_of self.old }
        ensures roots { length self.new.roots.items ≡ length self.old.roots.items }
    {
        self.reserve(2)?;
        match self.make(d as usize, false, kind, 2) {
            Reply::Made => {
                self.put(d as usize, 0, s as usize);
                self.put(d as usize, 1, t as usize);
                Ok(Reply::Made)
            }
            full => Ok(full),
        }
    }
}
