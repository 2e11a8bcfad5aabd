ghost use Rattle.std.specs.Prelude.{◌≡◌, MatchResult};
ghost use Rattle.gc_graph.specs.declared.command.Op.TheVariants as ops;
ghost use Rattle.gc_graph.specs.declared.reply.Reply.TheVariants as replies;
ghost use Rattle.gc_graph.specs.declared.reply.View.TheVariants as views;
ghost use Rattle.gc_world.specs.Forms.{op_of, reply_of};

use gc_graph::{Number, Op, Reply, Slot, View};

/// A command that gives no number, in 8 bytes.
#[derive(Clone, Copy, Debug, PartialEq, Eq)]
pub(crate) enum BareOp {
    New { d: Slot, kind: u8, len: u16 },
    NewRaw { d: Slot, kind: u8, len: u16 },
    Nil { d: Slot },
    Move { d: Slot, s: Slot },
    Get { d: Slot, s: Slot, i: u16 },
    Put { s: Slot, i: u16, t: Slot },
    Same { s: Slot, t: Slot },
    Look { s: Slot },
}

impl BareOp {
    /// Returns the command without a number, or the slot and the number of a `Num`.
    pub(crate) fn of(op: &Op) -> Result<BareOp, (Slot, Number)>
        ensures { MatchResult result
            (λ bare. op.now ≡ op_of bare)
            (λ num. op.now ≡ ops.Num num.0 num.1) }
    {
        match *op {
            Op::New { d, kind, len } => Ok(BareOp::New { d, kind, len }),
            Op::NewRaw { d, kind, len } => Ok(BareOp::NewRaw { d, kind, len }),
            Op::Num { d, n } => Err((d, n)),
            Op::Nil { d } => Ok(BareOp::Nil { d }),
            Op::Move { d, s } => Ok(BareOp::Move { d, s }),
            Op::Get { d, s, i } => Ok(BareOp::Get { d, s, i }),
            Op::Put { s, i, t } => Ok(BareOp::Put { s, i, t }),
            Op::Same { s, t } => Ok(BareOp::Same { s, t }),
            Op::Look { s } => Ok(BareOp::Look { s }),
        }
    }

    /// Returns the command.
    pub(crate) fn op(self) -> Op
        ensures { result ≡ op_of self }
    {
        match self {
            BareOp::New { d, kind, len } => Op::New { d, kind, len },
            BareOp::NewRaw { d, kind, len } => Op::NewRaw { d, kind, len },
            BareOp::Nil { d } => Op::Nil { d },
            BareOp::Move { d, s } => Op::Move { d, s },
            BareOp::Get { d, s, i } => Op::Get { d, s, i },
            BareOp::Put { s, i, t } => Op::Put { s, i, t },
            BareOp::Same { s, t } => Op::Same { s, t },
            BareOp::Look { s } => Op::Look { s },
        }
    }
}

/// A reply that shows no number, in 4 bytes.
#[derive(Clone, Copy, Debug, PartialEq, Eq)]
pub(crate) enum BareReply {
    Full,
    Made,
    Done,
    NoObject,
    NoField,
    NoNumber,
    SawNil,
    SawObj { kind: u8, len: u16 },
    SawRawObj { kind: u8, len: u16 },
    Yes,
    No,
}

impl BareReply {
    /// Returns the reply without a number, or the number that was seen.
    pub(crate) fn of(reply: &Reply) -> Result<BareReply, Number>
        ensures { MatchResult result
            (λ bare. reply.now ≡ reply_of bare)
            (λ n. reply.now ≡ replies.Saw (views.Num n)) }
    {
        match *reply {
            Reply::Full => Ok(BareReply::Full),
            Reply::Made => Ok(BareReply::Made),
            Reply::Done => Ok(BareReply::Done),
            Reply::NoObject => Ok(BareReply::NoObject),
            Reply::NoField => Ok(BareReply::NoField),
            Reply::NoNumber => Ok(BareReply::NoNumber),
            Reply::Saw(View::Nil) => Ok(BareReply::SawNil),
            Reply::Saw(View::Num(n)) => Err(n),
            Reply::Saw(View::Obj { kind, len }) => Ok(BareReply::SawObj { kind, len }),
            Reply::Saw(View::RawObj { kind, len }) => Ok(BareReply::SawRawObj { kind, len }),
            Reply::Yes => Ok(BareReply::Yes),
            Reply::No => Ok(BareReply::No),
        }
    }

    /// Returns the reply.
    pub(crate) fn reply(self) -> Reply
        ensures { result ≡ reply_of self }
    {
        match self {
            BareReply::Full => Reply::Full,
            BareReply::Made => Reply::Made,
            BareReply::Done => Reply::Done,
            BareReply::NoObject => Reply::NoObject,
            BareReply::NoField => Reply::NoField,
            BareReply::NoNumber => Reply::NoNumber,
            BareReply::SawNil => Reply::Saw(View::Nil),
            BareReply::SawObj { kind, len } => Reply::Saw(View::Obj { kind, len }),
            BareReply::SawRawObj { kind, len } => Reply::Saw(View::RawObj { kind, len }),
            BareReply::Yes => Reply::Yes,
            BareReply::No => Reply::No,
        }
    }
}
