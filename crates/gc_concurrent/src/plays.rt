//! What each step on the cells, and on the word of the handshake, tells of it.
use crate::cells::CellsView;
use crate::commands::Commander;
use crate::handshake::HandshakeView;
use atomic_table::{Join, Play, Split};

pub(crate) struct Got;

impl Play<Vec<u64>, CellsView> for Got {
    ghost use Rattle.gc_concurrent.specs.Internal.Rule.{tells_get};

    ghost then = { tells_get };
}

pub(crate) struct Put;

impl Play<Vec<u64>, CellsView> for Put {
    ghost use Rattle.gc_concurrent.specs.Internal.Rule.{tells_put};

    ghost then = { tells_put };
}

pub(crate) struct Made;

impl Play<Vec<u64>, CellsView> for Made {
    ghost use Rattle.gc_concurrent.specs.Internal.Rule.{tells_new};

    ghost then = { tells_new };
}

pub(crate) struct Referred;

impl Play<Vec<u64>, CellsView> for Referred {
    ghost use Rattle.gc_concurrent.specs.Internal.Rule.{tells_refer};

    ghost then = { tells_refer };
}

pub(crate) struct Renewed;

impl Play<Vec<u64>, CellsView> for Renewed {
    ghost use Rattle.gc_concurrent.specs.Internal.Rule.{tells_renew};

    ghost then = { tells_renew };
}

pub(crate) struct Took;

impl Play<Vec<u64>, CellsView> for Took {
    ghost use Rattle.gc_concurrent.specs.Internal.Rule.{tells_take};

    ghost then = { tells_take };
}

pub(crate) struct Rooted;

impl Play<Vec<u64>, CellsView> for Rooted {
    ghost use Rattle.gc_concurrent.specs.Internal.Rule.{tells_root};

    ghost then = { tells_root };
}

pub(crate) struct Scanned;

impl Play<Vec<u64>, CellsView> for Scanned {
    ghost use Rattle.gc_concurrent.specs.Internal.Rule.{tells_scan};

    ghost then = { tells_scan };
}

pub(crate) struct Applied;

impl Play<Vec<u64>, CellsView> for Applied {
    ghost use Rattle.gc_concurrent.specs.Internal.Rule.{tells_apply};

    ghost then = { tells_apply };
}

pub(crate) struct Placed;

impl Play<Vec<u64>, CellsView> for Placed {
    ghost use Rattle.gc_concurrent.specs.Internal.Rule.{tells_place};

    ghost then = { tells_place };
}

pub(crate) struct Passed;

impl Play<Vec<u64>, CellsView> for Passed {
    ghost use Rattle.gc_concurrent.specs.Internal.Rule.{tells_pass};

    ghost then = { tells_pass };
}

pub(crate) struct Left;

impl Play<Vec<u64>, CellsView> for Left {
    ghost use Rattle.gc_concurrent.specs.Internal.Rule.{tells_leave};

    ghost then = { tells_leave };
}

pub(crate) struct Flipped;

impl Play<Vec<u64>, CellsView> for Flipped {
    ghost use Rattle.gc_concurrent.specs.Internal.Flip.{tells_flip};

    ghost then = { tells_flip };
}

#[derive(Clone, Copy)]
pub(crate) struct Looked;

impl Play<Vec<u64>, CellsView> for Looked {
    ghost use Rattle.gc_concurrent.specs.Internal.Rule.{tells_look};

    ghost then = { tells_look };
}

#[derive(Clone, Copy)]
pub(crate) struct Headed;

impl Play<Vec<u64>, CellsView> for Headed {
    ghost use Rattle.gc_concurrent.specs.Internal.Rule.{tells_header};

    ghost then = { tells_header };
}

#[derive(Clone, Copy)]
pub(crate) struct Saw;

impl Play<Vec<u64>, CellsView> for Saw {
    ghost use Rattle.gc_concurrent.specs.Internal.Rule.{tells_see};

    ghost then = { tells_see };
}

pub(crate) struct Roles;

impl Split<CellsView> for Roles {
    ghost use Rattle.gc_concurrent.specs.Internal.Rule.{only_writes, only_copies};

    ghost left = { only_copies };

    ghost right = { only_writes };
}

impl Join<CellsView> for Roles {
    ghost use Rattle.gc_concurrent.specs.Internal.Rule.{both_ends, spent_view};

    ghost both = { both_ends };

    ghost spent = { spent_view };
}

pub(crate) struct Start;

impl Play<Option<Commander>, HandshakeView> for Start {
    ghost use Rattle.gc_concurrent.specs.Internal.Handshakes.{tells_start};

    ghost then = { tells_start };
}

pub(crate) struct Park;

impl Play<Option<Commander>, HandshakeView> for Park {
    ghost use Rattle.gc_concurrent.specs.Internal.Handshakes.{tells_park};

    ghost then = { tells_park };
}

pub(crate) struct Resume;

impl Play<Option<Commander>, HandshakeView> for Resume {
    ghost use Rattle.gc_concurrent.specs.Internal.Handshakes.{tells_resume};

    ghost then = { tells_resume };
}

pub(crate) struct Ask;

impl Play<Option<Commander>, HandshakeView> for Ask {
    ghost use Rattle.gc_concurrent.specs.Internal.Handshakes.{tells_ask};

    ghost then = { tells_ask };
}

pub(crate) struct Withdraw;

impl Play<Option<Commander>, HandshakeView> for Withdraw {
    ghost use Rattle.gc_concurrent.specs.Internal.Handshakes.{tells_withdraw};

    ghost then = { tells_withdraw };
}

pub(crate) struct Take;

impl Play<Option<Commander>, HandshakeView> for Take {
    ghost use Rattle.gc_concurrent.specs.Internal.Handshakes.{tells_hand_over};

    ghost then = { tells_hand_over };
}

pub(crate) struct Go;

impl Play<Option<Commander>, HandshakeView> for Go {
    ghost use Rattle.gc_concurrent.specs.Internal.Handshakes.{tells_go};

    ghost then = { tells_go };
}

pub(crate) struct HandshakeRoles;

impl Split<HandshakeView> for HandshakeRoles {
    ghost use Rattle.gc_concurrent.specs.Internal.Handshakes.{only_goes, only_keeps};

    ghost left = { only_goes };

    ghost right = { only_keeps };
}
