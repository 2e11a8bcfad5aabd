//! Traces that several tests read.

/// One object fills the space, so there is no room for a second one.
pub const FULL: &[u8] =
    b"heaptrace 1\nspace 7 mutators 1\nm 0 new r0 3 4\nm 0 new r1 0 0\nm 0 look r1\n";

/// An allocation that found no room succeeds after a collection.
pub const COLLECT_WHEN_FULL: &[u8] = b"heaptrace 1\nspace 9 mutators 1\n\
    m 0 new r0 1 2\nm 0 new r0 1 2\nm 0 new r1 0 0\n\
    c begin\nc roots\nc scan\nc scan\nc scan\nc scan\nc roots\nc flip\n\
    m 0 new r1 0 0\n";

/// A raw object takes only numbers. It is written to while a collection is open.
pub const RAW: &[u8] = b"heaptrace 3\nspace 8 mutators 1\n\
    m 0 raw r0 7 2\nm 0 put r0 0 r0\nm 0 num r1 8\nm 0 put r0 0 r1\n\
    c begin\nc roots\nm 0 put r0 1 r1\nc scan\nc apply 0\nc flip\n\
    m 0 look r0\nm 0 get r2 r0 1\n";
