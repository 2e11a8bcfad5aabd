//! Worked examples: whole traces, and their reply lines.

/// A trace's text, and its reply lines.
#[derive(Clone, Copy)]
pub struct Row {
    pub name: &'static str,
    pub trace: &'static [u8],
    pub replies: &'static [u8],
}

/// A space of one word is empty and has no room for an object.
pub const NO_ROOM_AT_ALL: Row = Row {
    name: "no_room_at_all",
    trace: b"heaptrace 1\nspace 1 mutators 1\nm 0 new r0 0 0\n",
    replies: b"full\n",
};

/// If there is no room for an object, its slot keeps its value.
pub const ONE_OBJECT_FILLS_THE_SPACE: Row = Row {
    name: "one_object_fills_the_space",
    trace: b"heaptrace 1\nspace 7 mutators 1\nm 0 new r0 3 4\nm 0 new r1 0 0\nm 0 look r1\n",
    replies: b"made\nfull\nsaw nil\n",
};

/// The greatest number is kept whole.
pub const GREATEST_NUMBER: Row = Row {
    name: "greatest_number",
    trace: b"heaptrace 1\nspace 7 mutators 1\nm 0 num r0 9223372036854775807\nm 0 look r0\n",
    replies: b"done\nsaw num 9223372036854775807\n",
};

/// One of two objects survives, and then there is room for a third.
pub const COLLECT_WHEN_FULL: Row = Row {
    name: "collect_when_full",
    trace: b"heaptrace 1\nspace 9 mutators 1\nm 0 new r0 1 2\nm 0 new r0 1 2\nm 0 new r1 0 0\nc begin\n\
        c roots\nc scan\nc scan\nc scan\nc scan\nc roots\nc flip\nm 0 new r1 0 0\n",
    replies: b"made\nmade\nfull\nbegun\ncopied\nscanned\nscanned\npassed\nclean\nclean\nflipped 1\nmade\n",
};

/// A mutator writes to a field that is already scanned, and the log entry is applied.
pub const WRITE_WHILE_SCANNING: Row = Row {
    name: "write_while_scanning",
    trace: b"heaptrace 1\nspace 32 mutators 1\nm 0 new r0 1 1\nm 0 num r1 9\nc begin\nc roots\nc scan\n\
        m 0 put r0 0 r1\nc scan\nc flip\nc apply 0\nc flip\nm 0 get r2 r0 0\n",
    replies: b"made\ndone\nbegun\ncopied\nscanned\ndone\npassed\nnot ready\napplied\nflipped 1\nsaw num 9\n",
};

/// Two mutators write to the same field, and the log entries are applied in the opposite order. If an entry kept the
/// value of its own write, the field would end up as 7.
pub const LOG_ACROSS_TWO_MUTATORS: Row = Row {
    name: "log_across_two_mutators",
    trace: b"heaptrace 1\nspace 32 mutators 2\nm 0 new g0 1 1\nc begin\nc roots\nc scan\nc scan\n\
        m 0 num r0 7\nm 0 put g0 0 r0\nm 1 look r0\nm 1 num r0 8\nm 1 put g0 0 r0\nc apply 1\n\
        c apply 0\nc apply 0\nc flip\nm 0 get r1 g0 0\n",
    replies: b"made\nbegun\ncopied\nscanned\npassed\ndone\ndone\nsaw nil\ndone\ndone\napplied\napplied\n\
        clean\nflipped 1\nsaw num 8\n",
};

/// A root that is set after all roots were done delays the flip.
pub const ROOT_MADE_AFTER_THE_SCAN: Row = Row {
    name: "root_made_after_the_scan",
    trace: b"heaptrace 1\nspace 32 mutators 1\nm 0 new r0 1 1\nm 0 new r1 2 0\nm 0 put r0 0 r1\n\
        m 0 nil r1\nc begin\nc roots\nc scan\nc scan\nc scan\nc scan\nc roots\nm 0 get r1 r0 0\n\
        m 0 nil r0\nm 0 new r2 5 0\nc flip\nc roots\nc scan\nc flip\nm 0 look r1\nm 0 look r2\n",
    replies: b"made\nmade\ndone\ndone\nbegun\ncopied\nscanned\npassed\npassed\nclean\nclean\nsaw obj 2 0\n\
        done\nmade\nnot ready\ncopied\npassed\nflipped 3\nsaw obj 2 0\nsaw obj 5 0\n",
};

/// Two objects refer to each other, and one also refers to itself.
pub const CYCLE_OF_TWO: Row = Row {
    name: "cycle_of_two",
    trace: b"heaptrace 1\nspace 32 mutators 1\nm 0 new r0 1 2\nm 0 new r1 2 1\nm 0 put r0 0 r1\n\
        m 0 put r1 0 r0\nm 0 put r0 1 r0\nm 0 get r2 r0 0\nm 0 get r2 r2 0\nm 0 same r2 r0\n\
        m 0 get r3 r0 1\nm 0 same r3 r2\nc begin\nc roots\nc roots\nc roots\nc scan\nc scan\n\
        c scan\nc scan\nc scan\nc scan\nc flip\nm 0 get r4 r0 0\nm 0 get r4 r4 0\nm 0 same r4 r0\n\
        m 0 same r4 r3\nm 0 same r4 r1\n",
    replies: b"made\nmade\ndone\ndone\ndone\nsaw obj 2 1\nsaw obj 1 2\nyes\nsaw obj 1 2\nyes\nbegun\n\
        copied\ncopied\nclean\nscanned\nscanned\npassed\nscanned\npassed\nclean\nflipped 2\n\
        saw obj 2 1\nsaw obj 1 2\nyes\nyes\nno\n",
};

/// The same without a collection: the mutator gets the same replies.
pub const CYCLE_LEFT_ALONE: Row = Row {
    name: "cycle_left_alone",
    trace: b"heaptrace 1\nspace 32 mutators 1\nm 0 new r0 1 2\nm 0 new r1 2 1\nm 0 put r0 0 r1\n\
        m 0 put r1 0 r0\nm 0 put r0 1 r0\nm 0 get r2 r0 0\nm 0 get r2 r2 0\nm 0 same r2 r0\n\
        m 0 get r3 r0 1\nm 0 same r3 r2\nm 0 get r4 r0 0\nm 0 get r4 r4 0\nm 0 same r4 r0\n\
        m 0 same r4 r3\nm 0 same r4 r1\n",
    replies: b"made\nmade\ndone\ndone\ndone\nsaw obj 2 1\nsaw obj 1 2\nyes\nsaw obj 1 2\nyes\nsaw obj 2 1\n\
        saw obj 1 2\nyes\nyes\nno\n",
};

/// Commands on a slot without an object, and on a field that the object does not have.
pub const NO_OBJECT_AND_NO_FIELD: Row = Row {
    name: "no_object_and_no_field",
    trace: b"heaptrace 1\nspace 8 mutators 1\nm 0 get r1 r0 0\nm 0 num r0 0\nm 0 put r0 0 r1\n\
        m 0 same r0 r1\nm 0 same r1 r2\nm 0 new r0 9 1\nm 0 get r1 r0 1\nm 0 put r0 1 r0\n\
        m 0 put r0 0 r0\nm 0 get r1 r0 0\nm 0 same r0 r1\nm 0 move g0 r1\nm 0 look g0\n",
    replies: b"no object\ndone\nno object\nno\nyes\nmade\nno field\nno field\ndone\nsaw obj 9 1\nyes\n\
        done\nsaw obj 9 1\n",
};

/// Applying the log entry of an object that has no replica yet does nothing.
pub const LOG_ENTRY_WITHOUT_A_REPLICA: Row = Row {
    name: "log_entry_without_a_replica",
    trace: b"heaptrace 1\nspace 32 mutators 1\nm 0 new r0 1 1\nc begin\nm 0 put r0 0 r0\nc apply 0\n\
        c apply 0\nc roots\nc scan\nc scan\nc flip\nm 0 get r1 r0 0\nm 0 same r0 r1\n",
    replies: b"made\nbegun\ndone\napplied\nclean\ncopied\nscanned\npassed\nflipped 1\nsaw obj 1 1\nyes\n",
};

/// The greatest space is filled to its last word.
pub const EXACTLY_FULL: Row = Row {
    name: "exactly_full",
    trace: b"heaptrace 1\nspace 1048576 mutators 1\nm 0 new r0 255 65535\nm 0 new r0 255 65535\n\
        m 0 new r0 255 65535\nm 0 new r0 255 65535\nm 0 new r0 255 65535\nm 0 new r0 255 65535\n\
        m 0 new r0 255 65535\nm 0 new r0 255 65535\nm 0 new r0 255 65535\nm 0 new r0 255 65535\n\
        m 0 new r0 255 65535\nm 0 new r0 255 65535\nm 0 new r0 255 65535\nm 0 new r0 255 65535\n\
        m 0 new r0 255 65535\nm 0 new r0 255 65535\nm 0 new r1 0 65518\nm 0 new r1 0 0\n",
    replies: b"made\nmade\nmade\nmade\nmade\nmade\nmade\nmade\nmade\nmade\nmade\nmade\nmade\nmade\nmade\n\
        full\nmade\nfull\n",
};

/// Steps without a collection, and a collection that is dropped. If it left a link, the next collection would not
/// replicate that object.
pub const LINK_LEFT_OVER: Row = Row {
    name: "link_left_over",
    trace: b"heaptrace 1\nspace 16 mutators 1\nc scan\nc apply 0\nc roots\nc flip\nc drop\n\
        m 0 new r0 2 1\nc begin\nc begin\nc roots\nm 0 put r0 0 r0\nc drop\nc begin\nc apply 0\n\
        c roots\nc scan\nc scan\nc flip\n",
    replies: b"idle\nidle\nidle\nidle\nidle\nmade\nbegun\nbusy\ncopied\ndone\ndropped\nbegun\nclean\n\
        copied\nscanned\npassed\nflipped 1\n",
};

/// No root is set.
pub const NOTHING_TO_COPY: Row = Row {
    name: "nothing_to_copy",
    trace: b"heaptrace 1\nspace 8 mutators 1\nc begin\nc flip\n",
    replies: b"begun\nflipped 0\n",
};

/// A trace without events.
pub const NO_EVENTS: Row = Row {
    name: "no_events",
    trace: b"heaptrace 1\nspace 8 mutators 1\n",
    replies: b"",
};

/// Everything in the space survives.
pub const NOTHING_IS_FREED: Row = Row {
    name: "nothing_is_freed",
    trace: b"heaptrace 1\nspace 7 mutators 1\nm 0 new r0 3 4\nc begin\nc roots\nc scan\nc scan\nc scan\n\
        c scan\nc scan\nc flip\nm 0 new r1 0 0\n",
    replies: b"made\nbegun\ncopied\nscanned\nscanned\nscanned\nscanned\npassed\nflipped 1\nfull\n",
};

/// After a collection of a full space, both objects survive a second collection.
pub const SECOND_COLLECTION: Row = Row {
    name: "second_collection",
    trace: b"heaptrace 1\nspace 9 mutators 1\nm 0 new r0 1 2\nm 0 new r0 1 2\nm 0 new r1 0 0\nc begin\n\
        c roots\nc scan\nc scan\nc scan\nc scan\nc roots\nc flip\nm 0 new r1 0 0\nc begin\nc roots\n\
        c roots\nc scan\nc scan\nc scan\nc scan\nc flip\n",
    replies: b"made\nmade\nfull\nbegun\ncopied\nscanned\nscanned\npassed\nclean\nclean\nflipped 1\nmade\n\
        begun\ncopied\ncopied\nscanned\nscanned\npassed\npassed\nflipped 2\n",
};

/// The target of a root has no room in a smaller new space, but has room in a larger one.
pub const ROOT_WITHOUT_ROOM: Row = Row {
    name: "root_without_room",
    trace: b"heaptrace 2\nspace 7 mutators 1\nm 0 new r0 3 4\nc begin 6\nc roots\nc roots\nc flip\n\
        c begin 7\nc drop\nc begin 12\nc roots\nc scan\nc scan\nc scan\nc scan\nc scan\nc flip\n\
        m 0 new r1 0 3\nm 0 new r1 0 0\n",
    replies: b"made\nbegun\nno room\nno room\nnot ready\nbusy\ndropped\nbegun\ncopied\nscanned\nscanned\n\
        scanned\nscanned\npassed\nflipped 1\nmade\nfull\n",
};

/// After the flip, the mutators' space has the size given by `begin`.
pub const SMALLER_SPACE: Row = Row {
    name: "smaller_space",
    trace: b"heaptrace 2\nspace 9 mutators 1\nm 0 new r0 1 2\nm 0 new r0 1 2\nc begin 5\nc roots\n\
        c scan\nc scan\nc scan\nc flip\nm 0 new r1 0 0\nc begin\nc roots\n",
    replies: b"made\nmade\nbegun\ncopied\nscanned\nscanned\npassed\nflipped 1\nfull\nbegun\ncopied\n",
};

/// There is no room for a field's target, until the field holds a number.
pub const SCAN_WITHOUT_ROOM: Row = Row {
    name: "scan_without_room",
    trace: b"heaptrace 2\nspace 16 mutators 1\nm 0 new r0 1 1\nm 0 new r1 2 0\nm 0 put r0 0 r1\n\
        m 0 nil r1\nc begin 5\nc roots\nc scan\nm 0 num r2 4\nm 0 put r0 0 r2\nc scan\nc apply 0\n\
        c scan\nc flip\nm 0 get r3 r0 0\n",
    replies: b"made\nmade\ndone\ndone\nbegun\ncopied\nno room\ndone\ndone\nscanned\napplied\npassed\n\
        flipped 1\nsaw num 4\n",
};

/// There is no room for the target of a logged field. The entry stays until the field holds nil.
pub const ENTRY_WITHOUT_ROOM: Row = Row {
    name: "entry_without_room",
    trace: b"heaptrace 2\nspace 16 mutators 1\nm 0 new r0 1 1\nc begin 5\nc roots\nc scan\nc scan\n\
        m 0 new r1 2 0\nm 0 put r0 0 r1\nc apply 0\nc apply 0\nm 0 nil r1\nm 0 put r0 0 r1\n\
        c apply 0\nc apply 0\nc apply 0\nc flip\n",
    replies: b"made\nbegun\ncopied\nscanned\npassed\nmade\ndone\nno room\nno room\ndone\ndone\napplied\n\
        applied\nclean\nflipped 1\n",
};

/// A raw object takes only numbers. It is written to before and after it is copied.
pub const RAW_WRITTEN_WHILE_COPIED: Row = Row {
    name: "raw_written_while_copied",
    trace: b"heaptrace 3\nspace 16 mutators 1\nm 0 raw r0 7 2\nm 0 look r0\nm 0 get r1 r0 1\n\
        m 0 put r0 0 r2\nm 0 put r0 2 r2\nm 0 num r1 8\nm 0 put r0 0 r1\nc begin\nc roots\n\
        m 0 num r1 10\nm 0 put r0 1 r1\nc scan\nc scan\nc flip\nc apply 0\nc flip\n\
        m 0 get r2 r0 0\nm 0 get r2 r0 1\n",
    replies: b"made\nsaw raw 7 2\nsaw num 0\nno number\nno field\ndone\ndone\nbegun\ncopied\n\
        done\ndone\npassed\nclean\nnot ready\napplied\nflipped 1\nsaw num 8\nsaw num 10\n",
};

/// A raw field whose word looks like a reference keeps no object alive. The collection's `begin` gives a size.
pub const RAW_WORDS_KEEP_NOTHING: Row = Row {
    name: "raw_words_keep_nothing",
    trace: b"heaptrace 3\nspace 16 mutators 1\nm 0 new r0 1 0\nm 0 raw r1 0 1\nm 0 num r2 2\n\
        m 0 put r1 0 r2\nm 0 nil r0\nc begin 4\nc roots\nc roots\nc scan\nc scan\nc flip\n\
        m 0 get r3 r1 0\nm 0 raw r4 0 0\n",
    replies: b"made\nmade\ndone\ndone\ndone\nbegun\ncopied\nclean\npassed\nclean\nflipped 1\n\
        saw num 2\nfull\n",
};

/// All rows.
pub const ROWS: [Row; 23] = [
    NO_ROOM_AT_ALL,
    ONE_OBJECT_FILLS_THE_SPACE,
    GREATEST_NUMBER,
    COLLECT_WHEN_FULL,
    WRITE_WHILE_SCANNING,
    LOG_ACROSS_TWO_MUTATORS,
    ROOT_MADE_AFTER_THE_SCAN,
    CYCLE_OF_TWO,
    CYCLE_LEFT_ALONE,
    NO_OBJECT_AND_NO_FIELD,
    LOG_ENTRY_WITHOUT_A_REPLICA,
    EXACTLY_FULL,
    LINK_LEFT_OVER,
    NOTHING_TO_COPY,
    NO_EVENTS,
    NOTHING_IS_FREED,
    SECOND_COLLECTION,
    ROOT_WITHOUT_ROOM,
    SMALLER_SPACE,
    SCAN_WITHOUT_ROOM,
    ENTRY_WITHOUT_ROOM,
    RAW_WRITTEN_WHILE_COPIED,
    RAW_WORDS_KEEP_NOTHING,
];
