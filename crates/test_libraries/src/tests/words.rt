use gc_graph::Number;
use gc_words::{Addr, Header, ShapeFault, Space, Value, decode, decode_wide, encode, walk};
use std::test::Fail;

fn num(n: u64) -> Option<Value> {
    Number::new(n).map(Value::Num)
}

fn reference(address: u32) -> Option<Value> {
    Some(Value::Ref(Addr(address)))
}

#[test]
fn words_are_values(rt: HostRuntime) {
    for (word, value) in [
        (0, Some(Value::Nil)),
        (1, num(0)),
        (2, reference(1)),
        (3, num(1)),
        (9, num(4)),
        (8, reference(4)),
        (2097150, reference(1048575)),
        (2097152, None),
        (18446744073709551614, None),
        (18446744073709551615, num(9223372036854775807)),
    ] {
        assert_eq!(rt; decode(word), value, "at {word}");
        if let Some(value) = decode(word) {
            assert_eq!(rt; encode(value), word);
        }
    }
}

#[test]
fn words_of_any_space_are_values(rt: HostRuntime) {
    for (word, value) in [
        (0, Some(Value::Nil)),
        (1, num(0)),
        (2097150, reference(1048575)),
        (2097152, reference(1048576)),
        (4294967296, reference(2147483648)),
        (8589934588, reference(4294967294)),
        (8589934590, None),
        (8589934592, None),
        (18446744073709551614, None),
        (18446744073709551615, num(9223372036854775807)),
    ] {
        assert_eq!(rt; decode_wide(word), value, "at {word}");
        if let Some(value) = decode_wide(word) {
            assert_eq!(rt; encode(value), word);
        }
    }
}

#[test]
fn words_are_headers(rt: HostRuntime) {
    for (word, header) in [
        (16777215, None),
        (16777216, Some((0, 0))),
        (16777217, Some((0, 1))),
        (16842752, Some((1, 0))),
        (16842754, Some((1, 2))),
        (33554431, Some((255, 65535))),
        (33554432, None),
    ] {
        let read = Header::read(word);
        assert_eq!(rt; read.map(|h| (h.kind(), h.len())), header, "at {word}");
        if let Some((kind, len)) = header {
            assert_eq!(rt; Header::new(kind, len).word(), word);
        }
    }
}

#[test]
fn words_are_headers_of_raw_objects(rt: HostRuntime) {
    for (word, header) in [
        (50331647, None),
        (50331648, Some((0, 0))),
        (67108863, Some((255, 65535))),
        (67108864, None),
    ] {
        let read = Header::read(word);
        assert_eq!(rt; read.map(|h| (h.kind(), h.len())), header, "at {word}");
        if let Some((kind, len)) = header {
            let raw = Header::new_raw(kind, len);
            assert!(rt; raw.is_raw() && !Header::new(kind, len).is_raw());
            assert_eq!(rt; raw.word(), word);
        }
    }
}

#[test]
fn raw_headers_count_where_they_should(rt: HostRuntime) {
    let words = [0, 50331649, 0, 18];
    assert_eq!(rt; walk(&words, 4, true), Ok(()));
    assert_eq!(rt; walk(&words, 4, false), Err(ShapeFault { at: 1 }));
}

/// A copy has the same field words, whatever they look like, and link 0.
#[test]
fn raw_object_is_copied(rt: HostRuntime) -> Result<(), Fail> {
    let mut from = Space::new(rt.alloc(), 9)?;
    let at = from.place(Header::new_raw(7, 2));
    from.set_field(at, 0, 2);
    from.set_field(at, 1, 9223372036854775807);
    from.set_link(at, 5);
    let mut space = Space::new(rt.alloc(), 9)?;
    let copy = space.place_copy(&from, at);
    assert_eq!(rt; copy.0, 1);
    let words = [0, 50790402, 0, 2, 9223372036854775807];
    assert_eq!(rt; space.words(), words.as_slice());
    Ok(())
}

/// Fills a space exactly: an object with two fields, and one that refers to it in a field and in its link.
#[test]
fn space_is_filled(rt: HostRuntime) -> Result<(), Fail> {
    let mut space = Space::new(rt.alloc(), 9)?;
    assert_eq!(rt; (space.size(), space.end(), space.free()), (9, 1, 8));
    assert_eq!(rt; space.words(), [0].as_slice());

    assert!(rt; space.has_room(6) && !space.has_room(7));
    let first = space.place(Header::new(1, 2));
    assert!(rt; space.has_room(2) && !space.has_room(3));
    let second = space.place(Header::new(2, 2));
    assert_eq!(rt; (first, second), (Addr(1), Addr(5)));
    assert_eq!(rt; (space.size(), space.end(), space.free()), (9, 9, 0));

    space.set_field(second, 1, 2);
    assert_eq!(rt; space.field(second, 1), 2);
    for (place, is_start) in [(0, false), (1, true), (2, false), (5, true), (9, false)] {
        assert_eq!(rt; space.is_start(Addr(place)), is_start, "at {place}");
    }
    assert!(rt; space.is_start(second));
    space.set_link(second, 1);
    assert_eq!(rt;
        space.words(),
        [0, 16842754, 0, 0, 0, 16908290, 1, 0, 2].as_slice()
    );
    assert!(rt; space.is_start(second));
    assert_eq!(rt; space.link(second), 1);
    assert_eq!(rt; space.header(second), Header::new(2, 2));

    space.clear_links();
    assert_eq!(rt;
        space.into_words().as_slice(),
        [0, 16842754, 0, 0, 0, 16908290, 0, 0, 2].as_slice()
    );
    Ok(())
}

#[test]
fn walks_find_the_first_fault(rt: HostRuntime) {
    for (words, end, fault) in [
        ([0].as_slice(), 1, None),
        ([7].as_slice(), 1, Some(0)),
        ([0].as_slice(), 2, Some(0)),
        ([0, 16777216, 0].as_slice(), 3, None),
        ([0, 16777217, 0].as_slice(), 3, Some(1)),
        ([0, 16777216, 0, 5].as_slice(), 4, Some(3)),
    ] {
        let walked = walk(words, end, true);
        assert_eq!(rt; walked.err(), fault.map(|at| ShapeFault { at }), "at {end}");
    }
}
