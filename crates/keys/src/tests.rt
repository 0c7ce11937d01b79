//! The kinds at their boundaries.
use super::*;

fn text(bytes: [u8; 8]) -> Mixed {
    Mixed::Text(ShortText::from(bytes))
}

#[test]
fn whole_compares_at_the_ends(rt: HostRuntime) {
    let (least, greatest) = (Whole(i64::MIN), Whole(i64::MAX));
    assert_eq!(rt; least.compare(greatest), Relation::Before);
    assert_eq!(rt; greatest.compare(least), Relation::After);
    assert_eq!(rt; least.compare(least), Relation::Equal);
    assert_eq!(rt; Whole(-1).compare(Whole(0)), Relation::Before);
    assert_eq!(rt; Whole(1).compare(Whole(0)), Relation::After);
}

#[test]
fn whole_counts_up_to_64_bits(rt: HostRuntime) {
    assert_eq!(rt;
        <Whole as Key>::range_size(Whole(i64::MIN), Whole(i64::MAX)),
        None
    );
    assert_eq!(rt;
        <Whole as Key>::range_size(Whole(i64::MIN), Whole(i64::MAX - 1)),
        Some(u64::MAX)
    );
    assert_eq!(rt;
        <Whole as Key>::range_size(Whole(i64::MIN + 1), Whole(i64::MAX)),
        Some(u64::MAX)
    );
    assert_eq!(rt; <Whole as Key>::range_size(Whole(-3), Whole(6)), Some(10));
    assert_eq!(rt; <Whole as Key>::range_size(Whole(7), Whole(7)), Some(1));
    assert_eq!(rt; <Whole as Key>::range_size(Whole(8), Whole(7)), None);
}

#[test]
fn texts_compare_by_bytes(rt: HostRuntime) {
    let base = text(*b"flat 12b");
    assert_eq!(rt; base.compare(base), Relation::Equal);
    assert_eq!(rt; base.compare(text(*b"glat 12b")), Relation::Before);
    assert_eq!(rt; base.compare(text(*b"flat 12a")), Relation::After);
    // a first byte decides over all later ones, and a top bit is no sign
    assert_eq!(rt;
        text([1, 255, 255, 255, 255, 255, 255, 255]).compare(text([2, 0, 0, 0, 0, 0, 0, 0])),
        Relation::Before
    );
    assert_eq!(rt;
        text([128, 0, 0, 0, 0, 0, 0, 0]).compare(text([127, 0, 0, 0, 0, 0, 0, 0])),
        Relation::After
    );
    assert_eq!(rt;
        text([0, 0, 0, 0, 0, 0, 0, 128]).compare(text([0, 0, 0, 0, 0, 0, 0, 127])),
        Relation::After
    );
}

#[test]
fn texts_keep_their_bytes(rt: HostRuntime) {
    assert_eq!(rt;
        <[u8; 8]>::from(ShortText::from(*b"flat 12b")),
        *b"flat 12b"
    );
    assert_eq!(rt; <[u8; 8]>::from(ShortText::from([255; 8])), [255; 8]);
}

#[test]
fn families_are_unrelated(rt: HostRuntime) {
    let (number, word) = (Mixed::Number(0), text([0; 8]));
    assert_eq!(rt; number.compare(word), Relation::Unrelated);
    assert_eq!(rt; word.compare(number), Relation::Unrelated);
    assert_eq!(rt;
        Mixed::Number(2).compare(Mixed::Number(3)),
        Relation::Before
    );
    assert_eq!(rt;
        <Mixed as Key>::range_size(Mixed::Number(2), Mixed::Number(3)),
        Some(2)
    );
    assert_eq!(rt; <Mixed as Key>::range_size(number, word), None);
    assert_eq!(rt; <Mixed as Key>::range_size(word, number), None);
    assert_eq!(rt; <Mixed as Key>::range_size(word, word), None);
}
