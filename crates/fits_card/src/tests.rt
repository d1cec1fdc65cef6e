use super::*;
use crate::number::Whole;

// A card with this name and value field, and spaces behind them.
fn card_of(name: &[u8; 10], field: &[u8]) -> Card {
    let mut card = [b' '; 80];
    card[..10].copy_from_slice(name);
    let n = field.len().min(70);
    card[10..10 + n].copy_from_slice(&field[..n]);
    card
}

#[test]
fn integers_and_reals(rt: HostRuntime) {
    let rows: [(&[u8], Option<i64>, Whole); 11] = [
        (b"16", Some(16), Whole::Is(16)),
        (b"-007/x", Some(-7), Whole::Is(-7)),
        (b"3.276800E+04", None, Whole::Is(32768)),
        (b"1.", None, Whole::Is(1)),
        (b"0.5", None, Whole::NotWhole),
        (b"5D-1", None, Whole::NotWhole),
        (b"0E-99", None, Whole::Is(0)),
        (b"9223372036854775808", None, Whole::Beyond),
        (b"1E30", None, Whole::Beyond),
        (b"16 17", None, Whole::Unreadable),
        (b"T", None, Whole::Unreadable),
    ];
    for (field, number, answer) in rows {
        let card = card_of(b"BZERO   = ", field);
        assert!(rt; has_value(&card));
        assert_eq!(rt; integer(&card), number);
        assert_eq!(rt; whole(&card), answer);
        assert_eq!(rt; logical(&card).is_some(), field.starts_with(b"T"));
        assert!(rt; text(&card).is_none());
    }
}

#[test]
fn numbers_of_many_digits(rt: HostRuntime) {
    let rows: [(&[u8], Option<i64>, Whole); 8] = [
        (
            b"32768.000000000000000000000000000000000000000000000000000000000000",
            None,
            Whole::Is(32768),
        ),
        (b"0E99999999999999999999", None, Whole::Is(0)),
        (b"1E-99999999999999999999", None, Whole::NotWhole),
        (b"9223372036854775807", Some(i64::MAX), Whole::Is(i64::MAX)),
        (b"-9223372036854775808", Some(i64::MIN), Whole::Is(i64::MIN)),
        (b"-9223372036854775809", None, Whole::Beyond),
        (
            b"0000000000000000000000000000000000000000000000000000000000000000000012",
            Some(12),
            Whole::Is(12),
        ),
        (
            b"9999999999999999999999999999999999999999999999999999999999999999999999",
            None,
            Whole::Beyond,
        ),
    ];
    for (field, number, answer) in rows {
        let card = card_of(b"BZERO   = ", field);
        assert_eq!(rt; integer(&card), number);
        assert_eq!(rt; whole(&card), answer);
    }
}

#[test]
fn strings(rt: HostRuntime) {
    let rows: [(&[u8], Option<&[u8]>); 5] = [
        (b"'O''HARA  '", Some(b"O'HARA")),
        (b"  'a/b ' / comment", Some(b"a/b")),
        (b"'never closed", None),
        (b"'closed' behind", None),
        (b"/ comment", None),
    ];
    for (field, answer) in rows {
        match (text(&card_of(b"BZERO   = ", field)), answer) {
            (Some(found), Some(wanted)) => assert_eq!(rt; found.as_slice(), wanted),
            (found, wanted) => assert_eq!(rt; found.is_some(), wanted.is_some()),
        }
    }
}

#[test]
fn written_cards(rt: HostRuntime) {
    let logical_row = logical_card(b"SIMPLE  ", true);
    assert_eq!(rt;
        logical_row,
        card_of(b"SIMPLE  = ", b"                   T")
    );
    assert_eq!(rt; logical(&logical_row), Some(true));
    let integer_row = int_card(b"BLANK   ", i64::MIN);
    assert_eq!(rt;
        integer_row,
        card_of(b"BLANK   = ", b"-9223372036854775808")
    );
    assert_eq!(rt; integer(&integer_row), Some(i64::MIN));
    let text_row = text_card(b"TFORM1  ", b"J");
    assert_eq!(rt; text_row, card_of(b"TFORM1  = ", b"'J       '"));
    assert_eq!(rt; name(&text_row), *b"TFORM1  ");
    assert!(rt; is_end(&end_card()));
    assert!(rt; !is_end(&text_row));
}
