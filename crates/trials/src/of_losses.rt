use crate::told::told;
use losses::book::LossBook;
use losses::lossless::Lossless;
use losses::segments::Segments;
use losses::split::Split;

#[test]
fn segments_add_up(rt: HostRuntime) {
    let mut book = Segments::new();
    assert_eq!(rt; told(book.fill(7, 1, 6_000, 1_000)), Ok(()));
    assert_eq!(rt; told(book.fill(7, 1, 200_000, 2_500)), Ok(()));
    assert_eq!(rt; book.loss(7, -6_001), 600);
    assert_eq!(rt; book.loss(7, -6_004), 601);
    assert_eq!(rt; book.loss(7, -7_600), 1_000);
    assert_eq!(rt; book.loss(7, 7_600), 0);
}

#[test]
fn a_ninth_segment(rt: HostRuntime) {
    let mut book = Segments::new();
    for upper in 1..9 {
        assert_eq!(rt; told(book.fill(0, 0, upper, 10_000)), Ok(()));
    }
    assert_eq!(rt; told(book.fill(0, 0, 8, 10_000)), Err((12, 2)));
    assert_eq!(rt; told(book.fill(0, 0, 9, 10_000)), Err((12, 4)));
}

// Link 1 has one segment, whose slope goes on past its upper end.
#[test]
fn a_split_of_a_split(rt: HostRuntime) {
    let mut book = Segments::new();
    assert_eq!(rt; told(book.fill(1, 0, 100, 500)), Ok(()));
    let split = Split::new(1, Lossless, Split::new(2, book, Lossless));
    assert_eq!(rt; split.loss(0, 200), 0);
    assert_eq!(rt; split.loss(1, 200), 10);
    assert_eq!(rt; split.loss(2, 200), 0);
}
