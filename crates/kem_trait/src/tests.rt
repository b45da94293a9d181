use crate::{ListWords, SeedWords, Words};

#[test]
fn listed_words_come_first_and_then_zeros(rt: HostRuntime) {
    let list = [7, 0xffff_ffff];
    let mut words = ListWords::new(&list);
    assert_eq!(rt; words.next(), 7);
    assert_eq!(rt; words.next(), 0xffff_ffff);
    assert_eq!(rt; words.next(), 0);
    assert_eq!(rt; words.next(), 0);
}
