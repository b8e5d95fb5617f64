//! Sets of addresses that words of data leave open.
use symbol_bind::address_set::AddressSet;

#[test]
fn words_of_data_leave_one_address_open(rt: HostRuntime) {
    let rows = [
        (4, 0x1001_0004, 0x1001_0000, true),
        (4, 0x1001_0004, 0x1001_0004, false),
        (4, 3, 0xffff_ffff, true),
        (-4, 0, 4, true),
        (0, 5, 6, false),
    ];
    for (offset, word, address, is_open) in rows {
        let set = AddressSet::all().by_data(offset, word);
        assert_eq!(rt; set.contains(address), is_open, "{word} at {address}");
        assert_eq!(rt; set.by_data(offset, word ^ 1).contains(address), false);
    }
}
