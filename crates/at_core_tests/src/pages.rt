//! A page of a zone table, as a list.
use at_zip::read_page;

#[test]
fn a_page_gives_its_names_as_a_list(rt: HostRuntime) {
    let view = read_page([1, 0, 0, 2], b"\x03Lab\x06Office").expect(&rt, "no page");
    let list = view.to_list(rt.alloc()).expect(&rt, "out of memory");
    assert!(rt; list.as_slice().len() == 2);
    for (name, want) in list.as_slice().iter().zip([b"Lab".as_slice(), b"Office"]) {
        assert!(rt; name.bytes() == want);
    }
}
