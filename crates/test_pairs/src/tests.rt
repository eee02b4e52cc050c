// What a search is sure of, by functions that no program calls alone.
use searches::repeats::Sure;

#[test]
fn sure_places(rt: HostRuntime) {
    let none = Sure::none();
    assert_eq!(rt; (none.fixed, none.places, none.here), (0, 0, false));
    let three = Sure::fixed(3);
    assert_eq!(rt; (three.fixed, three.places, three.here), (3, 3, true));
}
