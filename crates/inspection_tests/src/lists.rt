// An empty list over a table, for both kinds of entry.
use inspection::{EeName, Entry, List, Marked, VfName};

#[test]
fn empty(rt: HostRuntime) {
    let name = VfName { point: 1, face: 2 };
    let mut table = [Marked::new(name); 3];
    let list = List::new(&mut table);
    assert_eq!(rt; list.len(), 0);
    assert!(rt; list.is_empty());
    assert_eq!(rt; list.room(), 3);
    assert!(rt; list.get(0).is_none());
    assert!(rt; list.places().is_empty());
    assert!(rt; !list.holds(&name));
}

#[test]
fn sameness(rt: HostRuntime) {
    let name = VfName { point: 1, face: 2 };
    assert!(rt; name.is_same(&VfName { point: 1, face: 2 }));
    assert!(rt; !name.is_same(&VfName { point: 2, face: 1 }));
    assert!(rt; !name.is_same(&VfName { point: 1, face: 1 }));
    let name = EeName {
        u: 1,
        v: 2,
        k: 3,
        l: 4,
    };
    assert!(rt;
        name.is_same(&EeName {
            u: 1,
            v: 2,
            k: 3,
            l: 4,
        },)
    );
    assert!(rt;
        !name.is_same(&EeName {
            u: 1,
            v: 2,
            k: 3,
            l: 5,
        },)
    );
    assert!(rt;
        !name.is_same(&EeName {
            u: 3,
            v: 4,
            k: 1,
            l: 2,
        },)
    );
}
