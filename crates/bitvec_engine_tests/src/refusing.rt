//! Which requests the allocator that refuses grants, and how it counts them: a cell hides both from clauses.
use bitvec_test_support::Refusing;
use std::alloc::{AllocError, Global};

/// Whether a list was made with room for two bytes, and is as it was where it may neither grow nor shrink.
fn keeps_its_block(list: Result<Vec<u8, &Refusing<Global>>, AllocError>) -> bool {
    match list {
        Ok(mut list) => {
            let is_kept = list.push(7).is_ok() && list.reserve(9).is_err();
            list.shrink_to_fit();
            is_kept && list.as_slice() == [7].as_slice()
        }
        Err(_) => false,
    }
}

// To grow and to shrink are requests, and a block given back grants nothing.
#[test]
fn each_request_is_counted(rt: HostRuntime) {
    let refusing = Refusing::new(rt.alloc(), 1);
    assert!(rt; refusing.granted_all());
    assert!(rt; keeps_its_block(Vec::with_capacity(&refusing, 2)));
    assert!(rt; (refusing.granted(), refusing.bytes(), refusing.refused()) == (1, 2, 2));
    assert!(rt; !keeps_its_block(Vec::with_capacity(&refusing, 2)));
    assert!(rt; refusing.refused() == 3 && !refusing.granted_all());
}
