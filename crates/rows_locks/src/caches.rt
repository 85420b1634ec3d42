//! Block caches: what is found, what goes first, what is forgotten.

use node_cache::{LockName, NodeCache};
use std::test::Fail;

/// What each block looks like.
fn block(n: u8) -> [u8; 512] {
    [n; 512]
}

#[test]
fn kept_block_is_found_under_its_lock_and_sequence(rt: HostRuntime) -> Result<(), Fail> {
    let mut cache = NodeCache::new(rt.alloc())?;
    cache.keep(rt.alloc(), 5, LockName::V, 7, &block(1))?;
    assert_eq!(rt; cache.current(5, LockName::V, 7).map(|b| b[0]), Some(1));
    assert!(rt;
        cache.current(5, LockName::V, 8).is_none(),
        "block 5 is not current under another sequence"
    );
    assert!(rt;
        cache.current(5, LockName::X, 7).is_none(),
        "block 5 is not current under another lock"
    );
    assert!(rt;
        cache.current(6, LockName::V, 7).is_none(),
        "block 6 is not kept"
    );
    cache.replace(5, LockName::V, 8, &block(2));
    cache.replace(5, LockName::Q, 9, &block(3));
    cache.replace(6, LockName::V, 9, &block(3));
    assert_eq!(rt; cache.current(5, LockName::V, 8).map(|b| b[511]), Some(2));
    cache.keep(rt.alloc(), 5, LockName::Q, 1, &block(4))?;
    assert!(rt;
        cache.current(5, LockName::V, 8).is_none(),
        "block 5 is kept under Q in place of V"
    );
    assert_eq!(rt; cache.current(5, LockName::Q, 1).map(|b| b[0]), Some(4));
    cache.clear();
    assert!(rt;
        cache.current(5, LockName::Q, 1).is_none(),
        "no block is left in a cleared cache"
    );
    Ok(())
}

/// Of 64 blocks the one that was not used for longest goes, and that is not block 0, which was looked at again.
#[test]
fn last_of_64_others_goes(rt: HostRuntime) -> Result<(), Fail> {
    let mut cache = NodeCache::new(rt.alloc())?;
    for lbn in 0..64u32 {
        cache.keep(rt.alloc(), lbn, LockName::V, 1, &block(lbn as u8))?;
    }
    assert!(rt;
        cache.current(0, LockName::V, 1).is_some(),
        "64 blocks are kept, block 0 among them"
    );
    cache.keep(rt.alloc(), 1, LockName::V, 1, &block(9))?;
    cache.keep(rt.alloc(), 64, LockName::V, 1, &block(64))?;
    assert!(rt;
        cache.current(2, LockName::V, 1).is_none(),
        "block 2, which was not used for longest, is gone"
    );
    for lbn in [0, 1, 3, 63, 64] {
        assert!(rt; cache.current(lbn, LockName::V, 1).is_some(), "block {lbn}");
    }
    Ok(())
}

#[test]
fn lock_is_forgotten_with_its_entries(rt: HostRuntime) -> Result<(), Fail> {
    let mut cache = NodeCache::new(rt.alloc())?;
    let kept = [
        (1, LockName::S(4)),
        (2, LockName::V),
        (3, LockName::S(4)),
        (4, LockName::S(5)),
    ];
    for (lbn, lock) in kept {
        cache.keep(rt.alloc(), lbn, lock, 1, &block(0))?;
    }
    let locks = cache.locks_used(rt.alloc())?;
    assert_eq!(rt;
        locks.as_slice(),
        [LockName::S(5), LockName::S(4), LockName::V].as_slice()
    );
    cache.forget_lock(LockName::S(4));
    let holds = [LockName::S(4), LockName::S(5), LockName::V].map(|lock| cache.holds_under(lock));
    assert_eq!(rt; holds, [false, true, true]);
    assert!(rt;
        cache.current(3, LockName::S(4), 1).is_none(),
        "block 3 is forgotten with its lock"
    );
    assert!(rt;
        cache.current(2, LockName::V, 1).is_some(),
        "block 2 is kept, under another lock"
    );
    Ok(())
}

#[test]
fn walk_meets_each_lock_in_any_order(rt: HostRuntime) -> Result<(), Fail> {
    let mut cache = NodeCache::new(rt.alloc())?;
    for lbn in 0..20u32 {
        cache.keep(rt.alloc(), lbn, LockName::S(lbn), 1, &block(0))?;
    }
    let mut walk = cache.walk();
    for lbn in [0, 1, 2, 15, 3, 4, 19, 0] {
        assert!(rt; walk.meets(LockName::S(lbn)), "lock {lbn}");
    }
    assert!(rt; !walk.meets(LockName::S(20)));
    assert!(rt; walk.meets(LockName::S(19)));
    Ok(())
}

#[test]
fn entry_that_is_looked_at_goes_to_the_front_alone(rt: HostRuntime) -> Result<(), Fail> {
    let mut cache = NodeCache::new(rt.alloc())?;
    for lbn in 0..64u32 {
        cache.keep(rt.alloc(), lbn, LockName::V, 1, &block(0))?;
    }
    cache.to_front(0);
    cache.keep(rt.alloc(), 64, LockName::V, 1, &block(0))?;
    assert!(rt; cache.peek(0, LockName::V, 1).is_some());
    assert!(rt; cache.peek(1, LockName::V, 1).is_none());
    assert!(rt; cache.peek(2, LockName::V, 2).is_none());
    Ok(())
}
