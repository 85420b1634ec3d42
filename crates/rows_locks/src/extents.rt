//! Stocks of clusters and file numbers.

use extent_cache::{Extents, Taken};
use std::test::Fail;

/// Clusters 40, 41 and 4,094 to 4,097, and file numbers 12 and 14.
fn stocked(rt: &HostRuntime) -> Result<Extents, Fail> {
    let mut stock = Extents::new(rt.alloc())?;
    stock.make_room(rt.alloc(), 6, 2)?;
    stock.put_clusters(4094, 4);
    stock.put_clusters(40, 2);
    stock.put_number(14);
    stock.put_number(12);
    Ok(stock)
}

#[test]
fn what_goes_in_stands_in_its_place(rt: HostRuntime) -> Result<(), Fail> {
    let stock = stocked(&rt)?;
    let all = stock.all(rt.alloc())?;
    assert_eq!(rt;
        all.clusters.items(),
        [40, 41, 4094, 4095, 4096, 4097].as_slice()
    );
    assert_eq!(rt; all.numbers.items(), [12, 14].as_slice());
    assert_eq!(rt; stock.count(), 6);
    assert_eq!(rt; stock.numbers(), [12, 14].as_slice());
    Ok(())
}

#[test]
fn lowest_go_out_first(rt: HostRuntime) -> Result<(), Fail> {
    let mut stock = stocked(&rt)?;
    assert!(rt;
        stock.take(rt.alloc(), 7, false)?.is_none(),
        "seven clusters are not taken from a stock of six"
    );
    let taken: Taken = stock.take(rt.alloc(), 3, true)?.ok_or("it holds enough")?;
    assert_eq!(rt; taken.clusters.items(), [40, 41, 4094].as_slice());
    assert_eq!(rt; taken.number, Some(12));
    assert_eq!(rt; (stock.count(), stock.numbers()), (3, [14].as_slice()));
    let last: Taken = stock.take(rt.alloc(), 0, true)?.ok_or("it holds a number")?;
    assert_eq!(rt; (last.clusters.items().len(), last.number), (0, Some(14)));
    assert!(rt;
        stock.take(rt.alloc(), 1, true)?.is_none(),
        "nothing is taken where no file number is left"
    );
    assert_eq!(rt; stock.count(), 3);
    Ok(())
}

#[test]
fn lowest_are_told_and_then_dropped(rt: HostRuntime) -> Result<(), Fail> {
    let mut stock = stocked(&rt)?;
    assert!(rt;
        stock.lowest(rt.alloc(), 6, false)?.is_some(),
        "six clusters are told from a stock of six"
    );
    assert!(rt;
        stock.lowest(rt.alloc(), 7, false)?.is_none(),
        "seven clusters are not told from a stock of six"
    );
    let lowest: Taken = stock.lowest(rt.alloc(), 3, true)?.ok_or("it holds enough")?;
    assert_eq!(rt; lowest.clusters.items(), [40, 41, 4094].as_slice());
    assert_eq!(rt; lowest.number, Some(12));
    assert_eq!(rt; (stock.count(), stock.numbers().len()), (6, 2));
    stock.drop_lowest(3, true);
    assert_eq!(rt; (stock.count(), stock.numbers()), (3, [14].as_slice()));
    Ok(())
}

/// Storage bitmap block 0 covers clusters 0 to 4,095, and block 1 those from 4,096 on.
#[test]
fn one_block_goes_back(rt: HostRuntime) -> Result<(), Fail> {
    let mut stock = stocked(&rt)?;
    stock.give_back_one(Some(0));
    let left = stock.all(rt.alloc())?;
    assert_eq!(rt; left.clusters.items(), [4096, 4097].as_slice());
    assert_eq!(rt; stock.numbers().len(), 2);
    stock.give_back_one(None);
    assert_eq!(rt; (stock.count(), stock.numbers().len()), (2, 0));
    stock.clear();
    assert_eq!(rt; stock.count(), 0);
    Ok(())
}
