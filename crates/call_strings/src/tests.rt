//! Numbers of nodes, and the sites that calls keep.
use super::*;
use item_list::Items;
use std::alloc::{AllocError, Global};
use std::test::Fail;

fn context(alloc: Global, proc: u32, sites: &[u32]) -> Result<Context, AllocError> {
    let sites = Items::from_slice(alloc, sites)?;
    Ok(Context { proc, sites })
}

#[test]
fn numbers_each_node_once(rt: HostRuntime) -> Result<(), AllocError> {
    let mut table = NodeTable::new(rt.alloc());
    let rows = [
        ([5, 4], 9, 0),
        ([4, 5], 9, 1),
        ([5, 4], 8, 2),
        ([5, 4], 9, 0),
    ];
    for (sites, at, number) in rows {
        let context = context(rt.alloc(), 1, &sites)?;
        let numbered = table.number(&Node { context, at });
        assert_eq!(rt; numbered, Ok(number));
    }
    Ok(())
}

#[test]
fn calls_keep_the_newest_sites(rt: HostRuntime) -> Result<(), AllocError> {
    let from = context(rt.alloc(), 1, &[5, 4])?;
    let rows: [(u32, &[u32]); 3] = [(0, &[]), (2, &[6, 5]), (4, &[6, 5, 4])];
    for (k, sites) in rows {
        let entered = from.push(k, 6, 2)?;
        assert_eq!(rt; entered.sites.as_slice(), sites);
    }
    Ok(())
}

#[test]
fn keeps_a_limited_number_of_nodes(rt: HostRuntime) -> Result<(), AllocError> {
    let mut table = NodeTable::new(rt.alloc());
    for at in 0..4097 {
        let context = context(rt.alloc(), 1, &[])?;
        let numbered = table.number(&Node { context, at });
        let wanted = if at < 4096 {
            Ok(at)
        } else {
            Err(NumberError::Full)
        };
        assert_eq!(rt; numbered, wanted);
    }
    Ok(())
}
