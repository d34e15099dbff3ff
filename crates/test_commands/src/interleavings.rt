//! The requests of two callers, interleaved in every way that keeps each caller's own order. Every request gets the
//! reply that it gets without the other caller.
use crate::exchanging::exchange;
use std::alloc::Global;
use std::test::Fail;

/// A caller converts to UTF-7, and closes the shift that the conversion left open.
const FIRST: &str = "
1 1 open UTF-7 UTF-8 => 1 1 OK 00000000
1 2 conv 0 9 c3a9 => 1 2 OK 00000000000000002b414f
1 3 reset 0 9 => 1 3 OK 6b2d
";

/// Another caller converts to UTF-16 by a descriptor of the same number, and gives up all that it has by BYE, which is
/// op 7.
const SECOND: &str = "
2 1 open UTF-16 ISO-8859-1 => 2 1 OK 00000000
2 2 conv 0 9 e9 => 2 2 OK 0000000000000000feff00e9
2 3 raw 7 - => 2 3 OK -
";

/// The orders. Each digit is the number of the caller whose next request comes.
const ORDERS: &str = "
111222 112122 112212 112221 121122 121212 121221 122112 122121 122211
211122 211212 211221 212112 212121 212211 221112 221121 221211 222111
";

/// The requests and replies of both callers, in an order.
fn exchanges(alloc: Global, order: &str) -> Result<String, Fail> {
    let mut first = FIRST.trim().lines();
    let mut second = SECOND.trim().lines();
    let mut exchanges = String::new(alloc);
    for caller in order.chars() {
        let next = if caller == '1' {
            first.next()
        } else {
            second.next()
        };
        let line = next.ok_or("no request")?;
        writeln!(exchanges, "{line}")?;
    }
    Ok(exchanges)
}

#[test]
fn each_order_has_the_same_replies(rt: HostRuntime) -> Result<(), Fail> {
    for order in ORDERS.split_whitespace() {
        let exchanges = exchanges(rt.alloc(), order)?;
        exchange(&rt, 2, exchanges.as_str())?;
    }
    Ok(())
}
