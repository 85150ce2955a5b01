//! Numbers of each type, written.

use fx_money::{Cost, Delta, Price, Value};
use std::test::Fail;

#[test]
fn numbers_are_written(rt: HostRuntime) -> Result<(), Fail> {
    let value = Value::new(-2_500_000).ok_or("beyond the limit")?;
    let delta = Delta::new(1_500_000).ok_or("beyond the limit")?;
    let price = Price::new(80_000).ok_or("beyond the limit")?;
    let cost = Cost::new(120_000_000_000).ok_or("beyond the limit")?;
    let mut row = value.write(rt.alloc())?;
    for text in [
        delta.write(rt.alloc())?,
        price.write(rt.alloc())?,
        cost.write(rt.alloc())?,
    ] {
        row.push(',')?;
        row.push_str(text.as_str())?;
    }
    row.push('\n')?;
    value.write_to(&mut row)?;
    delta.write_to(&mut row)?;
    price.write_to(&mut row)?;
    cost.write_to(&mut row)?;
    assert_eq!(rt; row.as_str(), "-2.5,1.5,0.08,0.12\n-2.51.50.080.12");
    Ok(())
}
