//! The sections of a price sheet and of an issuer.

use std::alloc::AllocError;

/// Prices of usage, `sku-1` and on.
pub const PRICES: u32 = 60;

/// Commitments `sp-1` and on, each on the usage of the price of that number, and bought as `plan-1` and on.
pub const PLANS: u32 = 4;

/// Regions `zone-1` and on.
pub const REGIONS: u32 = 3;

fn put_price(text: &mut String, sku: &str, number: u32, year: u32) -> Result<(), AllocError> {
    write!(
        text,
        "[[price]]\nsku = \"{sku}-{number}\"\nprice_id = \"{sku}-{number}-od\"\nfrom = \"{year}-01-01\"\n"
    )?;
    write!(
        text,
        "description = \"Use of {sku} {number}\"\nservice = \"Service {}\"\n",
        number % 7
    )?;
    write!(
        text,
        "category = \"Compute\"\nconsumed_unit = \"Units {}\"\n",
        number % 5
    )?;
    write!(
        text,
        "pricing_unit = \"Lots {}\"\nper = {}\n",
        number % 5,
        number.saturating_add(100)
    )?;
    write!(
        text,
        "list = \"0.{number}1\"\ncontracted = \"0.0{number}1\"\n"
    )
}

/// Appends a sheet whose prices begin with a year, its base month's.
pub fn put_sheet(text: &mut String, year: u32) -> Result<(), AllocError> {
    write!(
        text,
        "sheet {}\nbase = \"{year}-01\"\n",
        1 + 12 * (PRICES + PLANS) + 7 * PLANS + 3 * REGIONS
    )?;
    for number in 1..PRICES + 1 {
        put_price(text, "sku", number, year)?;
    }
    for number in 1..PLANS + 1 {
        put_price(text, "plan", number, year)?;
    }
    for number in 1..PLANS + 1 {
        write!(
            text,
            "[[commitment]]\nid = \"sp-{number}\"\nsku = \"sku-{number}\"\nbuy = \"plan-{number}\"\n"
        )?;
        write!(
            text,
            "category = \"Usage\"\ntype = \"One year\"\nrate = \"0.00{number}\"\n"
        )?;
    }
    for number in 1..REGIONS + 1 {
        write!(
            text,
            "[[region]]\nid = \"zone-{number}\"\nname = \"Zone {number}\"\n"
        )?;
    }
    Ok(())
}

pub fn put_issuer(text: &mut String) -> Result<(), AllocError> {
    text.push_str(
        "issuer 7\nprovider = \"Sample Cloud\"\npublisher = \"Sample Cloud\"\nissuer = \"Sample Cloud Ltd\"\n",
    )?;
    text.push_str(
        "account_id = \"A-100\"\naccount_name = \"Payer\"\ncurrency = \"USD\"\nother_service = \"Billing\"\n",
    )
}
