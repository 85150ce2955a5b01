//! The worked texts: a sheet, an issuer, a reading with its amendment, and what is charged for them.
//!
//! They are worked out by hand, from the formats and the columns alone. The crates of tests take them from here.

#![tactic(auto)]

/// A sheet of one price: 0.1 USD an hour by the list, 0.08 as contracted.
pub const SHEET: &str = r#"base = "2025-01"
[[price]]
sku = "cpu"
price_id = "cpu-od"
from = "2025-01-01"
description = "Virtual CPU time"
service = "Sample Compute"
category = "Compute"
consumed_unit = "Seconds"
pricing_unit = "Hours"
per = 3600
list = "0.1"
contracted = "0.08"
"#;

/// The issuer of the invoices.
pub const ISSUER: &str = r#"provider = "Sample Cloud"
publisher = "Sample Cloud"
issuer = "Sample Cloud Ltd"
account_id = "A-100"
account_name = "Payer"
currency = "USD"
other_service = "Billing"
"#;

/// Both as sections, as they stand after the head of a schedule, or where an input of `rate` begins.
pub const SECTIONS: &[u8] =
    b"sheet 13\nbase = \"2025-01\"\n[[price]]\nsku = \"cpu\"\nprice_id = \"cpu-od\"\n\
from = \"2025-01-01\"\ndescription = \"Virtual CPU time\"\nservice = \"Sample Compute\"\n\
category = \"Compute\"\nconsumed_unit = \"Seconds\"\npricing_unit = \"Hours\"\nper = 3600\n\
list = \"0.1\"\ncontracted = \"0.08\"\nissuer 7\nprovider = \"Sample Cloud\"\n\
publisher = \"Sample Cloud\"\nissuer = \"Sample Cloud Ltd\"\naccount_id = \"A-100\"\n\
account_name = \"Payer\"\ncurrency = \"USD\"\nother_service = \"Billing\"\n";

/// A batch of one reading: 5,400 seconds of January 2025.
pub const READ: &[u8] =
    b"B1|1|1|1\nU|2025-01-10T00:00:00Z|2025-01-10T02:00:00Z|acc-7|vm-1|cpu|5400||env=prod\n";

/// A batch that amends it to 7,200 seconds.
pub const AMENDED: &[u8] = b"B1|1|2|1\nX|1|0|7200\n";

/// The line that a file begins with.
pub const HEADER: &[u8] = b"BilledCost,BillingAccountId,BillingAccountName,BillingCurrency,\
BillingPeriodEnd,BillingPeriodStart,ChargeCategory,ChargeClass,ChargeDescription,ChargeFrequency,\
ChargePeriodEnd,ChargePeriodStart,CommitmentDiscountCategory,CommitmentDiscountId,\
CommitmentDiscountStatus,CommitmentDiscountType,ConsumedQuantity,ConsumedUnit,ContractedCost,\
ContractedUnitPrice,EffectiveCost,InvoiceIssuerName,ListCost,ListUnitPrice,PricingCategory,\
PricingQuantity,PricingUnit,ProviderName,PublisherName,RegionId,RegionName,ResourceId,\
ServiceCategory,ServiceName,SkuId,SkuPriceId,SubAccountId,Tags\n";

/// The line of the reading in the file of January 2025.
pub const LINE: &[u8] = b"0.12,A-100,Payer,USD,2025-02-01T00:00:00Z,2025-01-01T00:00:00Z,\
Usage,,Virtual CPU time,Usage-Based,2025-01-10T02:00:00Z,2025-01-10T00:00:00Z,,,,,5400,Seconds,\
0.12,0.08,0.12,Sample Cloud Ltd,0.15,0.1,Standard,1.5,Hours,Sample Cloud,Sample Cloud,,,vm-1,\
Compute,Sample Compute,cpu,cpu-od,acc-7,\"{\"\"env\"\":\"\"prod\"\"}\"\n";

/// What February is charged of the amendment, where January was charged the reading.
pub const CORRECTION: &[u8] = b"0.04,A-100,Payer,USD,2025-03-01T00:00:00Z,\
2025-02-01T00:00:00Z,Usage,Correction,Virtual CPU time,Usage-Based,2025-01-10T02:00:00Z,\
2025-01-10T00:00:00Z,,,,,1800,Seconds,0.04,0.08,0.04,Sample Cloud Ltd,0.05,0.1,Standard,0.5,Hours,\
Sample Cloud,Sample Cloud,,,vm-1,Compute,Sample Compute,cpu,cpu-od,acc-7,\
\"{\"\"env\"\":\"\"prod\"\"}\"\n";
