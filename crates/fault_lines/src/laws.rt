//! Of which field the fault of a batch is told, and what a key changes that no reader takes. Each law is a function with an empty body.

ghost use Rattle.std.specs.Prelude.{◌≡◌, ℕ, List, Some, Err, true};
ghost use Rattle.toml.specs.Data.{Members};
ghost use Rattle.metering_model.specs.BatchReading.{batch_in};
ghost use Rattle.metering_model.specs.declared.BatchFault.{BatchFault};
ghost use Rattle.sheet_text.specs.IssuerReading.{issuer_in};
ghost use Rattle.sheet_text.specs.RowReading.{commitment_in, price_row_in, region_in};
ghost use Rattle.price_sheet.specs.SheetReading.{sheet_in};
ghost use Rattle.fault_lines.specs.Fields.{IsFaultOf, field_of, is_of_field, line_at};
ghost use Rattle.fault_lines.specs.UnknownKeys.{AreAlikeIn, commitment_keys, issuer_keys, price_keys, region_keys, sheet_keys};
ghost use Rattle.fault_lines.specs.declared.fields.RecordField.{RecordField};

/// The field that is reported of a batch's fault is the first in its line that breaks its rule, and the code is that field's.
pub fn each_fault_is_of_its_field()
    ensures field { (text : List ℕ) (fault : BatchFault) → batch_in text ≡ Err fault
        → is_of_field fault.code ≡ true
        → (line : List ℕ) × (f : RecordField) × (line_at text fault.line ≡ Some line)
        × (field_of text fault ≡ Some f) × IsFaultOf line fault.code f }
{}

/// What is reported as a key that no reader takes has no effect on its table: tables in which the same stands under the keys that are
/// taken are read alike, or refused alike, whatever stands under others. Of texts nothing is said.
pub fn keys_that_no_reader_takes_change_nothing()
    ensures sheet { (ms ns : Members) → AreAlikeIn sheet_keys ms ns → sheet_in ms ≡ sheet_in ns }
    ensures price { (ms ns : Members) → AreAlikeIn price_keys ms ns
        → price_row_in ms ≡ price_row_in ns }
    ensures commitment { (ms ns : Members) → AreAlikeIn commitment_keys ms ns
        → commitment_in ms ≡ commitment_in ns }
    ensures region { (ms ns : Members) → AreAlikeIn region_keys ms ns
        → region_in ms ≡ region_in ns }
    ensures issuer { (ms ns : Members) → AreAlikeIn issuer_keys ms ns
        → issuer_in ms ≡ issuer_in ns }
{}
