//! How a file is put together, and what a reader of CSV makes of it. Each law is a function with an
//! empty body.

ghost use Rattle.std.specs.Prelude.{◌≡◌, ◌&&◌, List, [], ◌∷◌, ◌++◌, length, map, IsTrue, Some};
ghost use Rattle.std.specs.List.{flat_map, join_with_byte, list_all};
ghost use Rattle.csv.specs.Reading.{default_config, records, strip_bom};
ghost use Rattle.csv.specs.Writing as csv;
ghost use Rattle.serde_json.specs.Read.{read};
ghost use Rattle.serde_json.specs.Written.{compact_text};
ghost use Rattle.metering_model.specs.Batch.{Tag, is_text, keys_rise};
ghost use Rattle.metering_model.specs.Row.{Row};
ghost use Rattle.metering_model.specs.File.{file, fields_of_row, header_line, json_object, row_text};
ghost use Rattle.focus_row.specs.Rows.{FocusRow, model_row};
ghost use Rattle.focus_csv.specs.Columns.{column_names};
ghost use Rattle.focus_csv.specs.TagData.{tag_data};

/// The header line, followed by the texts of parts in order, is the file of the rows of all parts.
pub fn a_file_is_written_in_parts()
    ensures begun { header_line ++ 10 ∷ [] ≡ file [] }
    ensures next { (written part : List Row) →
        file written ++ flat_map row_text part ≡ file (written ++ part) }
    ensures whole { (parts : List (List Row)) →
        (header_line ++ 10 ∷ []) ++ flat_map (flat_map row_text) parts
        ≡ file (flat_map (λ part. part) parts) }
{}

/// A reader of CSV with its usual settings gives of every file the 38 names, and then just the fields of
/// each row, in order. No file begins with a byte order mark, which such a reader would drop.
pub fn a_file_is_read_back()
    ensures names { (length column_names ≡ 38) × (join_with_byte 44 column_names ≡ header_line) }
    ensures unmarked { (rows : List Row) → strip_bom (file rows) ≡ file rows }
    ensures read { (rows : List Row) →
        records default_config (file rows) ≡ column_names ∷ map fields_of_row rows }
{}

/// The header line is what a writer of CSV writes, with its usual settings, as the record of the 38 names, and each
/// line of a file what it writes as the record of the row's 38 fields.
pub fn lines_are_records_of_csv()
    ensures header { csv.row_text csv.default_writer column_names ≡ header_line ++ 10 ∷ [] }
    ensures line { (r : Row) → csv.row_text csv.default_writer (fields_of_row r) ≡ row_text r }
    ensures fields { (r : Row) → length (fields_of_row r) ≡ 38 }
{}

/// Tags whose keys rise are what `serde_json` writes of them as an object, in their order, and what it reads of that
/// are just these tags. A row's tags are such ones.
pub fn tags_are_json()
    ensures written { (ts : List Tag) → IsTrue (list_all (λ t. is_text t.key && is_text t.value) ts)
        → compact_text (tag_data ts) ≡ json_object ts }
    ensures read { (ts : List Tag) → IsTrue (list_all (λ t. is_text t.key && is_text t.value) ts)
        → IsTrue (keys_rise ts)
        → read (json_object ts) ≡ Some (tag_data ts) }
    ensures field { (row : FocusRow)
        → (compact_text (tag_data (model_row row).tags) ≡ json_object (model_row row).tags)
        × (read (json_object (model_row row).tags) ≡ Some (tag_data (model_row row).tags)) }
{}
