//! The headline over every list of events, of the bytes of its transcript.

ghost use Rattle.std.specs.Prelude.{◌≡◌, ◌≢◌, ℕ, List, [], ◌∷◌, ◌++◌, map};
ghost use Rattle.std.specs.List.{join_with_byte};
ghost use Rattle.metering_model.specs.Sheet.{Sheet, Issuer};
ghost use Rattle.metering_model.specs.SheetRules.{IsSheet, IsIssuer};
ghost use Rattle.metering_model.specs.Row.{Row};
ghost use Rattle.metering_model.specs.File.{quoted, fields_of_row};
ghost use Rattle.metering_model.specs.World.{Event, opening};
ghost use Rattle.metering_model.specs.Step.{play};
ghost use Rattle.metering_model.specs.Transcript.{transcript};
ghost use Rattle.metering_model.specs.BatchReading.{lines_in};
ghost use Rattle.metering_model.specs.Schedule.{TextLines, lines_text};
ghost use Rattle.row_laws.specs.Columns.{line_of_row};
ghost use Rattle.transcript_laws.specs.Csv.{csv_fields};
ghost use Rattle.transcript_laws.specs.Shown.{line_above, Shows, HoldsOfBytes};
ghost use Rattle.transcript_laws.specs.FirstFiles.{NoFile, TornFile, WholeFile, first_file, IsPeriodsFile};

/// After every list of events, where sheet and issuer meet their rules, the files that a transcript shows under one
/// period are the same bytes, are those of the journals between neighbouring cuts, and add up.
pub fn a_transcript_shows_one_file_a_period()
    ensures { (voters observers agents : ℕ) (sheet : Sheet) (issuer : Issuer) (events : List Event)
        → IsSheet sheet → IsIssuer issuer →
        HoldsOfBytes voters observers agents sheet issuer events
        (transcript (play (opening voters observers agents sheet issuer) events).0) }
{}

/// More events only add to a transcript: the text goes on from what it was, and shows each file that it showed. No
/// prefix of a transcript shows a file that the transcript does not show; and neither do the whole lines of a prefix.
pub fn a_longer_transcript_shows_the_same_files()
    ensures goes_on { (voters observers agents : ℕ) (sheet : Sheet) (issuer : Issuer)
        (events more : List Event) → (rest : List ℕ) ×
        (transcript (play (opening voters observers agents sheet issuer) (events ++ more)).0
        ≡ transcript (play (opening voters observers agents sheet issuer) events).0 ++ rest) }
    ensures shows { (voters observers agents : ℕ) (sheet : Sheet) (issuer : Issuer)
        (events more : List Event) → IsSheet sheet → IsIssuer issuer →
        (period : ℕ) (shown : List ℕ)
        → Shows (transcript (play
        (opening voters observers agents sheet issuer) events).0) period shown →
        Shows (transcript (play (opening voters observers agents sheet issuer)
        (events ++ more)).0) period shown }
    ensures torn { (voters observers agents : ℕ) (sheet : Sheet) (issuer : Issuer)
        (events : List Event) → IsSheet sheet → IsIssuer issuer →
        (front rest : List ℕ) → transcript
        (play (opening voters observers agents sheet issuer) events).0 ≡ front ++ rest →
        (period : ℕ) (shown : List ℕ) → Shows front period shown →
        Shows (transcript
        (play (opening voters observers agents sheet issuer) events).0) period shown }
    ensures whole_lines { (voters observers agents : ℕ) (sheet : Sheet) (issuer : Issuer)
        (events : List Event) → IsSheet sheet → IsIssuer issuer →
        (front rest : List ℕ) → transcript
        (play (opening voters observers agents sheet issuer) events).0 ≡ front ++ rest →
        (period : ℕ) (shown : List ℕ) → Shows (lines_text (lines_in front).lines) period shown →
        Shows (transcript
        (play (opening voters observers agents sheet issuer) events).0) period shown }
{}

/// The first file of a period, cut out of a transcript or of any prefix of it, is the period's file. Where only a part
/// of it is left, that is a proper prefix of the period's file; where none is found, no whole line stands above one. Of a
/// whole transcript no file is torn.
pub fn what_is_cut_out_is_the_periods_file()
    ensures whole { (voters observers agents : ℕ) (sheet : Sheet) (issuer : Issuer)
        (events : List Event) (text : List ℕ) → IsSheet sheet → IsIssuer issuer →
        (holds : HoldsOfBytes voters observers agents sheet issuer events text)
        → (front rest : List ℕ) → text ≡ front ++ rest →
        (period : ℕ) (shown : List ℕ) → first_file period front ≡ WholeFile shown
        → IsPeriodsFile holds period shown }
    ensures torn { (voters observers agents : ℕ) (sheet : Sheet) (issuer : Issuer)
        (events : List Event) (text : List ℕ) → IsSheet sheet → IsIssuer issuer →
        (holds : HoldsOfBytes voters observers agents sheet issuer events text)
        → (front rest : List ℕ) → text ≡ front ++ rest →
        (period : ℕ) (part : List ℕ) → first_file period front ≡ TornFile part
        → (more : List ℕ) × (more ≢ []) × IsPeriodsFile holds period (part ++ more) }
    ensures none { (voters observers agents : ℕ) (sheet : Sheet) (issuer : Issuer)
        (events : List Event) (text : List ℕ) → IsSheet sheet → IsIssuer issuer →
        (holds : HoldsOfBytes voters observers agents sheet issuer events text)
        → (front rest : List ℕ) → text ≡ front ++ rest →
        (period : ℕ) → first_file period front ≡ NoFile → (before after : TextLines) (lines : ℕ)
        → (lines_in front).lines ≢ before ++ line_above period lines ∷ after }
    ensures never_torn { (voters observers agents : ℕ) (sheet : Sheet) (issuer : Issuer)
        (events : List Event) (text : List ℕ) → IsSheet sheet → IsIssuer issuer →
        (holds : HoldsOfBytes voters observers agents sheet issuer events text)
        → (period : ℕ) (part : List ℕ) → first_file period text ≢ TornFile part }
{}

/// Read as CSV, a line of fields gives just these fields, whatever bytes they have; so a row's line gives the row's
/// fields.
pub fn a_line_read_as_csv_gives_its_fields()
    ensures line { (first : List ℕ) (others : List (List ℕ)) →
        csv_fields (join_with_byte 44 (map quoted (first ∷ others))) ≡ first ∷ others }
    ensures row { (r : Row) → csv_fields (line_of_row r) ≡ fields_of_row r }
{}
