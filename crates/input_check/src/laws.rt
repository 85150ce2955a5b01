//! What is said beside what `rate` and `play` refuse, and of which parts what is rated is joined. Each law is a function with an
//! empty body.

ghost use Rattle.std.specs.Prelude.{◌≡◌, ℕ, List, [], ◌++◌, Ok, Err, false, codes};
ghost use Rattle.metering_model.specs.Batch.{Batch, IsBatch};
ghost use Rattle.metering_model.specs.Limits.{most_issuer_lines, most_sheet_lines};
ghost use Rattle.metering_model.specs.Schedule.{Planned, Schedule};
ghost use Rattle.metering_model.specs.Sheet.{Issuer, Sheet};
ghost use Rattle.metering_model.specs.Step.{step};
ghost use Rattle.metering_model.specs.World.{Journal, Refused, Reply, World, offer_of};
ghost use Rattle.metering_model.specs.declared.BrokenRule.{BrokenRule};
ghost use Rattle.input_sections.specs.RateInput.{RateInput, rate_input_in};
ghost use Rattle.schedule_reader.specs.Forms.{IsReadOf};
ghost use Rattle.schedule_reader.specs.Schedules.{ReadSchedule, schedule_in};
ghost use Rattle.metering_model.specs.RatedAlone.{journaled_in};
ghost use Rattle.schedule_player.specs.Transcripts.{replies_to};
ghost use Rattle.group_events.specs.Replies.{is_refused};
ghost use Rattle.fault_lines.specs.TomlStops.{issuer_words, sheet_words};
ghost use Rattle.fault_lines.specs.Ahead.{ahead_of_all};
ghost use Rattle.input_sections.specs.declared.faults.ScheduleFault.{ScheduleFault};
ghost use Rattle.std.specs.List.{list_any};
ghost use Rattle.batch_player.specs.RateInput.{rated_file};
ghost use Rattle.input_check.specs.Checks.{BeginsWhereCounted, IsFirstRefused, IsFirstRefusedIn, IsSaidOfSection, SaysWhatIsPlayed, SaysWhatIsRated, event_lines, refused_by, said_of_input_as};
ghost use Rattle.fault_lines.specs.UnknownKeys.{unknown_on};
ghost use Rattle.input_check.specs.Warnings.{CountsWhatIsJournaled, journaled_among, warned_of_input_as};
ghost use Rattle.input_check.specs.declared.kinds.InputKind.{InputKind};
ghost use Rattle.price_sheet.specs.SheetReading.{sheet_of_text};
ghost use Rattle.sheet_text.specs.IssuerReading.{issuer_of_text};
ghost use Rattle.input_sections.specs.declared.faults.ScheduleCode.{ScheduleCode};
ghost use Rattle.fault_lines.specs.Told.{bad_index, line_within};
ghost use Rattle.input_check.specs.RateForms.{IsRateForm, RateForm};

/// Of what is checked as to be rated, in whichever period, nothing is said where `rate` gives a file, and else just why it refuses,
/// with its line. Of what is checked as to be played the first fault of the schedule is said, or just which events are answered as
/// refused, each by the line on which it begins, or by one below it where the fault is of a line of the text that it hands in. It
/// begins on the line that is one more than the line feeds of the text above it. A batch that breaks a rule of the journals is reported
/// at the line of the first record with which it is refused.
pub fn what_is_said_is_what_is_refused()
    ensures rated { (period : ℕ) (text : List ℕ)
        → SaysWhatIsRated text (rated_file period text) (said_of_input_as InputKind.Rate text) }
    ensures played { (text : List ℕ)
        → SaysWhatIsPlayed text (schedule_in text) (said_of_input_as InputKind.Play text) }
    ensures lines { (text : List ℕ) (read : ReadSchedule) (schedule : Schedule)
        → IsReadOf text read schedule
        → BeginsWhereCounted schedule (event_lines text) }
    ensures journaled { (sheet : Sheet) (issuer : Issuer) (text : List ℕ) (rule : BrokenRule)
        → journaled_in sheet issuer text ≡ Err (refused_by rule)
        → (b : Batch) × IsBatch text b
        × IsFirstRefused sheet issuer b (refused_by rule)
        (line_within (bad_index sheet [] text) (refused_by rule)) }
    ensures scheduled { (w : World) (text : List ℕ) (rule : BrokenRule)
        → (step w (Journal (offer_of text))).0 ≡ Refused (refused_by rule)
        → (b : Batch) × IsBatch text b
        × IsFirstRefusedIn w b (refused_by rule)
        (line_within (bad_index w.sheet w.journals text) (refused_by rule)) }
{}

/// Nothing is refused for what is warned of: where nothing is said of what is checked as to be rated, `rate` gives a file of each
/// period, and where nothing is said of what is checked as to be played, it is a schedule of which no event is refused, whatever is
/// warned of. Of an input with a fault of form nothing is warned of. Of a schedule the keys come first, and then the readings of the
/// batches of its journals: a batch counts exactly where its event is answered as journaled, once and in the order of the events.
pub fn nothing_is_refused_for_a_warning()
    ensures rated { (period : ℕ) (text : List ℕ) → said_of_input_as InputKind.Rate text ≡ []
        → (bytes : List ℕ) × (rated_file period text ≡ Ok bytes) }
    ensures played { (text : List ℕ) → said_of_input_as InputKind.Play text ≡ []
        → (s : ReadSchedule) × (schedule_in text ≡ Ok s)
        × (list_any is_refused (replies_to s s.events) ≡ false) }
    ensures no_rating { (text : List ℕ) (fault : ScheduleFault) → rate_input_in text ≡ Err fault
        → warned_of_input_as InputKind.Rate text ≡ [] }
    ensures no_schedule { (text : List ℕ) (fault : ScheduleFault) → schedule_in text ≡ Err fault
        → warned_of_input_as InputKind.Play text ≡ [] }
    ensures ahead { (text : List ℕ) (s : ReadSchedule) → schedule_in text ≡ Ok s
        → warned_of_input_as InputKind.Play text
        ≡ unknown_on 4 text ++ ahead_of_all []
        (journaled_among (event_lines text) s.events (replies_to s s.events)) }
    ensures counted { (lines : List ℕ) (events : List Planned) (replies : List Reply)
        → CountsWhatIsJournaled lines events replies }
{}

/// What is reported after the code of a section, wherever it stands, is what the reader of its sheet or of its issuer says of the text of
/// its lines, and of no TOML the line at which a table stops being it.
pub fn each_reason_is_of_its_section()
    ensures sheet { IsSaidOfSection ScheduleCode.Sheet
        (codes "sheet ") most_sheet_lines sheet_words sheet_of_text }
    ensures issuer { IsSaidOfSection ScheduleCode.Issuer
        (codes "issuer ") most_issuer_lines issuer_words issuer_of_text }
{}

/// An input that is to be rated is read as a sheet, an issuer and a batch exactly where it joins the sections of these, each where
/// it is there, and the batch after them.
pub fn each_rating_is_read()
    ensures form { (text : List ℕ) (given : RateInput) → rate_input_in text ≡ Ok given
        → (f : RateForm) × IsRateForm text given f }
    ensures taken { (text : List ℕ) (given : RateInput) (f : RateForm) → IsRateForm text given f
        → rate_input_in text ≡ Ok given }
{}
