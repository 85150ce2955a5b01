//! What ties logs to their texts, and to what is kept. Each law is a function with an empty body.

ghost use Rattle.std.specs.Prelude.{◌≡◌, ◌≢◌, ℕ, ◌+◌, ◌≤◌, List, [], ◌++◌, length, Option, Some, Ok, Err};
ghost use Rattle.metering_model.specs.BatchReading.{lines_in};
ghost use Rattle.metering_model.specs.KeptText.{KeptAmong, HasText};
ghost use Rattle.log_text.specs.LogText.{BadHead, IsLogHead, LogHead, Increment, Torn, HasIncrementText, HasLog, ReadLog, base_text, head_text, increment_text, kept_after, kept_at_first, log_in, log_text, most_log_bytes};

/// A log that has a text is read back from it: whose it is, and what is kept when all was added. A text that is read is
/// just the text of such a log, and what is read of it is what that log keeps.
pub fn logs_are_read_where_they_are_written()
    ensures back { (h : LogHead) (base : Option KeptAmong) (increments : List Increment)
        → HasLog h base increments →
        log_in (log_text h base increments)
        ≡ Ok (record { head = h; kept = kept_after (kept_at_first h base) increments }) }
    ensures joined { (text : List ℕ) (read : ReadLog) → log_in text ≡ Ok read →
        (base : Option KeptAmong) × (increments : List Increment)
        × (text ≡ log_text read.head base increments)
        × HasLog read.head base increments
        × (read.kept ≡ kept_after (kept_at_first read.head base) increments) }
{}

/// What a log is read as has a text, of as many agents as the group has. At any time what is kept may stand in the place
/// of all that a log has said so far: the log that begins with it and goes on alike is read as the same, if its text is no
/// longer than one may be.
pub fn what_is_kept_may_stand_first()
    ensures has { (h : LogHead) (base : Option KeptAmong) (increments : List Increment)
        → HasLog h base increments →
        HasText (kept_after (kept_at_first h base) increments)
        × ((kept_after (kept_at_first h base) increments).agents ≡ h.agents) }
    ensures alike { (h : LogHead) (base : Option KeptAmong) (before behind : List Increment)
        → HasLog h base (before ++ behind)
        → length (log_text h (Some (kept_after (kept_at_first h base) before)) behind)
        ≤ most_log_bytes →
        log_in (log_text h (Some (kept_after (kept_at_first h base) before)) behind)
        ≡ log_in (log_text h base (before ++ behind)) }
{}

/// A log that breaks off within the text of one more increment is refused as torn, at the line on which that increment
/// begins: the one after the log's own lines. So is one that breaks off within what it begins with, at its second line.
/// And where a text is torn, what stands above that line is a log; the rest is not empty. One that breaks off within its
/// head line is refused as having no head.
pub fn a_torn_log_is_refused()
    ensures torn { (h : LogHead) (base : Option KeptAmong) (increments : List Increment)
        (next : Increment) (piece more : List ℕ)
        → HasLog h base increments → HasIncrementText h.agents next
        → increment_text next ≡ piece ++ more → piece ≢ [] → more ≢ []
        → length (log_text h base increments ++ piece) ≤ most_log_bytes →
        log_in (log_text h base increments ++ piece)
        ≡ Err (record {
          code = Torn;
          line = 1 + length (lines_in (log_text h base increments)).lines;
        }) }
    ensures first { (h : LogHead) (k : KeptAmong) (increments : List Increment)
        (piece more : List ℕ)
        → HasLog h (Some k) increments
        → base_text (Some k) ≡ piece ++ more → piece ≢ [] → more ≢ [] →
        log_in (head_text h ++ piece) ≡ Err (record { code = Torn; line = 2 }) }
    ensures begun { (h : LogHead) (piece more : List ℕ)
        → IsLogHead h → head_text h ≡ piece ++ more → more ≢ []
        → length piece ≤ most_log_bytes →
        log_in piece ≡ Err (record { code = BadHead; line = 1 }) }
    ensures above { (text : List ℕ) (line : ℕ)
        → log_in text ≡ Err (record { code = Torn; line = line }) →
        (h : LogHead) × (base : Option KeptAmong) × (increments : List Increment)
        × (piece : List ℕ) × HasLog h base increments
        × (text ≡ log_text h base increments ++ piece) × (piece ≢ [])
        × (line ≡ 1 + length (lines_in (log_text h base increments)).lines) }
{}
