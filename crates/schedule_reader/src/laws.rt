//! What ties reading to the form of a schedule. The law is a function with an empty body.

ghost use Rattle.std.specs.Prelude.{◌≡◌, ℕ, List, Ok};
ghost use Rattle.schedule_reader.specs.Schedules.{ReadSchedule, schedule_in};
ghost use Rattle.schedule_reader.specs.Forms.{IsRead};

/// A text is read as a schedule exactly where it has the form of one, of which sheet and issuer are read as these.
pub fn each_schedule_is_read()
    ensures form { (text : List ℕ) (r : ReadSchedule) → schedule_in text ≡ Ok r → IsRead text r }
    ensures taken { (text : List ℕ) (r : ReadSchedule) → IsRead text r → schedule_in text ≡ Ok r }
{}
