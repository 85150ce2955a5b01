//! What the processes of a group do, and what that comes to.

ghost use Rattle.std.specs.Prelude.{◌≡◌, ◌+◌, ◌<◌, ◌≤◌, ◌++◌, ℕ, List};
ghost use Rattle.std.specs.List.{Contains};
ghost use Rattle.metering_model.specs.Cut.{last_of};
ghost use Rattle.metering_model.specs.Holding.{up_to};
ghost use Rattle.metering_model.specs.World.{Snapshot};
ghost use Rattle.group_laws.specs.OneAgent.{batches_of};
ghost use Rattle.process_laws.specs.LocalSteps.{Group, HasExported, saying};
ghost use Rattle.process_laws.specs.Histories.{Act, GoesOnInWorld, IsDoneByWorld, IsHistory, after, answers, begun};

/// Whatever the processes of a group do, each by itself, handed of the group's packets just what one of them sent, in any
/// order, once, often or never, and stopped whenever, if each goes on with the newest that it stored: a world does the
/// same, and the headline holds of it. In a world with room for more acts, these are more events after those before, and
/// each time the world has what the processes have.
pub fn processes_do_what_a_world_does()
    ensures done { (g : Group) (acts : List Act) → IsHistory g (begun g) acts →
        IsDoneByWorld g acts }
    ensures goes_on { (g : Group) (acts more : List Act) → IsHistory g (begun g) (acts ++ more) →
        GoesOnInWorld g acts more }
{}

/// So whatever the processes of a group export, whichever of them and whenever: any two files of one period are made of the
/// same; no batch is between the two cuts of two periods; a period's file begins at the cut where that of the period before
/// ends; and of each agent it has just the batches of that agent's journal up to the period's cut.
pub fn what_processes_export_agrees()
    ensures files { (g : Group) (acts : List Act) → IsHistory g (begun g) acts →
        (s t : Snapshot) → Contains (answers g (begun g) acts) (saying (HasExported s))
        → Contains (answers g (begun g) acts) (saying (HasExported t))
        → s.period ≡ t.period → s ≡ t }
    ensures once { (g : Group) (acts : List Act) → IsHistory g (begun g) acts →
        (s t : Snapshot) → Contains (answers g (begun g) acts) (saying (HasExported s))
        → Contains (answers g (begun g) acts) (saying (HasExported t)) → (agent seq : ℕ)
        → last_of s.from agent < seq → seq ≤ last_of s.to agent
        → last_of t.from agent < seq → seq ≤ last_of t.to agent → s.period ≡ t.period }
    ensures follows { (g : Group) (acts : List Act) → IsHistory g (begun g) acts →
        (s t : Snapshot) → Contains (answers g (begun g) acts) (saying (HasExported s))
        → Contains (answers g (begun g) acts) (saying (HasExported t))
        → s.period + 1 ≡ t.period → t.from ≡ s.to }
    ensures batches { (g : Group) (acts : List Act) → IsHistory g (begun g) acts →
        (s : Snapshot) → Contains (answers g (begun g) acts) (saying (HasExported s))
        → (agent : ℕ) → batches_of agent s.batches
        ≡ up_to s.to ((after g (begun g) acts).journals agent) }
{}
