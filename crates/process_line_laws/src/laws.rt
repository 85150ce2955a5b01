//! What a host reads, and what all that the hosts of a group do comes to.

ghost use Rattle.std.specs.Prelude.{◌≡◌, ℕ, true, List, [], ◌++◌, length, Option};
ghost use Rattle.std.specs.List.{Contains};
ghost use Rattle.metering_model.specs.Batch.{lacks};
ghost use Rattle.metering_model.specs.BatchReading.{lines_in};
ghost use Rattle.metering_model.specs.KeptText.{HasText, KeptAmong, kept_text};
ghost use Rattle.metering_model.specs.World.{Packet};
ghost use Rattle.process_laws.specs.LocalSteps as model;
ghost use Rattle.process_laws.specs.LocalSteps.{Answer, Group};
ghost use Rattle.packet_text.specs.PacketText.{HasPacketText, packet_text};
ghost use Rattle.log_text.specs.LogText.{HasIncrementText, Increment, increment_text, lines_of_increment};
ghost use Rattle.group_process.specs.Selves.{AgentSelf, NodeSelf};
ghost use Rattle.process_text.specs.declared.processes.Process.{Process};
ghost use Rattle.process_text.specs.Answers.{TellsAgent, TellsNode, answer_text, begun_text, lines_of_packet, refused_text};
ghost use Rattle.process_line_laws.specs.Told.{CanBeCounted, MayBeAdded, MayBeSent, first_told, just, meant, told_in};
ghost use Rattle.process_line_laws.specs.Hosts.{HostAct, IsHostHistory, begun_machines, said_by};
ghost use Rattle.process_line_laws.specs.Comes.{AreMadeOf, ComeToHistory, IsFileOf, IsOfJournals};

/// A host that reads an answer finds just what is meant: for the log the increment's text, or nothing; the text of the packet
/// that is sent, or none; and the last line with what stands below it, which it does not look into. So it is of what nodes
/// and agents answer, of what is refused as no command, and of what a process says first.
pub fn an_answer_is_read_as_it_is_meant()
    ensures answer { (name : List ℕ) (to : Packet → Option ℕ) (agents : ℕ)
        (added : Option Increment) (a : Answer)
        → MayBeAdded agents added → MayBeSent name a.sends →
        told_in (answer_text name to added a) ≡ meant name added a }
    ensures node { (command : model.NodeCommand) (old new : NodeSelf) (said : List ℕ)
        (tells : TellsNode command old new said)
        → MayBeSent old.group.name tells.answer.sends →
        told_in said ≡ meant old.group.name tells.added tells.answer }
    ensures agent { (command : model.AgentCommand) (old new : AgentSelf) (said : List ℕ)
        (tells : TellsAgent command old new said)
        → MayBeSent old.group.name tells.answer.sends →
        told_in said ≡ meant old.group.name tells.added tells.answer }
    ensures refused { (why : List ℕ) → told_in (refused_text why) ≡ just (refused_text why) }
    ensures begun { (p : Process) → told_in (begun_text p) ≡ just (begun_text p) }
{}

/// What is kept of a step, and a packet, have as many lines as `kept` and `send` say, and end with a whole one.
pub fn what_is_kept_or_sent_has_the_lines_that_are_told()
    ensures kept { (agents : ℕ) (i : Increment) → HasIncrementText agents i →
        (length (lines_in (increment_text i)).lines ≡ lines_of_increment i)
        × ((lines_in (increment_text i)).rest ≡ []) }
    ensures sent { (name : List ℕ) (p : Packet) → HasPacketText name p →
        (length (lines_in (packet_text name p)).lines ≡ lines_of_packet p)
        × ((lines_in (packet_text name p)).rest ≡ []) }
{}

/// In a stream of answers the first one ends where its last line says, whatever stands after it: a host that counts lines
/// takes just the answer. A kept text is one of whole lines, as a file is.
pub fn an_answer_ends_where_it_says()
    ensures first { (name : List ℕ) (to : Packet → Option ℕ) (agents : ℕ)
        (added : Option Increment) (a : Answer) (behind : List ℕ)
        → MayBeAdded agents added → MayBeSent name a.sends → CanBeCounted a.words →
        first_told (answer_text name to added a ++ behind)
        ≡ record { told = meant name added a; behind = behind } }
    ensures refused { (why behind : List ℕ) → lacks 10 why ≡ true →
        first_told (refused_text why ++ behind)
        ≡ record { told = just (refused_text why); behind = behind } }
    ensures kept { (k : KeptAmong) → HasText k → (lines_in (kept_text k)).rest ≡ [] }
{}

/// Whatever the hosts of a group do, if each hands on no packet that nobody sent and goes on with the log that it stored: what
/// was asked and answered, line by line, are the acts of a history of processes with just their answers, and logs and
/// packets are the texts of what these processes keep and have sent. So all laws on histories hold of it.
pub fn lines_come_to_a_history()
    ensures { (g : Group) (hosts : List HostAct) → IsHostHistory g (begun_machines g) hosts →
        ComeToHistory g hosts }
{}

/// So any two answers in lines that begin as a file of one period are the same bytes, of whichever processes and whenever. In
/// each history to which the hosts come (and they come to one), each is the file of a snapshot that a process exports, under
/// the group's sheet and issuer: of the same one for one period. No batch stands between the two cuts of two files but where
/// they are of one period, and a period's cuts begin where those of the one before end, the first month's at nothing; and of
/// each agent a file is made of just what that agent's process has journaled, up to the later cut.
pub fn files_in_lines_agree()
    ensures bytes { (g : Group) (hosts : List HostAct) → IsHostHistory g (begun_machines g) hosts →
        (h k : HostAct) → Contains hosts h → Contains hosts k → (period : ℕ)
        → IsFileOf period (told_in (said_by h)).last → IsFileOf period (told_in (said_by k)).last →
        (told_in (said_by h)).last ≡ (told_in (said_by k)).last }
    ensures made_of { (g : Group) (hosts : List HostAct) (it : ComeToHistory g hosts)
        → (h k : HostAct) → Contains hosts h → Contains hosts k → (period other : ℕ)
        → IsFileOf period (told_in (said_by h)).last → IsFileOf other (told_in (said_by k)).last →
        AreMadeOf g it.acts period other (told_in (said_by h)).last (told_in (said_by k)).last }
    ensures journals { (g : Group) (hosts : List HostAct) (it : ComeToHistory g hosts)
        → (h : HostAct) → Contains hosts h → (period : ℕ)
        → IsFileOf period (told_in (said_by h)).last →
        IsOfJournals g hosts it.acts period (told_in (said_by h)).last }
{}
