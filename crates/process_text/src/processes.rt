//! A process of a group, which is asked and answers in lines of text.

ghost use Rattle.std.specs.Prelude.{◌≡◌, ◌≤◌, OnOk};
ghost use Rattle.process_text.specs.Answers.{Answers, begun_text};
ghost use Rattle.process_text.specs.Requests.{lines_below, most_packet_lines};

use crate::agents::answer_agent;
use crate::answer_texts::AnswerText;
use crate::answers::put_line;
use crate::nodes::answer_node;
use crate::requests::{journal_lines, packet_lines};
use byte_text::put_numbered;
use group_process::{AgentProcess, NodeProcess};
use std::alloc::{AllocError, Global};

/// A process of a group.
#[derive(Drop)]
pub enum Process {
    Node(NodeProcess),
    Agent(AgentProcess),
}

impl Process {
    /// How many lines below it belong to a line that the process is asked with: at most 1,002.
    pub fn lines_below(&self, line: &[u8]) -> u32
        ensures value { result ≡ lines_below self.now line.now }
        ensures most { result ≤ most_packet_lines }
    {
        match self {
            Process::Node(_) => packet_lines(line).unwrap_or(0),
            Process::Agent(_) => journal_lines(line).unwrap_or(0),
        }
    }

    /// Does what is asked by a line, without its line feed, and the lines that belong to it, each with its own, and makes the text what is
    /// answered. An error is an allocation failure: then nothing of the text may leave, and nothing may be asked of the
    /// process any more, since it may have done what was not reported.
    pub fn answer(
        &mut self,
        alloc: Global,
        line: &[u8],
        below: &[u8],
        said: &mut AnswerText,
    ) -> Result<(), AllocError>
        ensures { OnOk result (Answers self.old line.now below.now self.new said.new) }
    {
        said.file = None;
        match self {
            Process::Node(node) => {
                answer_node(alloc, node, line, below, &mut said.text, &mut said.file)
            }
            Process::Agent(agent) => answer_agent(alloc, agent, line, below, &mut said.text),
        }
    }

    /// Makes the text what the process says before it is asked: from where it goes on. An error is an allocation failure:
    /// then nothing of the text may leave.
    pub fn put_begun(&self, said: &mut AnswerText) -> Result<(), AllocError>
        ensures { OnOk result (said.new ≡ begun_text self.now) }
    {
        said.file = None;
        said.text.clear();
        match self {
            Process::Node(node) => {
                let period = u128::from(node.current_period());
                let Ok(()) = put_numbered(&mut said.text, b"begun period ", period) else {
                    return Err(AllocError);
                };
                put_line(&mut said.text, b" round ", u32::from(node.round()))
            }
            Process::Agent(agent) => put_line(&mut said.text, b"begun seq ", agent.next_seq()),
        }
    }
}
