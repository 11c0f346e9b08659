//! The arguments of the tools: the command, and after it the store's folder, if another one is meant.

ghost use Rattle.std.specs.Prelude.{◌≡◌, IfOk, IfErr};
ghost use Rattle.store_open.specs.Options.{texts_of};
ghost use Rattle.store_open.specs.ToolWords.{verb_of, IsToolCommand, IsFirstWrongOfTool};

use crate::options::read_options;
use crate::settings::Verb;

/// What is done with a store that no broker has open.
#[derive(Debug, Clone, Copy, PartialEq, Eq)]
pub enum Tool {
    /// A line is written for each record.
    Dump,
    /// The store is read, and what it holds is compared.
    Verify,
}

/// What the arguments of a tool ask for. `store` is the path of the store's folder.
#[derive(Debug, Clone, Copy, PartialEq, Eq)]
pub struct ToolCommand<'a> {
    pub store: &'a str,
}

impl Tool {
    /// The command of the tool.
    pub fn verb(self) -> Verb
        ensures { result ≡ verb_of self }
    {
        match self {
            Tool::Dump => Verb::Dump,
            Tool::Verify => Verb::Verify,
        }
    }
}

/// What the words ask this tool for, or the place of the first word that doesn't fit, counted from 0.
pub fn read_tool_words<'a>(tool: Tool, words: &[&'a str]) -> Result<ToolCommand<'a>, u64>
    ensures fits { IfOk result (λ command. IsToolCommand tool (texts_of words.now) command) }
    ensures wrong { IfErr result (λ place. IsFirstWrongOfTool tool (texts_of words.now) place) }
{
    match read_options(tool.verb(), words) {
        Ok(settings) => Ok(ToolCommand {
            store: settings.store_or_default(),
        }),
        Err(place) => Err(place),
    }
}
