//! Which tool is asked for.

ghost use Rattle.std.specs.Prelude.{◌≡◌, IfSome, IsNone};
ghost use Rattle.store_open.specs.Options.{texts_of};
ghost use Rattle.tool_run.specs.Asked.{AsksTool, AsksNoTool};

use store_open::Tool;

/// The tool that the words of a command line ask for: the first of them is its name.
pub fn asked_tool(words: &[&str]) -> Option<Tool>
    ensures asked { IfSome result (λ tool. AsksTool (texts_of words.now) tool) }
    ensures none { IsNone result → AsksNoTool (texts_of words.now) }
{
    let first = words.first()?;
    if *first == Tool::Dump.verb().word() {
        Some(Tool::Dump)
    } else if *first == Tool::Verify.verb().word() {
        Some(Tool::Verify)
    } else {
        None
    }
}
