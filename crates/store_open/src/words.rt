//! The arguments of `pipe`: `pipe`, and behind it options with their values, each option at most once and in any order.

ghost use Rattle.std.specs.Prelude.{IfOk, IfErr};
ghost use Rattle.store_open.specs.Options.{texts_of};
ghost use Rattle.store_open.specs.Words.{IsCommand, IsFirstWrong};

use crate::format::AskedSizes;
use crate::options::read_options;
use crate::settings::Verb;

/// What the arguments of `pipe` ask for. `sync` is whether a message is synced before it counts as kept, `sizes` are the store's,
/// where the arguments say them, `host` is where clients reach the broker (the address, and the port in four bytes, high byte
/// first), and `store` is the path of the store's folder.
#[derive(Debug, Clone, Copy, PartialEq, Eq)]
pub struct Command<'a> {
    pub sync: bool,
    pub sizes: AskedSizes,
    pub host: [u8; 8],
    pub store: &'a str,
}

/// The command, or the place of the first word that doesn't fit, counted from 0.
pub fn read_words<'a>(words: &[&'a str]) -> Result<Command<'a>, u64>
    ensures fits { IfOk result (λ command. IsCommand (texts_of words.now) command) }
    ensures wrong { IfErr result (λ place. IsFirstWrong (texts_of words.now) place) }
{
    match read_options(Verb::Pipe, words) {
        Ok(settings) => Ok(Command {
            sync: settings.sync_or_default(),
            sizes: settings.sizes(),
            host: settings.host_or_default(),
            store: settings.store_or_default(),
        }),
        Err(place) => Err(place),
    }
}
