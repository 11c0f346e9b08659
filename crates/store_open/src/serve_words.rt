//! The arguments of `serve`: `serve`, and behind it options with their values, each option at most once and in any order.

ghost use Rattle.std.specs.Prelude.{IfOk, IfErr};
ghost use Rattle.store_open.specs.Options.{texts_of};
ghost use Rattle.store_open.specs.ServeWords.{IsServeCommand, IsFirstWrongOfServe};

use crate::format::AskedSizes;
use crate::options::read_options;
use crate::settings::Verb;

const DEFAULT_LINKS: u32 = 1024;

/// What the arguments of `serve` ask for. `sync` is whether a message is synced before it counts as kept, `sizes` are the store's,
/// where the arguments say them, `host` is where clients reach the broker (the address, and the port in four bytes, high byte
/// first), `store` the path of the store's folder, `listen` where the broker listens (as `host`), `links` how many connections
/// may be open at a time, and `connections` after how many the program ends.
#[derive(Debug, Clone, Copy, PartialEq, Eq)]
pub struct ServeCommand<'a> {
    pub sync: bool,
    pub sizes: AskedSizes,
    pub host: [u8; 8],
    pub store: &'a str,
    pub listen: [u8; 8],
    pub links: u32,
    pub connections: Option<u32>,
}

/// The command, or the place of the first word that doesn't fit, counted from 0.
pub fn read_serve_words<'a>(words: &[&'a str]) -> Result<ServeCommand<'a>, u64>
    ensures fits { IfOk result (λ command. IsServeCommand (texts_of words.now) command) }
    ensures wrong { IfErr result (λ place. IsFirstWrongOfServe (texts_of words.now) place) }
{
    match read_options(Verb::Serve, words) {
        Ok(settings) => Ok(ServeCommand {
            sync: settings.sync_or_default(),
            sizes: settings.sizes(),
            host: settings.host_or_default(),
            store: settings.store_or_default(),
            listen: settings.listen_or_default(),
            links: settings.links.unwrap_or(DEFAULT_LINKS),
            connections: settings.connections,
        }),
        Err(place) => Err(place),
    }
}
