//! The arguments: the name of a command, and behind it options with their values, each option at most once and in any order.

ghost use Rattle.std.specs.Prelude.{◌≡◌, IfOk, IfErr};
ghost use Rattle.store_open.specs.Options.{texts_of, word_of, AreArguments, IsFirstUnfit};

use crate::settings::{Settings, Verb, read_choice, read_setting};

impl Verb {
    /// The word of the command.
    pub fn word(self) -> &'static str
        ensures { result.now ≡ word_of self }
    {
        match self {
            Verb::Pipe => "pipe",
            Verb::Serve => "serve",
            Verb::Dump => "dump",
            Verb::Verify => "verify",
            Verb::Gen => "gen",
        }
    }
}

/// What the options of this command say, or the place of the first word that doesn't fit, counted from 0.
pub(crate) fn read_options<'a>(verb: Verb, words: &[&'a str]) -> Result<Settings<'a>, u64>
    ensures fits { IfOk result (AreArguments verb (texts_of words.now)) }
    ensures wrong { IfErr result (IsFirstUnfit verb (texts_of words.now)) }
{
    let Some((word, options)) = words.split_first() else {
        return Err(0);
    };
    if *word != verb.word() {
        return Err(0);
    }
    let mut settings = Settings::none();
    let mut place: u64 = 1;
    let mut rest = options;
    while let Some((name, values)) = rest.split_first() {
        let Some(choice) = read_choice(verb, name) else {
            return Err(place);
        };
        if !settings.is_free(choice) {
            return Err(place);
        }
        let Some((value, more)) = values.split_first() else {
            return Err(place + 1);
        };
        let Some(setting) = read_setting(choice, value) else {
            return Err(place + 1);
        };
        settings.put(setting);
        place += 2;
        rest = more;
    }
    Ok(settings)
}
