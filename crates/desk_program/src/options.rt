//! The words of a server, and those of one command.
ghost use Rattle.std.specs.Prelude.{◌≡◌, Some, map, option_and_then, string_bytes};
ghost use Rattle.std.specs.Option.{option_map};
ghost use Rattle.desk_words.specs.Number.{number_of};
ghost use Rattle.desk_program.specs.Options as options;

use wire_core::number_of_word;

/// How many words ask for a server.
const WORDS: usize = 9;

/// How many words stand before those of one command: four options, a key and a value each.
const OPTIONS: usize = 8;

/// The highest port.
const MAX_PORT: u32 = 65_535;

/// The most connections that a server can be asked to answer.
const MAX_CONNECTIONS: u32 = 1_000_000;

/// What a server is asked for.
#[derive(Clone, Copy)]
pub struct Serving<'w> {
    /// The path of the file of tables.
    pub tables: &'w str,
    /// The path of the settings file.
    pub settings: &'w str,
    /// The port on which it listens, from 1.
    pub port: u16,
    /// How many connections it answers, from 1 to 1,000,000.
    pub count: u32,
}

/// What words ask of a server: `--db FILE --settings FILE serve --port N --count K`, each two
/// options in either order. None where they are other words, or a number isn't 1 to 10 digits, or
/// is 0 or too great.
pub fn serving_of(words: &[String]) -> Option<Serving<'_>>
    ensures { option_map (λ s. (s.tables.now, s.settings.now, s.port, s.count)) result
        ≡ options.serving_of (map string_bytes words.now) }
{
    if words.len() != WORDS || !is_next("serve", &words[4..]) {
        return None;
    }
    let files = both_values("--db", "--settings", &words[..4]);
    let numbers = both_values("--port", "--count", &words[5..WORDS]);
    serving_with(files, numbers)
}

/// Whether that word comes next.
fn is_next(wanted: &str, words: &[String]) -> bool
    ensures { result ≡ options.is_next wanted.now (map string_bytes words.now) }
{
    match words {
        [] => false,
        [word, ..] => word.as_str() == wanted,
    }
}

/// The values of two options, which are given in either order.
#[tactic(auto, unfolding(crate::specs::Options::both_values))]
fn both_values<'w>(one: &str, other: &str, words: &'w [String]) -> Option<(&'w str, &'w str)>
    ensures { option_map (λ v. (v.0.now, v.1.now)) result
        ≡ options.both_values one.now other.now (map string_bytes words.now) }
{
    let [a, x, b, y] = words else {
        return None;
    };
    if a.as_str() == one && b.as_str() == other {
        Some((x.as_str(), y.as_str()))
    } else if a.as_str() == other && b.as_str() == one {
        Some((y.as_str(), x.as_str()))
    } else {
        None
    }
}

/// The server with these files, if both are given, and so are a port and a count.
#[tactic(auto, unfolding(crate::specs::Options::served_with))]
fn serving_with<'w>(
    files: Option<(&'w str, &'w str)>,
    numbers: Option<(&'w str, &'w str)>,
) -> Option<Serving<'w>>
    ensures { option_map (λ s. (s.tables.now, s.settings.now, s.port, s.count)) result
        ≡ options.served_with (option_map (λ v. (v.0.now, v.1.now)) files.entry)
        (option_map (λ v. (v.0.now, v.1.now)) numbers.entry) }
{
    let (tables, settings) = files?;
    let (port, count) = numbers?;
    let port = number_up_to(MAX_PORT, port)?;
    let count = number_up_to(MAX_CONNECTIONS, count)?;
    Some(Serving {
        tables,
        settings,
        port: port as u16,
        count,
    })
}

/// The number of a word, if it is from 1 to the most.
fn number_up_to(most: u32, word: &str) -> Option<u32>
    ensures { result ≡ options.counted most (number_of word.now) }
{
    match number_of_word(word) {
        Some(number) if 1 <= number && number <= most => Some(number),
        _ => None,
    }
}

/// One command that is asked of a file of tables.
#[derive(Clone, Copy)]
pub struct OneCommand<'w> {
    /// The path of the file of tables.
    pub tables: &'w str,
    /// The path of the settings file.
    pub settings: &'w str,
    /// Who asks it.
    pub caller: &'w str,
    /// When, in minutes since 1970-01-01 00:00 UTC.
    pub at: u32,
    /// Its words, one at least.
    pub words: &'w [String],
}

/// The one command that words ask: `--db FILE --settings FILE --caller PERSON --at MOMENT` in any
/// order, and then the words of the command, whatever they are. None where they are other words, an
/// option stands there twice, there is no word of a command, or the moment isn't 1 to 10 digits or
/// is more than 4,294,967,295.
pub fn one_command_of(words: &[String]) -> Option<OneCommand<'_>>
    ensures { option_map (λ c. (
      c.tables.now,
      c.settings.now,
      c.caller.now,
      c.at,
      map string_bytes c.words.now,
    )) result
        ≡ options.one_command_of (map string_bytes words.now) }
{
    if words.len() <= OPTIONS {
        return None;
    }
    after_options(&words[..OPTIONS], &words[OPTIONS..])
}

/// The one command of four options and its words.
fn after_options<'w>(front: &'w [String], words: &'w [String]) -> Option<OneCommand<'w>>
    ensures { option_map (λ c. (
      c.tables.now,
      c.settings.now,
      c.caller.now,
      c.at,
      map string_bytes c.words.now,
    )) result
        ≡ options.after_options (map string_bytes front.now) (map string_bytes words.now) }
{
    let tables = value_of("--db", front);
    let settings = value_of("--settings", front);
    let caller = value_of("--caller", front);
    let at = value_of("--at", front);
    one_with(tables, settings, caller, at, words)
}

/// The value that follows a key, in four pairs of a key and a value.
#[tactic(auto, unfolding(crate::specs::Options::value_of))]
fn value_of<'w>(key: &str, pairs: &'w [String]) -> Option<&'w str>
    ensures { option_map (λ v. v.now) result
        ≡ options.value_of key.now (map string_bytes pairs.now) }
{
    let [a, x, b, y, c, z, d, u] = pairs else {
        return None;
    };
    if a.as_str() == key {
        Some(x.as_str())
    } else if b.as_str() == key {
        Some(y.as_str())
    } else if c.as_str() == key {
        Some(z.as_str())
    } else if d.as_str() == key {
        Some(u.as_str())
    } else {
        None
    }
}

/// The one command with these options, if all are given.
#[tactic(auto, unfolding(crate::specs::Options::one_with))]
fn one_with<'w>(
    tables: Option<&'w str>,
    settings: Option<&'w str>,
    caller: Option<&'w str>,
    at: Option<&'w str>,
    words: &'w [String],
) -> Option<OneCommand<'w>>
    ensures { option_map (λ c. (
      c.tables.now,
      c.settings.now,
      c.caller.now,
      c.at,
      map string_bytes c.words.now,
    )) result
        ≡ options.one_with (option_map (λ v. v.now) tables.entry)
        (option_map (λ v. v.now) settings.entry) (option_map (λ v. v.now) caller.entry)
        (option_and_then number_of (option_map (λ v. v.now) at.entry))
        (map string_bytes words.now) }
{
    Some(OneCommand {
        tables: tables?,
        settings: settings?,
        caller: caller?,
        at: number_of_word(at?)?,
        words,
    })
}
