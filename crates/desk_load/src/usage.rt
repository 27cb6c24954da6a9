//! The help of the program.

/// How the program is called, and what each word does.
pub const HELP: &str = "Usage: desk_load --db FILE --settings FILE [OPTIONS] < LINES

Answers the lines of the standard input on a file of tables: each has its minute since 1970-01-01
00:00 UTC, who asks, and a command.

  --db FILE         The tables; they are made where there are none
  --settings FILE   The settings, in TOML

Options:
  --all             Print each answer, and not only those that tell more than ok
  --stop            End at the first refusal
  --from N          Begin with line N
  --commit N        Write N commands that are done as one transaction: a stop leaves all or none
  --check           Read no line: tell what is wrong first with the settings and the tables, and
                    warn of weak tokens
  --new-token PERSON
                    Alone: print a new token for a person, as a line of the settings
  --help            Print help, alone
  --version         Print the version, alone";

/// The names of its options.
pub const OPTIONS: [&str; 8] = [
    "db",
    "settings",
    "all",
    "stop",
    "from",
    "commit",
    "check",
    "new-token",
];
