//! The help of the program.

/// How the program is called, and what each word does.
pub const HELP: &str = "Usage: desk_web --db FILE --settings FILE --port N [OPTIONS]

Serves the desk of a file of tables on the loopback: pages for browsers, and messages for programs.

  --db FILE         The tables; they are made where there are none
  --settings FILE   The settings, in TOML
  --port N          The port, from 1 to 65535

Options:
  --count K         End once K messages are answered
  --log             Print a line for each message
  --proxy           A proxy stands in front: its X-Forwarded-For goes into the log
  --https           Browsers come by HTTPS: their cookie goes by that alone
  --copies FILE     Where POST /copy puts a copy of the tables
  --help            Print help, alone
  --version         Print the version, alone";

/// The names of its options.
pub const OPTIONS: [&str; 8] = [
    "db", "settings", "port", "count", "log", "proxy", "https", "copies",
];
