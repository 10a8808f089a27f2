//! What the program says of itself behind `usage`, on standard error.

/// The program's version, its command lines with what each does, and where more is told.
pub const HELP: &str = "\
classic_console 0.1.0, a store of records in one database file

classic_console FILE create SIZE NAME:LENGTH ..
    makes FILE, with pages of SIZE bytes (1024, 2048, 4096, 8192 or 16384) and one to
    eight relations, each with its name and the bytes (1 to 200) that its values may have
classic_console FILE play
    plays the script of the standard input over FILE, and writes a line for each answer
classic_console FILE validate [--json]
    checks the whole of FILE, and tells its damage or its lost space, as text or as JSON

README.md says how to begin, docs/SCRIPTS.md what a script may say, and docs/STATUSES.md
what the last line and the number at the end mean. Use FILE in one program at a time.
";
