//! Where words went that this program had and another one has.

use std::io::Write;

// How the other program is asked for what this word asked for, if it is one that went there.
fn asked_elsewhere(word: &str) -> Option<&'static str> {
    match word {
        "show" => Some("hullpippin show JOURNAL"),
        "state" => Some("hullpippin state JOURNAL"),
        "explain" => Some("hullpippin explain JOURNAL PLACE"),
        "diagram" => Some("hullpippin diagram JOURNAL"),
        _ => None,
    }
}

/// Tells where the word went that comes behind the program's name, if it went.
pub fn print_hint<E: Write>(words: &[String], err: &mut E) {
    let Some(word) = words.get(1) else {
        return;
    };
    if let Some(asked) = asked_elsewhere(word.as_str()) {
        let _ = writeln!(err, "hint: another program does that: {asked}");
    }
}
