// Where two texts differ.
use crate::report::Report;

/// Answers whether both texts are the same. Reports the first line of a row that differs: its number from 1 on, and what stands there in both
/// texts, if anything does.
pub fn are_same(row: &str, found: &[u8], wanted: &[u8], report: &mut Report) -> bool {
    let mut found = found.split(is_newline);
    let mut wanted = wanted.split(is_newline);
    for line in 1..u64::MAX {
        let (found, wanted) = (found.next(), wanted.next());
        if found.is_none() && wanted.is_none() {
            return true;
        }
        if found != wanted {
            report.say(row, &": line ");
            report.say("", &line);
            report.say(" of the output is\n", &"");
            report.line(found);
            report.say("  and was to be\n", &"");
            report.line(wanted);
            return false;
        }
    }
    true
}

fn is_newline(byte: &u8) -> bool {
    *byte == b'\n'
}
