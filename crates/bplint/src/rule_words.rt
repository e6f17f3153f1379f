//! The words that `explain` takes for a rule: its word in any case, its number, or the line of a fault as it was
//! printed.

use bplist_objects::{Rule, rule_name, rule_of_number};
use std::alloc::{AllocError, Global};

/// Returns the rule that these words of a command line name. Each of them may be several words with blanks between.
pub fn rule_in(alloc: Global, words: &[&str]) -> Result<Option<Rule>, AllocError> {
    let mut parts = Vec::new(alloc);
    for word in words {
        for part in word.split_whitespace() {
            parts.push(part)?;
        }
    }
    Ok(match parts.as_slice() {
        [part] => rule_of(part),
        parts => rule_of_line(parts),
    })
}

/// The word is that after the last `fault`. It is rule 23 after `circle`. The name of a file may stand before.
fn rule_of_line(parts: &[&str]) -> Option<Rule> {
    let mut found = None;
    for pair in parts.windows(2) {
        match pair {
            ["fault", word] => found = rule_of_name(word).or(found),
            ["circle", number] if is_number(number) => found = Some(Rule::Circle),
            _ => {}
        }
    }
    found
}

fn is_number(word: &str) -> bool {
    word.parse::<u32>().is_ok()
}

fn rule_of(word: &str) -> Option<Rule> {
    match rule_of_name(word) {
        Some(rule) => Some(rule),
        None => rule_by_number(word),
    }
}

/// The number has decimal digits without a leading 0.
fn rule_by_number(word: &str) -> Option<Rule> {
    if word.starts_with(['+', '0']) {
        return None;
    }
    rule_of_number(word.parse::<u32>().ok()?)
}

/// The word may be in any case.
fn rule_of_name(word: &str) -> Option<Rule> {
    for number in 1..u32::MAX {
        let rule = rule_of_number(number)?;
        if rule_name(rule).eq_ignore_ascii_case(word) {
            return Some(rule);
        }
    }
    None
}

/// Returns the message for words that name no rule, with a list of the words.
pub fn no_rule(alloc: Global, words: &[&str]) -> Result<String, AllocError> {
    let mut message = String::from_str(alloc, "no rule has the word '")?;
    let mut between = "";
    for word in words {
        message.push_str(between)?;
        message.push_str(word)?;
        between = " ";
    }
    message.push_str("'; the words:")?;
    for number in 1..u32::MAX {
        let Some(rule) = rule_of_number(number) else {
            break;
        };
        let known = rule_name(rule);
        write!(message, " {known}")?;
    }
    Ok(message)
}
