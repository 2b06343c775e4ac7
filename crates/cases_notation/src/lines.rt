//! The lines of files of cases, which programs ask, and the words of these.
use std::alloc::Global;

/// A line with those that go on with it, and the number of the first, from 1.
#[derive(Drop)]
pub struct Line {
    pub number: usize,
    pub text: String,
}

/// The lines of a text that are not empty and no comments, which begin with `#`. A line that begins with two spaces goes on with
/// the one before it, behind a space. None where memory runs out.
pub fn lines_of(alloc: Global, text: &str) -> Option<Vec<Line>> {
    let mut lines: Vec<Line> = Vec::new(alloc);
    for (index, line) in text.lines().enumerate() {
        if let Some(more) = line.strip_prefix("  ") {
            if let Some(last) = lines.last_mut() {
                last.text.push_str(" ").ok()?;
                last.text.push_str(more).ok()?;
            }
        } else if !line.is_empty() && !line.starts_with('#') {
            let number = index.saturating_add(1);
            let text = String::from_str(alloc, line).ok()?;
            lines.push(Line { number, text }).ok()?;
        }
    }
    Some(lines)
}

/// The first word of a text, and what stands behind the space that ends it.
pub fn word_and_rest(text: &str) -> (&str, &str) {
    text.split_once(' ').unwrap_or((text, ""))
}
